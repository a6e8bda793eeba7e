// Texts at the edges of what a book is, each with what reading says of it. What is printed is held to
// the file of expected lines beside this program.
#![tactic(auto)]

ghost use Rattle.cases.specs.Worked.{Worked};

use book::{locate, read_book};
use std::io;

mod texts;

use texts::{LIMITS, TEXTS};

// The worked cases of the definitions are proved where this is.
fn worked_cases_stand() -> bool
    ensures { Worked }
{
    true
}

fn show(rt: &HostRuntime, name: &str, text: &[u8]) -> io::Result<()> {
    match read_book(text) {
        Ok(rules) => println!(rt; "{name}: {rules} rules"),
        Err(fault) => {
            let place = locate(text, fault.at);
            println!(rt; "{name}: no book, {place}: {fault}")
        }
    }
}

fn main(rt: HostRuntime) -> io::Result<()> {
    let _proved = worked_cases_stand();
    for (name, text) in TEXTS {
        show(&rt, name, text)?;
    }
    for limit in LIMITS {
        show(&rt, limit.name, limit.text(rt.alloc())?.as_slice())?;
    }
    Ok(())
}
