// Reads the book that its argument names, and prints a line for each rule: its weight, and whether
// it may be used to rewrite a listing. A text that is no book is refused with the place of its first
// fault.
#![tactic(auto)]

use anyhow::anyhow;
use book::{Rules, locate};
use std::env;
use std::fs::File;
use std::io::Read;
use terms::{usable, weight};

// A book has at most 256 rules of at most 1,888 bytes with single blanks between their words, so this
// is room for every book that isn't mostly blanks.
const MOST_BYTES: usize = 524_288;

// Reads a file that may be a book.
fn read_text(rt: &HostRuntime, path: &str) -> anyhow::Result<Vec<u8>> {
    let file = File::open(rt, path)?;
    // with room for all that is read and a byte more, a text makes the library enlarge nothing
    let mut text = Vec::with_capacity(rt.alloc(), MOST_BYTES + 2)?;
    file.take(MOST_BYTES as u64 + 1).read_to_end(&mut text)?;
    if text.len() > MOST_BYTES {
        return Err(anyhow!("the text has more than 524,288 bytes"));
    }
    Ok(text)
}

// Prints what is known of each rule of a book. The rules are counted, so that a proof shows that one comes
// for each line, and none is passed over.
fn report(rt: &HostRuntime, rules: Rules<'_>) -> anyhow::Result<()> {
    let all = rules.left;
    let mut rules = rules;
    for i in 0..all {
        let Some(rule) = rules.next() else {
            unreachable!()
        };
        let heavy = weight(&rule);
        let verdict = if usable(&rule) {
            "may be used"
        } else {
            "may not be used"
        };
        println!(rt; "rule {}: weight {heavy}, {verdict}", i + 1)?;
    }
    Ok(())
}

fn run(rt: &HostRuntime) -> anyhow::Result<()> {
    let mut arguments = env::args(rt)?;
    let _program = arguments.next();
    let Some(path) = arguments.next() else {
        return Err(anyhow!("use: judge_book FILE"));
    };
    let text = read_text(rt, path.as_str())?;
    match Rules::of(text.as_slice()) {
        Ok(rules) => report(rt, rules),
        Err(fault) => {
            let place = locate(text.as_slice(), fault.at);
            println!(rt; "no book: {place}: {fault}")?;
            Err(anyhow!("no book"))
        }
    }
}

fn main(rt: HostRuntime) -> anyhow::Result<()> {
    run(&rt)
}
