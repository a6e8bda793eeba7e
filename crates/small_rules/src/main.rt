// Decides each rule of the books that its arguments name by trying all values of its names, and
// prints for each book how many of its rules hold and how many fail.
#![tactic(auto)]

use anyhow::anyhow;
use book::Rules;
use std::env;
use std::fs::File;
use std::io::Read;

mod names;
mod trial;

use trial::{Verdict, holds_by_trying};

// What is read of a book: more than each of the books beside this program has.
const MOST_BYTES: u64 = 65_536;

// Prints how many rules of the book in a file hold, and how many fail; the text is read into room that
// one file leaves to the next.
fn report(rt: &HostRuntime, path: &str, text: &mut Vec<u8>) -> anyhow::Result<()> {
    text.clear();
    File::open(rt, path)?.take(MOST_BYTES).read_to_end(text)?;
    let Ok(rules) = Rules::of(text.as_slice()) else {
        return Err(anyhow!("no book"));
    };
    let all = rules.left;
    let mut hold: usize = 0;
    let mut fail: usize = 0;
    let mut rules = rules;
    // counted as they come, since verdicts with their values would take more room than the text
    for _turn in 0..all {
        let Some(rule) = rules.next() else {
            unreachable!()
        };
        match holds_by_trying(&rule) {
            Verdict::Holds => hold = hold.saturating_add(1),
            Verdict::Fails(_) => fail = fail.saturating_add(1),
            Verdict::Untried => {}
        }
    }
    println!(rt; "{path}: {all} rules, {hold} hold, {fail} fail")?;
    Ok(())
}

fn run(rt: &HostRuntime) -> anyhow::Result<()> {
    let mut arguments = env::args(rt)?;
    let _program = arguments.next();
    // with a byte more than is read, a text makes the library enlarge nothing
    let mut text = Vec::with_capacity(rt.alloc(), MOST_BYTES as usize + 1)?;
    for path in arguments {
        report(rt, path.as_str(), &mut text)?;
    }
    Ok(())
}

fn main(rt: HostRuntime) -> anyhow::Result<()> {
    run(&rt)
}
