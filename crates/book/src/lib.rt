// The text of a rule book: reading it, and whether it is one.
#![tactic(auto)]

mod book;
mod fault;
mod name;
mod number;
mod place;
mod reader;
mod rule;
mod rules;
mod term;
mod token;

pub use book::read_book;
pub use fault::{Fault, Reason};
pub use place::{Position, locate};
pub use reader::Reader;
pub use rules::Rules;
