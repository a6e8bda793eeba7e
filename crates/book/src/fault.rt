// Why a text is no book, and where.
use std::error::Error;
use std::fmt;

// What is wrong with the word at a fault.
#[derive(Clone, Copy, Debug, PartialEq, Eq)]
pub enum Reason {
    RuleExpected,
    WidthExpected,
    NeededExpected,
    TermExpected,
    NumberExpected,
    NumberTooLarge,
    TooManyOperations,
    TooManyRules,
}

// The place in the text where the word begins that can't stand there.
#[derive(Clone, Copy, Debug, PartialEq, Eq)]
pub struct Fault {
    pub at: usize,
    pub reason: Reason,
}

impl fmt::Display for Reason {
    fn fmt<W: fmt::Write>(&self, f: &mut fmt::Formatter<W>) -> fmt::Result {
        let text = match self {
            Reason::RuleExpected => "the word 'rule' is expected",
            Reason::WidthExpected => "a width is expected: 8, 16, 32 or 64",
            Reason::NeededExpected => "at most 4 terms may be needed",
            Reason::TermExpected => "a term is expected",
            Reason::NumberExpected =>
                "a number below 2^64 is expected, in decimal with no 0 in front",
            Reason::NumberTooLarge =>
                "the number is too large: names go to 15, literals to the largest word",
            Reason::TooManyOperations => "a rule has at most 32 operations",
            Reason::TooManyRules => "a book has at most 256 rules",
        };
        f.write_str(text)
    }
}

// The place has no meaning without the text, so only the reason is printed.
impl fmt::Display for Fault {
    fn fmt<W: fmt::Write>(&self, f: &mut fmt::Formatter<W>) -> fmt::Result {
        self.reason.fmt(f)
    }
}

impl Error for Fault {}
