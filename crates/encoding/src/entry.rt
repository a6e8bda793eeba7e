// The entries of a table of words.
ghost use Rattle.std.specs.Prelude.{◌≡◌};
ghost use Rattle.encoding.specs.declared.entry.Entry.TheVariants.{Any};

use words::{BinaryOp, UnaryOp};

// The words of a division: the product is that of the divisor and the quotient.
#[derive(Clone, Copy, PartialEq, Eq, Debug)]
pub enum DivisionWord {
    Quotient,
    Remainder,
    Product,
    // 3 and so many more, a number that names none of the three words; no entry of a rule has it
    Other(usize),
}

// What an entry's word is, from the words of entries before it. There is no heap, so an entry names
// them by their places.
#[derive(Clone, Copy, PartialEq, Eq, Debug)]
pub enum Entry {
    Any(usize),
    Con(usize),
    Number(u64),
    Unary(UnaryOp, usize),
    Binary(BinaryOp, usize, usize),
    Ite(usize, usize, usize),
    // the three words of a division, one after the other
    Divide(usize, usize),
    Part(usize, DivisionWord),
}

// An entry to fill a list with. A variant with data can't be the derived default.
impl Default for Entry {
    ghost is_default = { λ entry. entry ≡ Any 0 };

    fn default() -> Entry {
        Entry::Any(0)
    }
}
