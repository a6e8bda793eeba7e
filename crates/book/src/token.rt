// What the words of a book's text are.
use words::{BinaryOp, UnaryOp};

// The kinds of a term without parts; a number comes after each.
#[derive(Clone, Copy, Debug, PartialEq, Eq)]
pub enum Leaf {
    Any,
    Con,
    Lit,
}

// The operations, whose parts come after them.
#[derive(Clone, Copy, Debug, PartialEq, Eq)]
pub enum Operation {
    Unary(UnaryOp),
    Binary(BinaryOp),
    Ite,
}

// What a word is. The end of the text counts as one, and a word that a book can't have is `Other`.
// An Option in place of `End` was tried: where no pattern fits, nothing is then known of the token inside.
#[derive(Clone, Copy, Debug, PartialEq, Eq)]
pub enum Token {
    End,
    Rule,
    Leaf(Leaf),
    Operation(Operation),
    Number(u64),
    Other,
}
