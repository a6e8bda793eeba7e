// The names of the operations, and what each word is.
ghost use Rattle.std.specs.Prelude.{◌≡◌, MatchOption};
ghost use Rattle.book.specs.Text.{binary_name};
ghost use Rattle.book.specs.Tokens.{operation_name, NoOperation, Is};

use crate::number::number;
use crate::token::{Leaf, Operation, Token};
use words::{BinaryOp, UnaryOp};

const OPERATIONS: [Operation; 17] = [
    Operation::Binary(BinaryOp::Add),
    Operation::Binary(BinaryOp::Sub),
    Operation::Binary(BinaryOp::Mul),
    Operation::Binary(BinaryOp::Udiv),
    Operation::Binary(BinaryOp::Urem),
    Operation::Binary(BinaryOp::And),
    Operation::Binary(BinaryOp::Or),
    Operation::Binary(BinaryOp::Xor),
    Operation::Binary(BinaryOp::Shl),
    Operation::Binary(BinaryOp::Lshr),
    Operation::Binary(BinaryOp::Ashr),
    Operation::Binary(BinaryOp::Comp),
    Operation::Binary(BinaryOp::Ult),
    Operation::Binary(BinaryOp::Slt),
    Operation::Unary(UnaryOp::Not),
    Operation::Unary(UnaryOp::Neg),
    Operation::Ite,
];

fn binary_name(op: BinaryOp) -> &'static [u8]
    ensures { result.now ≡ binary_name op }
{
    match op {
        BinaryOp::Add => b"bvadd",
        BinaryOp::Sub => b"bvsub",
        BinaryOp::Mul => b"bvmul",
        BinaryOp::Udiv => b"bvudiv",
        BinaryOp::Urem => b"bvurem",
        BinaryOp::And => b"bvand",
        BinaryOp::Or => b"bvor",
        BinaryOp::Xor => b"bvxor",
        BinaryOp::Shl => b"bvshl",
        BinaryOp::Lshr => b"bvlshr",
        BinaryOp::Ashr => b"bvashr",
        BinaryOp::Comp => b"bvcomp",
        BinaryOp::Ult => b"bvult",
        BinaryOp::Slt => b"bvslt",
    }
}

impl Operation {
    // The name of an operation in a book's text.
    fn name(self) -> &'static [u8]
        ensures { result.now ≡ operation_name self }
    {
        match self {
            Operation::Unary(UnaryOp::Not) => b"bvnot",
            Operation::Unary(UnaryOp::Neg) => b"bvneg",
            Operation::Binary(op) => binary_name(op),
            Operation::Ite => b"ite",
        }
    }

    // The operation that a word names.
    pub(crate) fn from_name(word: &[u8]) -> Option<Operation>
        ensures { MatchOption result (NoOperation word.now) (λ o. word.now ≡ operation_name o) }
    {
        for op in OPERATIONS {
            if op.name() == word {
                return Some(op);
            }
        }
        None
    }
}

// What a word is.
impl From<&[u8]> for Token {
    ghost from_gives = { λ word token. Is token word.now };

    fn from(word: &[u8]) -> Token {
        match word {
            b"any" => Token::Leaf(Leaf::Any),
            b"con" => Token::Leaf(Leaf::Con),
            b"lit" => Token::Leaf(Leaf::Lit),
            b"rule" => Token::Rule,
            _ => {
                if let Some(op) = Operation::from_name(word) {
                    Token::Operation(op)
                } else if let Some(n) = number(word) {
                    Token::Number(n)
                } else {
                    Token::Other
                }
            }
        }
    }
}
