// Machine words of 8, 16, 32 and 64 bits, held in a `u64`, and the operations on them.
#![tactic(auto)]

ghost use Rattle.std.specs.Prelude.{◌≡◌, ◌+◌, ◌%◌, ◌^◌, ◌<◌};
ghost use Rattle.words.specs.Words.{bits};

mod apply;
mod arithmetic;
mod bitwise;
mod compare;
mod shift;

pub use apply::{apply1, apply2};
pub use arithmetic::{Product, wide_product};

// The width of a word.
#[derive(Clone, Copy, Debug, PartialEq, Eq)]
pub enum Width {
    W8,
    W16,
    W32,
    W64,
}

// The operations of one operand.
#[derive(Clone, Copy, Debug, PartialEq, Eq)]
pub enum UnaryOp {
    Not,
    Neg,
}

// The operations of two operands, under SMT-LIB's names without their `bv`.
#[derive(Clone, Copy, Debug, PartialEq, Eq)]
pub enum BinaryOp {
    Add,
    Sub,
    Mul,
    Udiv,
    Urem,
    And,
    Or,
    Xor,
    Shl,
    Lshr,
    Ashr,
    Comp,
    Ult,
    Slt,
}

impl Width {
    // The number of bits.
    pub fn bits(self) -> u32
        ensures { result ≡ bits self }
    {
        match self {
            Width::W8 => 8,
            Width::W16 => 16,
            Width::W32 => 32,
            Width::W64 => 64,
        }
    }

    // The largest word: all bits 1.
    pub fn mask(self) -> u64
        ensures { result + 1 ≡ 2 ^ bits self }
    {
        match self {
            Width::W8 => 0xff,
            Width::W16 => 0xffff,
            Width::W32 => 0xffff_ffff,
            Width::W64 => u64::MAX,
        }
    }

    // The lowest bits of `x`, as many as the width has.
    fn cut(self, x: u64) -> u64
        ensures { result ≡ x % 2 ^ bits self }
    {
        x & self.mask()
    }
}

// A number of bits that no width has.
#[derive(Clone, Copy, Debug, PartialEq, Eq)]
pub struct NoWidth(pub u64);

impl TryFrom<u64> for Width {
    type Error = NoWidth;

    ghost use Rattle.words.specs.Words.{IsWidthOf};

    ghost try_from_gives = { IsWidthOf };

    fn try_from(n: u64) -> Result<Width, NoWidth> {
        match n {
            8 => Ok(Width::W8),
            16 => Ok(Width::W16),
            32 => Ok(Width::W32),
            64 => Ok(Width::W64),
            _ => Err(NoWidth(n)),
        }
    }
}

// A word of a width.
#[derive(Clone, Copy)]
struct Word {
    width: Width,
    value: u64,
    ghost fits: { value < 2 ^ bits width },
}

// Two words of one width, which an operation takes.
#[derive(Clone, Copy)]
struct Operands {
    width: Width,
    left: u64,
    right: u64,
    ghost left_fits: { left < 2 ^ bits width },
    ghost right_fits: { right < 2 ^ bits width },
}
