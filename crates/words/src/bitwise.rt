// The operations that go bit by bit.
ghost use Rattle.std.specs.Prelude.{◌≡◌};
ghost use Rattle.words.specs.Words.{bits, do1, do2};
ghost use Rattle.words.specs.declared.BinaryOp.TheVariants.{And, Or, Xor};
ghost use Rattle.words.specs.declared.UnaryOp.TheVariants.{Not};

use crate::{Operands, Word};

impl Word {
    // Each bit turned over, by a difference that borrows nothing, since the mask has every bit.
    pub(crate) fn bit_not(self) -> u64
        ensures { result ≡ do1 (bits self.width) Not self.value }
    {
        self.width.mask() - self.value
    }
}

impl Operands {
    // The bits that both have.
    pub(crate) fn bit_and(self) -> u64
        ensures { result ≡ do2 (bits self.width) And self.left self.right }
    {
        self.left & self.right
    }

    // The bits that one of them has at least.
    pub(crate) fn bit_or(self) -> u64
        ensures { result ≡ do2 (bits self.width) Or self.left self.right }
    {
        self.left | self.right
    }

    // The bits that one of them has, and the other lacks.
    pub(crate) fn bit_xor(self) -> u64
        ensures { result ≡ do2 (bits self.width) Xor self.left self.right }
    {
        self.left ^ self.right
    }
}
