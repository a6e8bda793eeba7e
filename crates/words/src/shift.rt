// The shifts. The count is a word too, and may be the width or more, so each function tests it first:
// a shift of a `u64` by 64 or more is not defined.
ghost use Rattle.std.specs.Prelude.{◌≡◌};
ghost use Rattle.words.specs.Words.{bits, do2};
ghost use Rattle.words.specs.declared.BinaryOp.TheVariants.{Shl, Lshr, Ashr};

use crate::Operands;

impl Operands {
    // The left one moved up by as many bits as the right one says.
    #[tactic(auto, using(crate::proofs::Laws::cut_law, crate::proofs::Laws::bits_le))]
    pub(crate) fn shl(self) -> u64
        ensures { result ≡ do2 (bits self.width) Shl self.left self.right }
    {
        if self.right < u64::from(self.width.bits()) {
            self.width.cut(self.left << self.right)
        } else {
            0
        }
    }

    // The left one moved down, filled with 0.
    pub(crate) fn lshr(self) -> u64
        ensures { result ≡ do2 (bits self.width) Lshr self.left self.right }
    {
        if self.right < u64::from(self.width.bits()) {
            self.left >> self.right
        } else {
            0
        }
    }

    // The left one moved down, filled with its top bit. Where that is 1, the complement is moved down,
    // which fills with 0, and its complement has 1 there.
    pub(crate) fn ashr(self) -> u64
        ensures { result ≡ do2 (bits self.width) Ashr self.left self.right }
    {
        if (self.left >> (self.width.bits() - 1)) % 2 == 1 {
            let mask = self.width.mask();
            let complement = Operands {
                width: self.width,
                left: mask - self.left,
                right: self.right,
            };
            mask - complement.lshr()
        } else {
            self.lshr()
        }
    }
}
