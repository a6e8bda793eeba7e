// The comparisons, which give the word 1 where they hold and the word 0 where they do not.
ghost use Rattle.std.specs.Prelude.{◌≡◌};
ghost use Rattle.words.specs.Words.{bits, do2, moved};
ghost use Rattle.words.specs.declared.BinaryOp.TheVariants.{Comp, Ult, Slt};

use crate::{Operands, Width};

impl Operands {
    // Whether they are the same word.
    pub(crate) fn comp(self) -> u64
        ensures { result ≡ do2 (bits self.width) Comp self.left self.right }
    {
        u64::from(self.left == self.right)
    }

    // Whether the left one is below the right one, both read without sign.
    pub(crate) fn ult(self) -> u64
        ensures { result ≡ do2 (bits self.width) Ult self.left self.right }
    {
        u64::from(self.left < self.right)
    }

    // Whether the left one is below the right one, both read in two's complement. The sign of their
    // difference does not tell, since the difference may wrap.
    pub(crate) fn slt(self) -> u64
        ensures { result ≡ do2 (bits self.width) Slt self.left self.right }
    {
        u64::from(move_up(self.width, self.left) < move_up(self.width, self.right))
    }
}

// `x` moved up by half the range, which takes the order in two's complement to the one without sign.
#[tactic(auto, using(crate::proofs::Laws::cut_law, crate::proofs::Laws::bits_le))]
fn move_up(width: Width, x: u64) -> u64
    ensures { result ≡ moved (bits width) x }
{
    width.cut(x.wrapping_add(1 << (width.bits() - 1)))
}
