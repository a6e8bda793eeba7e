// The arithmetic of words. Sums, differences and products wrap at 64 bits and are then cut to the
// width, which gives the same word as to wrap at the width, since no width has more than 64 bits.
ghost use Rattle.std.specs.Prelude.{◌≡◌, ◌+◌, ◌*◌, ◌^◌};
ghost use Rattle.words.specs.Words.{bits, do1, do2};
ghost use Rattle.words.specs.declared.BinaryOp.TheVariants.{Add, Sub, Mul, Udiv, Urem};
ghost use Rattle.words.specs.declared.UnaryOp.TheVariants.{Neg};

use crate::{Operands, Word};

// The two halves of a product of two words of 64 bits.
#[derive(Clone, Copy)]
pub struct Product {
    pub high: u64,
    pub low: u64,
}

// The whole product of two words of 64 bits.
pub fn wide_product(x: u64, y: u64) -> Product
    ensures { result.high * 2 ^ 64 + result.low ≡ x * y }
{
    let whole = u128::from(x) * u128::from(y);
    let high = (whole >> 64) as u64;
    let low = x.wrapping_mul(y);
    Product { high, low }
}

impl Word {
    // Minus the word, in two's complement.
    #[tactic(auto, using(crate::proofs::Laws::cut_difference, crate::proofs::Laws::bits_le))]
    pub(crate) fn neg(self) -> u64
        ensures { result ≡ do1 (bits self.width) Neg self.value }
    {
        self.width.cut(0u64.wrapping_sub(self.value))
    }
}

impl Operands {
    // Their sum.
    #[tactic(auto, using(crate::proofs::Laws::cut_law, crate::proofs::Laws::bits_le))]
    pub(crate) fn add(self) -> u64
        ensures { result ≡ do2 (bits self.width) Add self.left self.right }
    {
        self.width.cut(self.left.wrapping_add(self.right))
    }

    // The left one less the right one.
    #[tactic(auto, using(crate::proofs::Laws::cut_difference, crate::proofs::Laws::bits_le))]
    pub(crate) fn sub(self) -> u64
        ensures { result ≡ do2 (bits self.width) Sub self.left self.right }
    {
        self.width.cut(self.left.wrapping_sub(self.right))
    }

    // Their product.
    #[tactic(auto, using(crate::proofs::Laws::cut_law, crate::proofs::Laws::bits_le))]
    pub(crate) fn mul(self) -> u64
        ensures { result ≡ do2 (bits self.width) Mul self.left self.right }
    {
        self.width.cut(self.left.wrapping_mul(self.right))
    }

    // The quotient of the left one by the right one, or the largest word where the right one is 0.
    pub(crate) fn udiv(self) -> u64
        ensures { result ≡ do2 (bits self.width) Udiv self.left self.right }
    {
        if self.right == 0 {
            self.width.mask()
        } else {
            self.left / self.right
        }
    }

    // The remainder of the left one by the right one, or the left one where the right one is 0.
    pub(crate) fn urem(self) -> u64
        ensures { result ≡ do2 (bits self.width) Urem self.left self.right }
    {
        if self.right == 0 {
            self.left
        } else {
            self.left % self.right
        }
    }
}
