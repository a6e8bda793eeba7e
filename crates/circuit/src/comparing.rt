// Comparisons of words: one literal that says how two words compare, or whether a word has a 1.
ghost use Rattle.std.specs.Prelude.{◌≡◌, length};
ghost use Rattle.circuit.specs.Bits.{topped};
ghost use Rattle.circuit.specs.Nets.{high, low};
ghost use Rattle.circuit.specs.Circuits.{borrow_net, less_net, equal_net, any_net};
ghost use Rattle.circuit.specs.Parts.{equal_bit_net};
ghost use Rattle.circuit.specs.Built.{Fits, Wrote};

use crate::builder::{Builder, HIGH, LOW};
use clauses::Literal;

impl Builder<'_> {
    // 0 if a borrow is left after x - y.
    fn borrow(&mut self, x: &[Literal], y: &[Literal]) -> Literal
        requires operand { length y.now ≡ length x.now }
        requires room { Fits self.old (borrow_net x.now y.now high self.old.net).0 }
        ensures wrote { Wrote self.old self.new (borrow_net x.now y.now high self.old.net).0 }
        ensures output { result ≡ (borrow_net x.now y.now high self.old.net).1 }
    {
        let mut enough = HIGH;
        for (a, b) in x.iter().zip(y) {
            enough = self.majority(*a, b.negated(), enough);
        }
        enough
    }

    // Whether x is below y, without sign: whether x - y borrows.
    pub fn less(&mut self, x: &[Literal], y: &[Literal]) -> Literal
        requires operand { length y.now ≡ length x.now }
        requires room { Fits self.old (less_net x.now y.now self.old.net).0 }
        ensures wrote { Wrote self.old self.new (less_net x.now y.now self.old.net).0 }
        ensures output { result ≡ (less_net x.now y.now self.old.net).1 }
    {
        self.borrow(x, y).negated()
    }

    // Whether x is below y as two's complement: without sign once the top bits change places.
    pub fn signed_less(&mut self, x: &[Literal], y: &[Literal]) -> Literal
        requires operand { length y.now ≡ length x.now }
        requires room { Fits self.old (less_net (topped x.now y.now) (topped y.now x.now) self.old.net).0 }
        ensures wrote { Wrote self.old self.new (less_net (topped x.now y.now) (topped y.now x.now) self.old.net).0 }
        ensures output { result ≡ (less_net (topped x.now y.now) (topped y.now x.now) self.old.net).1 }
    {
        if x.len() == 0 {
            return LOW;
        }
        let top = x.len() - 1;
        let below = self.borrow(&x[..top], &y[..top]);
        let enough = self.majority(y[top], x[top].negated(), below);
        enough.negated()
    }

    // Whether two bits are equal, and the bits so far.
    fn equal_bit(&mut self, x: Literal, y: Literal, before: Literal) -> Literal
        requires { Fits self.old (equal_bit_net x y before self.old.net).0 }
        ensures wrote { Wrote self.old self.new (equal_bit_net x y before self.old.net).0 }
        ensures output { result ≡ (equal_bit_net x y before self.old.net).1 }
    {
        let apart = self.xor(x, y);
        let alike = apart.negated();
        self.and(before, alike)
    }

    // Whether x and y are equal.
    pub fn equal(&mut self, x: &[Literal], y: &[Literal]) -> Literal
        requires operand { length y.now ≡ length x.now }
        requires room { Fits self.old (equal_net x.now y.now high self.old.net).0 }
        ensures wrote { Wrote self.old self.new (equal_net x.now y.now high self.old.net).0 }
        ensures output { result ≡ (equal_net x.now y.now high self.old.net).1 }
    {
        let mut so_far = HIGH;
        for (a, b) in x.iter().zip(y) {
            so_far = self.equal_bit(*a, *b, so_far);
        }
        so_far
    }

    // Whether x has a 1.
    pub fn any(&mut self, x: &[Literal]) -> Literal
        requires { Fits self.old (any_net x.now low self.old.net).0 }
        ensures wrote { Wrote self.old self.new (any_net x.now low self.old.net).0 }
        ensures output { result ≡ (any_net x.now low self.old.net).1 }
    {
        let mut so_far = LOW;
        for bit in x {
            so_far = self.or(so_far, *bit);
        }
        so_far
    }
}
