// Sums of words by a ripple of carries.
ghost use Rattle.std.specs.Prelude.{◌≡◌, length, if◌then◌else◌};
ghost use Rattle.clauses.specs.Literals.{negated};
ghost use Rattle.circuit.specs.Circuits.{turned, full_net, add_net};
ghost use Rattle.circuit.specs.Built.{Fits, Wrote};

use crate::builder::Builder;
use clauses::Literal;

// The sum of three bits.
#[derive(Clone, Copy)]
pub struct Sum {
    pub bit: Literal,
    pub carry: Literal,
}

// The literal, negated if asked.
fn turn(literal: Literal, invert: bool) -> Literal
    ensures { result ≡ (if invert then negated literal else literal) }
{
    if invert { literal.negated() } else { literal }
}

impl Builder<'_> {
    // A full adder.
    pub fn full(&mut self, x: Literal, y: Literal, carry: Literal) -> Sum
        requires { Fits self.old (full_net x y carry self.old.net).0 }
        ensures wrote { Wrote self.old self.new (full_net x y carry self.old.net).0 }
        ensures bit { result.bit ≡ (full_net x y carry self.old.net).1.0 }
        ensures over { result.carry ≡ (full_net x y carry self.old.net).1.1 }
    {
        let half = self.xor(x, y);
        let bit = self.xor(half, carry);
        let over = self.majority(x, y, carry);
        Sum { bit, carry: over }
    }

    // x + y and what is carried in, or x - y if y is inverted and 1 is carried in. Gives what is carried out.
    pub fn add(
        &mut self,
        x: &[Literal],
        y: &[Literal],
        invert: bool,
        carry: Literal,
        out: &mut [Literal],
    ) -> Literal
        requires operand { length y.now ≡ length x.now }
        requires word { length out.old ≡ length x.now }
        requires room { Fits self.old (add_net x.now (turned invert y.now) carry self.old.net).0 }
        ensures wrote { Wrote self.old self.new (add_net x.now (turned invert y.now) carry self.old.net).0 }
        ensures sum { out.new ≡ (add_net x.now (turned invert y.now) carry self.old.net).1.0 }
        ensures over { result ≡ (add_net x.now (turned invert y.now) carry self.old.net).1.1 }
    {
        let mut over = carry;
        // written by its place: a proof knows nothing of what is written through a zip
        for (i, (a, b)) in x.iter().zip(y).enumerate() {
            let other = turn(*b, invert);
            let bits = self.full(*a, other, over);
            out[i] = bits.bit;
            over = bits.carry;
        }
        over
    }
}
