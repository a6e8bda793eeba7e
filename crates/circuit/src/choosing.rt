// Words bit by bit: a gate for each place.
ghost use Rattle.std.specs.Prelude.{◌≡◌, length};
ghost use Rattle.circuit.specs.Circuits.{bit_net, bitwise_net, choose_net, ite_net};
ghost use Rattle.circuit.specs.Built.{Fits, Wrote};

use crate::builder::Builder;
use crate::gates::Bitwise;
use clauses::Literal;

// A word is written by its place: a proof knows nothing of what is written through a zip.
impl Builder<'_> {
    // The gate of one place. It is data and no closure, since the definitions of nets speak of it by name.
    fn bit(&mut self, op: Bitwise, a: Literal, b: Literal) -> Literal
        requires { Fits self.old (bit_net op a b self.old.net).0 }
        ensures wrote { Wrote self.old self.new (bit_net op a b self.old.net).0 }
        ensures output { result ≡ (bit_net op a b self.old.net).1 }
    {
        match op {
            Bitwise::Conjunction => self.and(a, b),
            Bitwise::Disjunction => self.or(a, b),
            Bitwise::Exclusive => self.xor(a, b),
        }
    }

    // The gate at each place of x and y.
    pub fn bitwise(&mut self, op: Bitwise, x: &[Literal], y: &[Literal], out: &mut [Literal])
        requires operand { length y.now ≡ length x.now }
        requires word { length out.old ≡ length x.now }
        requires room { Fits self.old (bitwise_net op x.now y.now self.old.net).0 }
        ensures wrote { Wrote self.old self.new (bitwise_net op x.now y.now self.old.net).0 }
        ensures result { out.new ≡ (bitwise_net op x.now y.now self.old.net).1 }
    {
        for (i, (a, b)) in x.iter().zip(y).enumerate() {
            out[i] = self.bit(op, *a, *b);
        }
    }

    // x if s, else y.
    pub fn choose(&mut self, s: Literal, x: &[Literal], y: &[Literal], out: &mut [Literal])
        requires operand { length y.now ≡ length x.now }
        requires word { length out.old ≡ length x.now }
        requires room { Fits self.old (choose_net s x.now y.now self.old.net).0 }
        ensures wrote { Wrote self.old self.new (choose_net s x.now y.now self.old.net).0 }
        ensures result { out.new ≡ (choose_net s x.now y.now self.old.net).1 }
    {
        for (i, (a, b)) in x.iter().zip(y).enumerate() {
            out[i] = self.choice(s, *a, *b);
        }
    }

    // x if t has a 1, else y.
    pub fn ite(&mut self, t: &[Literal], x: &[Literal], y: &[Literal], out: &mut [Literal])
        requires operand { length y.now ≡ length x.now }
        requires word { length out.old ≡ length x.now }
        requires room { Fits self.old (ite_net t.now x.now y.now self.old.net).0 }
        ensures wrote { Wrote self.old self.new (ite_net t.now x.now y.now self.old.net).0 }
        ensures result { out.new ≡ (ite_net t.now x.now y.now self.old.net).1 }
    {
        let test = self.any(t);
        self.choose(test, x, y, out);
    }
}
