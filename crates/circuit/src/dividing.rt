// Division by clauses: a quotient and a remainder are words of free variables, and the clauses leave them
// exactly one pair of values.
ghost use Rattle.std.specs.Prelude.{◌≡◌, ◌≤◌, length};
ghost use Rattle.circuit.specs.Circuits.{denied_net, none_net, apart_net, equated_net, unless_net, divides_net};
ghost use Rattle.circuit.specs.Parts.{sums_net, bounded_net};
ghost use Rattle.circuit.specs.Built.{Fits, Wrote};

use crate::builder::{Builder, LOW};
use clauses::Literal;

// Each kind of clause has a loop of its own: one loop would take the clause as a closure, of which the
// definition of its net would have to speak.
impl Builder<'_> {
    // x has no 1.
    fn deny(&mut self, x: &[Literal])
        requires { Fits self.old (denied_net x.now self.old.net) }
        ensures { Wrote self.old self.new (denied_net x.now self.old.net) }
    {
        for bit in x {
            self.clause(&[bit.negated()]);
        }
    }

    // No bit of x is 1 together with b.
    fn exclude(&mut self, b: Literal, x: &[Literal])
        requires { Fits self.old (none_net b x.now self.old.net) }
        ensures { Wrote self.old self.new (none_net b x.now self.old.net) }
    {
        for bit in x {
            self.clause(&[bit.negated(), b.negated()]);
        }
    }

    // No bits of x and y meet at a place that their product's word doesn't have.
    fn separate(&mut self, x: &[Literal], y: &[Literal])
        requires operand { length y.now ≡ length x.now }
        requires room { Fits self.old (apart_net x.now y.now self.old.net) }
        ensures { Wrote self.old self.new (apart_net x.now y.now self.old.net) }
    {
        for (i, bit) in y.iter().rev().enumerate() {
            self.exclude(*bit, &x[i + 1..]);
        }
    }

    // x and y are equal.
    fn equate(&mut self, x: &[Literal], y: &[Literal])
        requires operand { length y.now ≡ length x.now }
        requires room { Fits self.old (equated_net x.now y.now self.old.net) }
        ensures { Wrote self.old self.new (equated_net x.now y.now self.old.net) }
    {
        for (a, b) in x.iter().zip(y) {
            self.clause(&[a.negated(), *b]);
            self.clause(&[*a, b.negated()]);
        }
    }

    // The bits of x are all 1, unless a.
    fn unless(&mut self, a: Literal, x: &[Literal])
        requires { Fits self.old (unless_net a x.now self.old.net) }
        ensures { Wrote self.old self.new (unless_net a x.now self.old.net) }
    {
        for bit in x {
            self.clause(&[a, *bit]);
        }
    }

    // The product and the remainder have the sum x, with nothing carried out.
    fn sums(&mut self, product: &[Literal], remainder: &[Literal], x: &[Literal])
        requires short { length x.now ≤ 64 }
        requires product { length product.now ≡ length x.now }
        requires remainder { length remainder.now ≡ length x.now }
        requires room { Fits self.old (sums_net product.now remainder.now x.now self.old.net) }
        ensures { Wrote self.old self.new (sums_net product.now remainder.now x.now self.old.net) }
    {
        let mut buffer = [LOW; 64];
        let over = self.add(product, remainder, false, LOW, &mut buffer[..x.len()]);
        self.clause(&[over.negated()]);
        self.equate(&buffer[..x.len()], x);
    }

    // The remainder is below y, or y is 0 and the quotient all ones.
    fn bounds(&mut self, remainder: &[Literal], y: &[Literal], quotient: &[Literal])
        requires operand { length y.now ≡ length remainder.now }
        requires room { Fits self.old (bounded_net remainder.now y.now quotient.now self.old.net) }
        ensures { Wrote self.old self.new (bounded_net remainder.now y.now quotient.now self.old.net) }
    {
        let less = self.less(remainder, y);
        let some = self.any(y);
        self.clause(&[some.negated(), less]);
        self.unless(some, quotient);
    }

    // x divided by y has this quotient and this remainder, where the product is that of y and the
    // quotient, and the carries are those out of its rows.
    pub fn divides(
        &mut self,
        x: &[Literal],
        y: &[Literal],
        quotient: &[Literal],
        remainder: &[Literal],
        product: &[Literal],
        carries: &[Literal],
    )
        requires short { length x.now ≤ 64 }
        requires operand { length y.now ≡ length x.now }
        requires quotient { length quotient.now ≡ length x.now }
        requires remainder { length remainder.now ≡ length x.now }
        requires product { length product.now ≡ length x.now }
        requires room { Fits self.old (divides_net x.now y.now quotient.now remainder.now product.now carries.now self.old.net) }
        ensures { Wrote self.old self.new (divides_net x.now y.now quotient.now remainder.now product.now carries.now self.old.net) }
    {
        self.deny(carries);
        self.separate(y, quotient);
        self.sums(product, remainder, x);
        self.bounds(remainder, y, quotient);
    }
}
