// Products of words, by rows from the highest bit of the first factor down. A row is the second factor if
// its bit is 1, and to it is added what the rows above give.
ghost use Rattle.std.specs.Prelude.{◌≡◌, ◌<◌, length, drop};
ghost use Rattle.circuit.specs.Nets.{low};
ghost use Rattle.circuit.specs.Circuits.{row_net, product_net};
ghost use Rattle.circuit.specs.Parts.{row_bit_net, product_row_net};
ghost use Rattle.circuit.specs.Built.{Fits, Wrote};

use crate::adding::Sum;
use crate::builder::{Builder, LOW};
use clauses::Literal;

impl Builder<'_> {
    // The sum of a bit of the rows above, a carry, and y if x.
    fn row_bit(&mut self, x: Literal, y: Literal, above: Literal, carry: Literal) -> Sum
        requires { Fits self.old (row_bit_net x y above carry self.old.net).0 }
        ensures wrote { Wrote self.old self.new (row_bit_net x y above carry self.old.net).0 }
        ensures bit { result.bit ≡ (row_bit_net x y above carry self.old.net).1.0 }
        ensures over { result.carry ≡ (row_bit_net x y above carry self.old.net).1.1 }
    {
        let both = self.and(x, y);
        self.full(both, above, carry)
    }

    // Adds y, if x, to the word, and gives what is carried out.
    fn row(&mut self, x: Literal, y: &[Literal], word: &mut [Literal]) -> Literal
        requires operand { length word.old ≡ length y.now }
        requires room { Fits self.old (row_net x y.now word.old low self.old.net).0 }
        ensures wrote { Wrote self.old self.new (row_net x y.now word.old low self.old.net).0 }
        ensures sum { word.new ≡ (row_net x y.now word.old low self.old.net).1.0 }
        ensures over { result ≡ (row_net x y.now word.old low self.old.net).1.1 }
    {
        let mut over = LOW;
        // by places, since a proof knows nothing of what is written through a zip with `iter_mut`
        for (i, bit) in y.iter().enumerate() {
            let sum = self.row_bit(x, *bit, word[i], over);
            word[i] = sum.bit;
            over = sum.carry;
        }
        over
    }

    // One row: the word's bits but the lowest are what the rows above give.
    fn product_row(&mut self, x: Literal, y: &[Literal], word: &mut [Literal]) -> Literal
        requires some { 0 < length y.now }
        requires operand { length word.old ≡ length y.now }
        requires room { Fits self.old (product_row_net x y.now (drop 1 word.old) self.old.net).0 }
        ensures wrote { Wrote self.old self.new (product_row_net x y.now (drop 1 word.old) self.old.net).0 }
        ensures sum { word.new ≡ (product_row_net x y.now (drop 1 word.old) self.old.net).1.0 }
        ensures over { result ≡ (product_row_net x y.now (drop 1 word.old) self.old.net).1.1 }
    {
        let lowest = self.and(x, y[0]);
        let end = y.len();
        let over = self.row(x, &y[1..end], &mut word[1..end]);
        word[0] = lowest;
        over
    }

    // The product's word, and the carries out of its rows.
    pub fn product(
        &mut self,
        x: &[Literal],
        y: &[Literal],
        out: &mut [Literal],
        carries: &mut [Literal],
    )
        requires operand { length y.now ≡ length x.now }
        requires word { length out.old ≡ length x.now }
        requires rows { length carries.old ≡ length x.now }
        requires room { Fits self.old (product_net x.now y.now self.old.net).0 }
        ensures wrote { Wrote self.old self.new (product_net x.now y.now self.old.net).0 }
        ensures result { out.new ≡ (product_net x.now y.now self.old.net).1.0 }
        ensures carries { carries.new ≡ (product_net x.now y.now self.old.net).1.1 }
    {
        let width = x.len();
        // by the place and not by x's bits, since the place cuts both other words
        for i in (0..width).rev() {
            carries[i] = self.product_row(x[i], &y[0..width - i], &mut out[i..width]);
        }
    }
}
