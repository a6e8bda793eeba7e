// The operations on words, each as the circuit that does it.
ghost use Rattle.std.specs.Prelude.{◌≡◌, ◌≤◌, length};
ghost use Rattle.words.specs.declared.BinaryOp.TheVariants.{Mul};
ghost use Rattle.circuit.specs.Bits.{flag, top_of};
ghost use Rattle.circuit.specs.Nets.{low};
ghost use Rattle.circuit.specs.Circuits.{inverted, product_net, unary_net, binary_net};
ghost use Rattle.circuit.specs.Built.{Fits, Wrote};

use crate::builder::{Builder, HIGH, LOW};
use crate::gates::Bitwise;
use crate::shifting::Direction;
use clauses::Literal;
use words::{BinaryOp, UnaryOp};

// Writes each literal of x negated.
fn invert(x: &[Literal], out: &mut [Literal])
    requires { length out.old ≡ length x.now }
    ensures { out.new ≡ inverted x.now }
{
    for (i, bit) in x.iter().enumerate() {
        out[i] = bit.negated();
    }
}

// Each literal of x negated, as a word of its own.
pub fn inverted<const WIDTH: usize>(x: &[Literal; WIDTH]) -> [Literal; WIDTH]
    ensures { result ≡ inverted x.now }
{
    let mut word = [LOW; WIDTH];
    invert(x, &mut word);
    word
}

// Writes a word whose lowest bit is this one, and the others 0.
fn write_flag(bit: Literal, out: &mut [Literal])
    ensures { out.new ≡ flag low bit out.old }
{
    out.fill(LOW);
    if out.len() > 0 {
        out[0] = bit;
    }
}

// The top bit, or 0 of a word that has none.
fn top_bit(x: &[Literal]) -> Literal
    ensures { result ≡ top_of low x.now }
{
    x.last().copied().unwrap_or(LOW)
}

impl Builder<'_> {
    // An operation on one word.
    pub fn unary(&mut self, op: UnaryOp, x: &[Literal], out: &mut [Literal])
        requires short { length x.now ≤ 64 }
        requires word { length out.old ≡ length x.now }
        requires room { Fits self.old (unary_net op x.now self.old.net).0 }
        ensures wrote { Wrote self.old self.new (unary_net op x.now self.old.net).0 }
        ensures result { out.new ≡ (unary_net op x.now self.old.net).1 }
    {
        match op {
            UnaryOp::Not => invert(x, out),
            UnaryOp::Neg => {
                let zero = [LOW; 64];
                self.add(&zero[..x.len()], x, true, HIGH, out);
            }
        }
    }

    // An operation on two words; a product's carries are written beside it. A quotient and a remainder
    // have no circuit: 0 stands in their place.
    pub fn binary(
        &mut self,
        op: BinaryOp,
        x: &[Literal],
        y: &[Literal],
        out: &mut [Literal],
        carries: &mut [Literal],
    )
        requires short { length x.now ≤ 64 }
        requires operand { length y.now ≡ length x.now }
        requires word { length out.old ≡ length x.now }
        requires rows { length carries.old ≡ length x.now }
        requires room { Fits self.old (binary_net op x.now y.now self.old.net).0 }
        ensures wrote { Wrote self.old self.new (binary_net op x.now y.now self.old.net).0 }
        ensures result { out.new ≡ (binary_net op x.now y.now self.old.net).1 }
        ensures carries { op ≡ Mul → carries.new ≡ (product_net x.now y.now self.old.net).1.1 }
    {
        match op {
            BinaryOp::Add => {
                self.add(x, y, false, LOW, out);
            }
            BinaryOp::Sub => {
                self.add(x, y, true, HIGH, out);
            }
            BinaryOp::Mul => self.product(x, y, out, carries),
            BinaryOp::Udiv | BinaryOp::Urem => out.fill(LOW),
            BinaryOp::And => self.bitwise(Bitwise::Conjunction, x, y, out),
            BinaryOp::Or => self.bitwise(Bitwise::Disjunction, x, y, out),
            BinaryOp::Xor => self.bitwise(Bitwise::Exclusive, x, y, out),
            BinaryOp::Shl => self.shift(Direction::Left, LOW, x, y, out),
            BinaryOp::Lshr => self.shift(Direction::Right, LOW, x, y, out),
            BinaryOp::Ashr => self.shift(Direction::Right, top_bit(x), x, y, out),
            BinaryOp::Comp => write_flag(self.equal(x, y), out),
            BinaryOp::Ult => write_flag(self.less(x, y), out),
            BinaryOp::Slt => write_flag(self.signed_less(x, y), out),
        }
    }
}
