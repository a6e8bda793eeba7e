// Gates, and what is left of them where an input is a constant or two inputs are alike.
ghost use Rattle.std.specs.Prelude.{◌≡◌};
ghost use Rattle.circuit.specs.Gates.{and_rows, xor_rows, majority_rows, choice_rows, gate};
ghost use Rattle.circuit.specs.Gates.{fold_and, fold_xor, fold_majority, fold_choice, smaller_net, and_net, or_net, xor_net, majority_net, choice_net};
ghost use Rattle.circuit.specs.Built.{Fits, Wrote};

use crate::builder::{Builder, HIGH, LOW};
use clauses::Literal;

// What stands in place of a gate: a literal, or a smaller gate.
#[derive(Clone, Copy)]
pub enum Folded {
    Wire(Literal),
    And(Literal, Literal),
    Or(Literal, Literal),
}

// The gates that work on two words bit by bit.
#[derive(Clone, Copy)]
pub enum Bitwise {
    Conjunction,
    Disjunction,
    Exclusive,
}

// What is left of a conjunction.
fn fold_and(a: Literal, b: Literal) -> Option<Literal>
    ensures { result ≡ fold_and a b }
{
    match (a, b) {
        (LOW, _) | (_, LOW) => Some(LOW),
        (HIGH, _) => Some(b),
        (_, HIGH) => Some(a),
        _ if a == b => Some(a),
        _ if a == b.negated() => Some(LOW),
        _ => None,
    }
}

// What is left of an exclusive disjunction.
fn fold_xor(a: Literal, b: Literal) -> Option<Literal>
    ensures { result ≡ fold_xor a b }
{
    match (a, b) {
        (LOW, _) => Some(b),
        (_, LOW) => Some(a),
        (HIGH, _) => Some(b.negated()),
        (_, HIGH) => Some(a.negated()),
        _ if a == b => Some(LOW),
        _ if a == b.negated() => Some(HIGH),
        _ => None,
    }
}

// What is left of a majority. With one constant input it is a gate of the other two.
fn fold_majority(a: Literal, b: Literal, c: Literal) -> Option<Folded>
    ensures { result ≡ fold_majority a b c }
{
    match (a, b, c) {
        (LOW, _, _) => Some(Folded::And(b, c)),
        (HIGH, _, _) => Some(Folded::Or(b, c)),
        (_, LOW, _) => Some(Folded::And(a, c)),
        (_, HIGH, _) => Some(Folded::Or(a, c)),
        (_, _, LOW) => Some(Folded::And(a, b)),
        (_, _, HIGH) => Some(Folded::Or(a, b)),
        _ if a == b => Some(Folded::Wire(a)),
        _ if a == b.negated() => Some(Folded::Wire(c)),
        _ => None,
    }
}

// What is left of a choice of a if s, else b.
fn fold_choice(s: Literal, a: Literal, b: Literal) -> Option<Folded>
    ensures { result ≡ fold_choice s a b }
{
    match (s, a, b) {
        (HIGH, _, _) => Some(Folded::Wire(a)),
        (LOW, _, _) => Some(Folded::Wire(b)),
        _ if a == b => Some(Folded::Wire(a)),
        (_, HIGH, _) => Some(Folded::Or(s, b)),
        (_, LOW, _) => Some(Folded::And(s.negated(), b)),
        (_, _, HIGH) => Some(Folded::Or(s.negated(), a)),
        (_, _, LOW) => Some(Folded::And(s, a)),
        _ => None,
    }
}

// The four gates differ in how many inputs and rows they have, so that one function would take a list of
// rows of several lengths and say no more.
impl Builder<'_> {
    fn and_gate(&mut self, a: Literal, b: Literal) -> Literal
        requires { Fits self.old (gate (λ o. and_rows o a b) self.old.net).0 }
        ensures wrote { Wrote self.old self.new (gate (λ o. and_rows o a b) self.old.net).0 }
        ensures output { result ≡ (gate (λ o. and_rows o a b) self.old.net).1 }
    {
        let output = self.fresh();
        let off = output.negated();
        let not_a = a.negated();
        let not_b = b.negated();
        self.clauses(&[&[off, a], &[off, b], &[output, not_a, not_b]]);
        output
    }

    fn xor_gate(&mut self, a: Literal, b: Literal) -> Literal
        requires { Fits self.old (gate (λ o. xor_rows o a b) self.old.net).0 }
        ensures wrote { Wrote self.old self.new (gate (λ o. xor_rows o a b) self.old.net).0 }
        ensures output { result ≡ (gate (λ o. xor_rows o a b) self.old.net).1 }
    {
        let output = self.fresh();
        let off = output.negated();
        let not_a = a.negated();
        let not_b = b.negated();
        self.clauses(&[
            &[off, a, b],
            &[off, not_a, not_b],
            &[output, not_a, b],
            &[output, a, not_b],
        ]);
        output
    }

    fn majority_gate(&mut self, a: Literal, b: Literal, c: Literal) -> Literal
        requires { Fits self.old (gate (λ o. majority_rows o a b c) self.old.net).0 }
        ensures wrote { Wrote self.old self.new (gate (λ o. majority_rows o a b c) self.old.net).0 }
        ensures output { result ≡ (gate (λ o. majority_rows o a b c) self.old.net).1 }
    {
        let output = self.fresh();
        let off = output.negated();
        let not_a = a.negated();
        let not_b = b.negated();
        let not_c = c.negated();
        self.clauses(&[
            &[off, a, b],
            &[off, a, c],
            &[off, b, c],
            &[output, not_a, not_b],
            &[output, not_a, not_c],
            &[output, not_b, not_c],
        ]);
        output
    }

    fn choice_gate(&mut self, s: Literal, a: Literal, b: Literal) -> Literal
        requires { Fits self.old (gate (λ o. choice_rows o s a b) self.old.net).0 }
        ensures wrote { Wrote self.old self.new (gate (λ o. choice_rows o s a b) self.old.net).0 }
        ensures output { result ≡ (gate (λ o. choice_rows o s a b) self.old.net).1 }
    {
        let output = self.fresh();
        let off = output.negated();
        let not_s = s.negated();
        let not_a = a.negated();
        let not_b = b.negated();
        self.clauses(&[
            &[not_s, off, a],
            &[not_s, output, not_a],
            &[s, off, b],
            &[s, output, not_b],
        ]);
        output
    }

    // Both a and b.
    pub fn and(&mut self, a: Literal, b: Literal) -> Literal
        requires { Fits self.old (and_net a b self.old.net).0 }
        ensures wrote { Wrote self.old self.new (and_net a b self.old.net).0 }
        ensures output { result ≡ (and_net a b self.old.net).1 }
    {
        match fold_and(a, b) {
            Some(wire) => wire,
            None => self.and_gate(a, b),
        }
    }

    // One of a and b, or both.
    pub fn or(&mut self, a: Literal, b: Literal) -> Literal
        requires { Fits self.old (or_net a b self.old.net).0 }
        ensures wrote { Wrote self.old self.new (or_net a b self.old.net).0 }
        ensures output { result ≡ (or_net a b self.old.net).1 }
    {
        let not_a = a.negated();
        let not_b = b.negated();
        let none = self.and(not_a, not_b);
        none.negated()
    }

    // Exactly one of a and b.
    pub fn xor(&mut self, a: Literal, b: Literal) -> Literal
        requires { Fits self.old (xor_net a b self.old.net).0 }
        ensures wrote { Wrote self.old self.new (xor_net a b self.old.net).0 }
        ensures output { result ≡ (xor_net a b self.old.net).1 }
    {
        match fold_xor(a, b) {
            Some(wire) => wire,
            None => self.xor_gate(a, b),
        }
    }

    // The literal or the smaller gate that stands in place of a gate.
    fn smaller(&mut self, folded: Folded) -> Literal
        requires { Fits self.old (smaller_net folded self.old.net).0 }
        ensures wrote { Wrote self.old self.new (smaller_net folded self.old.net).0 }
        ensures output { result ≡ (smaller_net folded self.old.net).1 }
    {
        match folded {
            Folded::Wire(wire) => wire,
            Folded::And(x, y) => self.and(x, y),
            Folded::Or(x, y) => self.or(x, y),
        }
    }

    // At least two of a, b and c.
    pub fn majority(&mut self, a: Literal, b: Literal, c: Literal) -> Literal
        requires { Fits self.old (majority_net a b c self.old.net).0 }
        ensures wrote { Wrote self.old self.new (majority_net a b c self.old.net).0 }
        ensures output { result ≡ (majority_net a b c self.old.net).1 }
    {
        match fold_majority(a, b, c) {
            Some(folded) => self.smaller(folded),
            None => self.majority_gate(a, b, c),
        }
    }

    // a if s, else b.
    pub fn choice(&mut self, s: Literal, a: Literal, b: Literal) -> Literal
        requires { Fits self.old (choice_net s a b self.old.net).0 }
        ensures wrote { Wrote self.old self.new (choice_net s a b self.old.net).0 }
        ensures output { result ≡ (choice_net s a b self.old.net).1 }
    {
        match fold_choice(s, a, b) {
            Some(folded) => self.smaller(folded),
            None => self.choice_gate(s, a, b),
        }
    }
}
