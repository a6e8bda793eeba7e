// The clauses so far, in lent memory, and the next variable.
//
// A clause is its literals' codes and then a 0. A builder only writes behind what it has written, so
// the clauses of a circuit stand in the order in which the circuit makes them.
ghost use Rattle.std.specs.Prelude.{◌≡◌, ◌≤◌, [], ◌∷◌, length, map, take};
ghost use Rattle.circuit.specs.Nets.{said, said_all, fresh, taken, free};
ghost use Rattle.circuit.specs.Parts.{appended};
ghost use Rattle.circuit.specs.Built.{Written, Fits, Wrote};

use clauses::Literal;
use std::marker::Model;

#[derive(Drop)]
pub struct Builder<'a> {
    // the memory is lent, as no library here has a heap
    numbers: &'a mut [u32],
    end: usize,
    next: u32,
}

impl<'a> Model for Builder<'a> {
    ghost Value = { Written };

    ghost view = { λ b. record { net = record { next = b.next; out = take b.end b.numbers.now }; room = length b.numbers.now } };

    ghost invariant = { λ b. b.end ≤ length b.numbers.now };
}

// The literals of variable 0, which is true in each net.
pub const HIGH: Literal = Literal(2);

pub const LOW: Literal = Literal(3);

impl<'a> Builder<'a> {
    // No clause yet, and the new variables from next on.
    pub fn new(numbers: &'a mut [u32], next: u32) -> Builder<'a>
        ensures { result ≡ record { net = record { next = next; out = [] }; room = length numbers.old } }
    {
        Builder {
            numbers,
            end: 0,
            next,
        }
    }

    // How many numbers are written.
    pub fn length(&self) -> usize
        ensures { result ≡ length self.now.net.out }
    {
        self.end
    }

    // The clauses that are written.
    pub fn written(&self) -> &[u32]
        ensures { result.now ≡ self.now.net.out }
    {
        &self.numbers[..self.end]
    }

    // The next variable.
    pub fn next(&self) -> u32
        ensures { result ≡ self.now.net.next }
    {
        self.next
    }

    // Writes one number behind the others.
    fn push(&mut self, number: u32)
        requires { Fits self.old (appended (number ∷ []) self.old.net) }
        ensures { Wrote self.old self.new (appended (number ∷ []) self.old.net) }
    {
        self.numbers[self.end] = number;
        self.end += 1;
    }

    // The clause of some literals.
    pub fn clause(&mut self, literals: &[Literal])
        requires { Fits self.old (said literals.now self.old.net) }
        ensures { Wrote self.old self.new (said literals.now self.old.net) }
    {
        for literal in literals {
            self.push(literal.0);
        }
        self.push(0);
    }

    // Some clauses, one after the other.
    pub(crate) fn clauses(&mut self, rows: &[&[Literal]])
        requires { Fits self.old (said_all (map (λ r. r.now) rows.now) self.old.net) }
        ensures { Wrote self.old self.new (said_all (map (λ r. r.now) rows.now) self.old.net) }
    {
        for row in rows {
            self.clause(row);
        }
    }

    // The literal of a new variable.
    pub fn fresh(&mut self) -> Literal
        requires { Fits self.old (taken self.old.net) }
        ensures wrote { Wrote self.old self.new (taken self.old.net) }
        ensures literal { result ≡ fresh self.old.net }
    {
        let literal = Literal(2 * self.next + 2);
        self.next += 1;
        literal
    }

    // So many new variables that no clause is about yet.
    pub fn skip(&mut self, count: u32)
        requires { Fits self.old (free count self.old.net) }
        ensures { Wrote self.old self.new (free count self.old.net) }
    {
        self.next += count;
    }
}
