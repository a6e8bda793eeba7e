// Propagation: what the literals on the trail force.
//
// When a literal becomes false, every clause in which it stands is looked at: one that has a single
// literal left that is not false forces it, and one that has none is a conflict. The promise speaks
// of the trail and the clauses alone: the trail grows by implied literals, and a reported conflict
// means that no model agrees with the values. That nothing was missed is no part of it, since the
// search looks at every given clause before it says that they are met.
ghost use Rattle.std.specs.Prelude.{◌≡◌, length, IfErr};
ghost use Rattle.kernel.specs.Trail.{Clash, Went};

use crate::search::Search;
use clauses::Literal;
use kernel::Look;

// The place of a clause that is false.
#[derive(Clone, Copy, PartialEq, Eq, Debug)]
pub struct Conflict(pub usize);

impl Search<'_> {
    // Looks at the clause at c, if there is one, and sets the literal that it forces.
    pub(crate) fn visit(&mut self, c: usize) -> Result<(), Conflict>
        ensures went { Went self.old.trail self.new.trail }
        ensures arena { self.new.arena ≡ self.old.arena }
        ensures marks { self.new.marks ≡ self.old.marks }
        ensures conflict { IfErr result (λ _. Clash self.new.trail.clauses self.new.trail.values) }
    {
        let Some(literals) = self.arena.clause(c) else {
            return Ok(());
        };
        match self.trail.examine(literals) {
            Look::Open => Ok(()),
            Look::Unit(x) => {
                self.guide.phases.note_place(x, self.trail.len());
                self.trail.imply(x, c);
                Ok(())
            }
            Look::Conflict => Err(Conflict(c)),
        }
    }

    // Looks at the clauses in which y stands, which has become false.
    fn visit_occurrences(&mut self, y: Literal) -> Result<(), Conflict>
        ensures went { Went self.old.trail self.new.trail }
        ensures low { self.new.arena.low ≡ self.old.arena.low }
        ensures long { length self.new.arena.words ≡ length self.old.arena.words }
        ensures marks { self.new.marks ≡ self.old.marks }
        ensures conflict { IfErr result (λ _. Clash self.new.trail.clauses self.new.trail.values) }
    {
        let mut next = self.guide.lists.first(y);
        // a list has no more places than the arena has words
        for _turn in 0..self.arena.len() {
            let Some(place) = next else {
                break;
            };
            let c = self.guide.lists.clause(place);
            self.visit(c)?;
            next = self.guide.lists.after(place);
        }
        Ok(())
    }

    // Follows what the literals force that were not propagated yet.
    pub fn propagate(&mut self) -> Result<(), Conflict>
        ensures went { Went self.old.trail self.new.trail }
        ensures low { self.new.arena.low ≡ self.old.arena.low }
        ensures long { length self.new.arena.words ≡ length self.old.arena.words }
        ensures marks { self.new.marks ≡ self.old.marks }
        ensures conflict { IfErr result (λ _. Clash self.new.trail.clauses self.new.trail.values) }
    {
        let mut place = self.guide.propagated;
        // the trail grows while it is followed, so that no range gives the places
        while place < self.trail.len() {
            let y = self.trail.literal(place).negated();
            place += 1;
            self.guide.propagated = place;
            self.visit_occurrences(y)?;
        }
        Ok(())
    }

    // Looks at every clause once, for those that force a literal with nothing set.
    pub fn settle(&mut self) -> Result<(), Conflict>
        ensures went { Went self.old.trail self.new.trail }
        ensures arena { self.new.arena ≡ self.old.arena }
        ensures marks { self.new.marks ≡ self.old.marks }
        ensures conflict { IfErr result (λ _. Clash self.new.trail.clauses self.new.trail.values) }
    {
        // a header may stand at any place, and `visit` changes the search
        for c in 0..self.arena.len() {
            self.visit(c)?;
        }
        Ok(())
    }
}
