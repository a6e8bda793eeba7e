// Conflict analysis, as its own proof. Variables are marked, and no model makes the values of all
// marked variables true. A clause that is false begins it; resolving with the reason of a marked
// literal keeps it, if the reason's other literals are false; a literal that every model makes true
// may leave it. A clause of the negations of all that is marked then follows, and may be stored. What
// is to be resolved, and when to stop, is for the caller to choose: where a check fails, nothing was
// learned, and no harm is done.
ghost use Rattle.std.specs.Prelude.{◌≡◌, ◌≢◌, ℕ, ◌/◌, ◌<◌, ◌↔◌, false, T, length, IfSome, IsTrue, slice_index, slice_set};
ghost use Rattle.kernel.specs.Arena.{Follows};
ghost use Rattle.kernel.specs.Resolve.{Blamed, Counts, Covered, Due};
ghost use Rattle.kernel.specs.Trail.{NoDecision};

use crate::arena::HEADER;
use crate::trail::{Trail, is_false};
use clauses::{Literal, Variable};
use std::marker::Model;

// The memory is lent words, so a mark is a word that is not 0, and how many there are is counted beside them.
#[derive(Drop)]
pub struct Marks<'a> {
    seen: &'a mut [u32],
    count: usize,
}

impl<'a> Model for Marks<'a> {
    ghost use Rattle.std.specs.Prelude.{ℕ, List};
    ghost use Rattle.kernel.specs.Resolve.{Counts};

    ghost Value = { List ℕ };

    ghost view = { λ m. m.seen.now };

    ghost invariant = { λ m. Counts m.seen.now m.count };
}

// Whether a variable's place on the trail is `from` or after it, by what a hint says.
fn stands_from(places: &[u32], h: usize, from: usize) -> bool {
    places.get(h).is_some_and(|place| *place as usize >= from)
}

// Whether y is a literal of the variable of `resolved`, if that is there.
fn shares_variable(resolved: Option<Literal>, y: Literal) -> bool
    ensures { result ≡ false → IfSome resolved (λ x. y.0 / 2 ≢ x.0 / 2) }
{
    resolved.is_some_and(|x| x.variable() == y.variable())
}

impl<'a> Marks<'a> {
    // No variable is marked.
    pub fn new(seen: &'a mut [u32]) -> Marks<'a>
        ensures long { length result ≡ length seen.old }
        ensures clean { (k : ℕ) → k < length result → slice_index result k ≡ 0 }
    {
        seen.fill(0);
        Marks { seen, count: 0 }
    }
}

impl Marks<'_> {
    // Takes all marks away.
    pub fn clear(&mut self)
        ensures long { length self.new ≡ length self.old }
        ensures clean { (k : ℕ) → k < length self.new → slice_index self.new k ≡ 0 }
    {
        if self.count > 0 {
            self.seen.fill(0);
            self.count = 0;
        }
    }

    // How many variables are marked.
    pub fn len(&self) -> usize
        ensures { Counts self.now result }
    {
        self.count
    }

    // Whether a variable is marked.
    pub fn contains(&self, v: Variable) -> bool
        ensures { IsTrue result ↔ (slice_index self.now v.0 ≢ 0) }
    {
        self.seen.get(v.index()).is_some_and(|mark| *mark != 0)
    }

    // Marks the variables of a clause in the place of `resolved`, a marked value that the clause has;
    // or, where there is none, the variables of a clause that is false. None where another literal is
    // not false: the marks are then of no use, and are to be cleared. Else how many it marked that
    // stand on the trail at `from` or after it: `places` and `from` are hints, for the first unique
    // implication point.
    pub fn absorb(
        &mut self,
        trail: &Trail,
        literals: &[u32],
        resolved: Option<Literal>,
        places: &[u32],
        from: usize,
    ) -> Option<usize>
        requires long { length self.old ≡ length trail.now.values }
        requires clause { Follows trail.now.clauses (length trail.now.values) literals.now }
        requires due { IfSome resolved (λ x. Due trail.now.clauses trail.now.values self.old x.0) }
        ensures long { length self.new ≡ length self.old }
        ensures blamed { IfSome result (λ _. Blamed trail.now.clauses trail.now.values self.new) }
    {
        let values = trail.values();
        let mut current = 0;
        for code in literals {
            let y = Literal(*code);
            if resolved != Some(y) {
                if !is_false(values, y) || shares_variable(resolved, y) {
                    return None;
                }
                let h = y.variable().index();
                if self.seen[h] == 0 {
                    self.seen[h] = 1;
                    self.count += 1;
                    current += usize::from(stands_from(places, h, from));
                }
            }
        }
        if let Some(x) = resolved {
            self.seen[x.variable().index()] = 0;
            self.count -= 1;
        }
        Some(current)
    }

    // Clears the mark of the literal at place p of the trail, which stands before the first decision:
    // every model makes it true, so the others alone are to blame.
    pub fn drop_level_zero(&mut self, trail: &Trail, first: usize, p: usize)
        requires first { NoDecision trail.now.kinds first }
        requires place { p < first }
        requires blamed { Blamed trail.now.clauses trail.now.values self.old }
        ensures blamed { Blamed trail.now.clauses trail.now.values self.new }
        ensures cleared { self.new ≡ slice_set self.old (slice_index trail.now.literals p / 2) 0 }
    {
        let h = trail.literal(p).variable().index();
        if self.seen[h] != 0 {
            self.seen[h] = 0;
            self.count -= 1;
        }
    }

    // Whether the literals are false and take in all that is marked: the marks are then gone, and the
    // literals are a clause that follows.
    pub fn cover(&mut self, trail: &Trail, literals: &[u32]) -> bool
        requires { Blamed trail.now.clauses trail.now.values self.old }
        ensures long { length self.new ≡ length self.old }
        ensures covered { T result → Covered trail.now.clauses trail.now.values self.new literals.now }
    {
        let values = trail.values();
        for code in literals {
            let y = Literal(*code);
            let h = y.variable().index();
            if y.0 < 2 || y.0 >= HEADER || h >= values.len() || !is_false(values, y) {
                return false;
            }
            if self.seen[h] != 0 {
                self.seen[h] = 0;
                self.count -= 1;
            }
        }
        self.count == 0
    }
}
