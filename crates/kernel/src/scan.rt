// A look at every given clause: whether the values make one false, and whether they leave a literal
// open. A solver ends with it, so that its answer rests on the given clauses alone, whatever
// propagation may have missed.
ghost use Rattle.std.specs.Prelude.{MatchBool, MatchOption};
ghost use Rattle.kernel.specs.Trail.{Clash, Free, Own};
ghost use Rattle.kernel.specs.Scan.{Clear, Full};

use crate::trail::Trail;
use clauses::Literal;

impl Trail<'_> {
    // Whether some clause has only false literals.
    pub fn clashes(&self) -> bool
        ensures clash { MatchBool result (Clash self.now.clauses self.now.values) (Clear self.now.clauses self.now.values) }
        ensures own { Own self.now.values }
    {
        let mut alive = false;
        for x in self.clauses {
            if *x == 0 {
                if !alive {
                    return true;
                }
                alive = false;
            } else if !self.is_false(Literal(*x)) {
                alive = true;
            }
        }
        false
    }

    // A literal of the clauses whose variable is not set.
    pub fn free_literal(&self) -> Option<Literal>
        ensures { MatchOption result (Full self.now.clauses self.now.values) (λ x. Free self.now.values x.0) }
    {
        // by `find`, tried, the closure would have to know that values has a place for x
        for code in self.clauses {
            let x = Literal(*code);
            if x.0 >= 2 && self.values[x.variable().index()] == 0 {
                return Some(x);
            }
        }
        None
    }
}
