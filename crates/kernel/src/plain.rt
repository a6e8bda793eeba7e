// Plain solving: decide, look at every clause, turn the last decision. It learns nothing and
// needs no memory beside the trail, so it is the way out where the clauses are too large for the
// arena's words.
ghost use Rattle.std.specs.Prelude.{◌≡◌, length};
ghost use Rattle.kernel.specs.Scan.{Found};

use crate::trail::Trail;
use clauses::Answer;

// Whether some assignment meets the clauses: the values then are one.
pub fn search_plain(trail: &mut Trail) -> Answer
    ensures clauses { trail.new.clauses ≡ trail.old.clauses }
    ensures long { length trail.new.values ≡ length trail.old.values }
    ensures answer { Found trail.new result }
{
    'turns: loop {
        if trail.clashes() {
            if !trail.flip() {
                return Answer::Never;
            }
        } else {
            let Some(x) = trail.free_literal() else {
                return Answer::Met;
            };
            trail.decide(x);
        }
    }
}
