// Starting over: the decisions are withdrawn, and what was learned stays.
ghost use Rattle.std.specs.Prelude.{◌≡◌, length};

use learning::Search;

// Frees all from the first decision on.
pub(crate) fn withdraw(search: &mut Search)
    ensures clauses { search.new.trail.clauses ≡ search.old.trail.clauses }
    ensures long { length search.new.trail.values ≡ length search.old.trail.values }
{
    let keep = search.trail.first_decision();
    search.go_back(keep);
}
