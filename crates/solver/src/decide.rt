// What to decide next: the most active variable that is free, set as it was last.
ghost use Rattle.std.specs.Prelude.{◌≡◌, IfSome};
ghost use Rattle.kernel.specs.Trail.{Free};

use clauses::Literal;
use learning::Search;

// A literal that is free, if one comes from the order.
pub(crate) fn pick(search: &mut Search) -> Option<Literal>
    ensures trail { search.new.trail ≡ search.old.trail }
    ensures free { IfSome result (λ x. Free search.new.trail.values x.0) }
{
    // the bound is there so that the search is seen to end: the order gives a variable once
    for _turn in 0..search.trail.values().len() {
        let v = search.guide.order.pop()?;
        let x = search.guide.phases.literal(v);
        if search.trail.is_free(x) {
            return Some(x);
        }
    }
    None
}
