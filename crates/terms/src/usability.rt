// Whether a rule may be used, whether or not it holds.
ghost use Rattle.std.specs.Prelude.{◌≡◌, true, Decides};
ghost use Rattle.terms.specs.Accepted.{Accepted};
ghost use Rattle.terms.specs.Limits.{ok_rule};
ghost use Rattle.terms.specs.Represents.{Represents};
ghost use Rattle.terms.specs.Terms.{Rule, weight};
ghost use Rattle.terms.specs.Usable.{Usable};

use super::RuleNodes;
use super::measure::RuleMeasure;

// A rule that weighs more is too heavy to be judged.
const LIMIT: u64 = 200000;

// The weight of deciding a rule.
pub fn weight(rule: &RuleNodes) -> u64
    ensures { (r : Rule) → Represents rule.now r → ok_rule r ≡ true → result ≡ weight r }
{
    RuleMeasure::of(rule).weight()
}

// The second side has fewer operations, each name of it and of the needed terms stands on the first
// side, the needed terms have no name any, and the rule is not too heavy.
fn accepted(measure: RuleMeasure) -> bool
    ensures { Decides result (Accepted measure) }
{
    let RuleMeasure { needs, from, to } = measure;
    to.operations < from.operations
        && from.anys | to.anys == from.anys
        && from.cons | (to.cons | needs.cons) == from.cons
        && needs.anys == 0
        && measure.weight() <= LIMIT
}

// Whether a rule may be used to rewrite a listing, whether or not it holds.
pub fn usable(rule: &RuleNodes) -> bool
    ensures { (r : Rule) → Represents rule.now r → ok_rule r ≡ true → Decides result (Usable r) }
{
    accepted(RuleMeasure::of(rule))
}
