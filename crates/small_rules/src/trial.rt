// Deciding a rule by trying all values of its names.
ghost use Rattle.std.specs.Prelude.{◌≡◌, slice_index};
ghost use Rattle.words.specs.Words.{bits};
ghost use Rattle.terms.specs.Represents.{Represents};
ghost use Rattle.terms.specs.Terms.{Rule, Within};
ghost use Rattle.small_rules.specs.Odometer.{Turned, Advanced};
ghost use Rattle.small_rules.specs.Verdicts.{Right};

use crate::names::Names;
use terms::{Assignment, RuleNodes, fails_at_with_room};
use words::Width;

// What trying says of a rule: that no values make it fail, or the first values of its names that do,
// or that there were too many values to try.
#[derive(Clone, Copy)]
pub(crate) enum Verdict {
    Holds,
    Fails(Assignment),
    Untried,
}

// Goes on to the next values of the names that are used, the first name turning fastest, and says
// whether there were any: after the last ones all are 0 again.
fn turn(width: Width, used: &[bool; 16], values: &mut [u64; 16]) -> bool
    requires { Within (bits width) (λ k. slice_index values.old k) }
    ensures words { Within (bits width) (λ k. slice_index values.new k) }
    ensures turned { Turned result used.now (bits width) values.old values.new }
{
    let most = width.mask();
    // by `used[k]`, since after an early return out of a zip, tried, nothing is known of the values
    for (k, value) in values.iter_mut().enumerate() {
        if used[k] {
            if *value < most {
                *value += 1;
                return true;
            }
            *value = 0;
        }
    }
    false
}

// Goes on to the next values of the names that stand in a rule, those of con turning after those of
// any, and says whether there were any.
fn advance(names: &Names, assignment: &mut Assignment) -> bool
    ensures width { assignment.new.width ≡ assignment.old.width }
    ensures advanced { Advanced result names.now.any names.now.con assignment.old assignment.new }
{
    let width = assignment.width;
    turn(width, &names.any, &mut assignment.any) || turn(width, &names.con, &mut assignment.con)
}

// Whether a rule holds, by trying all values of the names that stand in it.
pub(crate) fn holds_by_trying(rule: &RuleNodes) -> Verdict
    ensures { (r : Rule) → Represents rule.now r → Right result r }
{
    let names = Names::of(rule);
    let mut assignment = Assignment {
        width: rule.width,
        any: [0; 16],
        con: [0; 16],
    };
    let mut values = [0; 102];
    // The bound is for the proof that this ends; the turns are not counted.
    for _ in 0..u64::MAX {
        if fails_at_with_room(rule, &assignment, &mut values) {
            return Verdict::Fails(assignment);
        }
        if !advance(&names, &mut assignment) {
            return Verdict::Holds;
        }
    }
    Verdict::Untried
}
