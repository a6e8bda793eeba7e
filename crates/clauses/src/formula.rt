// Clauses that were read: what is asked of the numbers before they are solved, as a fact of a type. The
// numbers are those of the C interface, where 0 ends a clause.
ghost use Rattle.std.specs.Prelude.{◌≡◌, ℕ, ◌+◌, ◌^◌, ◌<◌, false, MatchResult, slice_index};
ghost use Rattle.clauses.specs.Flat.{Well, Within};
ghost use Rattle.clauses.specs.Formula.{Refused, Well-prop};

use crate::reading::{variables_below, well_formed};
use crate::solved::Refusal;

// Clauses whose variables, from 0 on, are below `variables`.
#[derive(Clone, Copy)]
pub struct Formula<'a> {
    pub numbers: &'a [u32],
    pub variables: usize,
    ghost well: { Well false numbers.now } by { Well-prop false numbers.now },
    ghost within: { Within numbers.now (variables + 1) },
    ghost words: { (k : ℕ) → slice_index numbers.now k < 2 ^ 32 },
}

impl<'a> Formula<'a> {
    // Reads numbers as clauses over so many variables.
    pub fn read(numbers: &'a [u32], variables: usize) -> Result<Formula<'a>, Refusal>
        ensures { MatchResult result (λ f. (f.numbers.now ≡ numbers.now) × (f.variables ≡ variables)) (λ r. Refused numbers.now variables r) }
    {
        if !well_formed(numbers) {
            return Err(Refusal::NoClauses);
        }
        if !variables_below(numbers, variables) {
            return Err(Refusal::Small);
        }
        Ok(Formula { numbers, variables })
    }
}
