// The check of a clause along hints: set the negations of its literals, then look at one clause of the
// arena after another. Each forces a literal, until one is false: then the clause follows. The hints
// may name anything; one that helps nothing is passed over. A log of learned clauses is checked so,
// and so are clauses that were kept outside.
ghost use Rattle.std.specs.Prelude.{◌≡◌, ℕ, ◌<◌, T, length, slice_index};
ghost use Rattle.kernel.specs.Arena.{Follows, IsArena};
ghost use Rattle.kernel.specs.Hints.{Denied};

use crate::arena::{Arena, HEADER, clause_length, is_header};
use crate::look::{Look, examine};
use clauses::Literal;

// Sets the negations of the literals, in values that are all free; false where a word is no literal,
// or two literals are opposite.
fn deny(values: &mut [u32], literals: &[u32]) -> bool
    requires { (k : ℕ) → k < length values.old → slice_index values.old k ≡ 0 }
    ensures { T result → Denied values.new literals.now (length literals.now) }
{
    for code in literals {
        let y = Literal(*code);
        let v = y.variable().index();
        if y.0 < 2 || y.0 >= HEADER || v >= values.len() || values[v] == y.0 {
            return false;
        }
        values[v] = y.negated().0;
    }
    true
}

// Whether the hints, places in words that are an arena, show that the literals are a clause that
// follows. The gap from `low` to `high` is there for the contract.
pub fn by_hints(
    clauses: &[u32],
    words: &[u32],
    low: usize,
    high: usize,
    values: &mut [u32],
    literals: &[u32],
    hints: &[u32],
) -> bool
    requires arena { IsArena clauses.now words.now (length values.old) low high }
    requires clean { (k : ℕ) → k < length values.old → slice_index values.old k ≡ 0 }
    ensures { T result → Follows clauses.now (length values.old) literals.now }
{
    if !deny(values, literals) {
        return false;
    }
    for hint in hints {
        let c = *hint as usize;
        if is_header(words, c) {
            let end = c + 1 + clause_length(words, c);
            match examine(clauses, values, &words[c + 1..end]) {
                Look::Open => {}
                Look::Unit(x) => values[x.variable().index()] = x.0,
                Look::Conflict => return true,
            }
        }
    }
    false
}

impl Arena<'_> {
    // Whether the hints, places of the arena, show that the literals are a clause that follows.
    pub fn by_hints(&self, values: &mut [u32], literals: &[u32], hints: &[u32]) -> bool
        requires variables { self.now.variables ≡ length values.old }
        requires clean { (k : ℕ) → k < length values.old → slice_index values.old k ≡ 0 }
        ensures { T result → Follows self.now.clauses (length values.old) literals.now }
    {
        by_hints(
            self.clauses,
            self.words,
            self.low,
            self.high,
            values,
            literals,
            hints,
        )
    }
}
