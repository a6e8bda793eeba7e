// Whether a list of numbers can be solved at all: it is clauses, and its variables and the work have room.
ghost use Rattle.std.specs.Prelude.{◌≡◌, ◌+◌, ◌-◌, ◌*◌, ◌<◌, ◌≤◌, ◌==◌, true, false, MatchBool, length, slice_index};
ghost use Rattle.clauses.specs.Flat.{Beyond, Well, Within};

use crate::literal::Literal;

// Whether the last clause, where there is one, has its 0.
fn is_closed(clauses: &[u32]) -> bool
    ensures some { 0 < length clauses.now → result ≡ (slice_index clauses.now (length clauses.now - 1) == 0) }
    ensures none { length clauses.now ≡ 0 → result ≡ true }
{
    clauses.last().is_none_or(|x| *x == 0)
}

// Whether the numbers are clauses: no literal is 1, and the last clause has its 0.
pub fn well_formed(clauses: &[u32]) -> bool
    ensures { MatchBool result (Well false clauses.now) (Well false clauses.now → ⊥) }
{
    !clauses.contains(&1) && is_closed(clauses)
}

// Whether each variable, from 0 on, is below n.
pub fn variables_below(clauses: &[u32], n: usize) -> bool
    ensures { MatchBool result (Within clauses.now (n + 1)) (Beyond clauses.now (n + 1)) }
{
    clauses.iter().all(|x| Literal(*x).variable().index() <= n)
}

// Whether the work is large enough for so many numbers and so many bytes of a model. The sum is of 128
// bits, since it may pass the largest number of 64.
pub fn enough_room(numbers: usize, bytes: usize, work: usize) -> bool
    ensures { MatchBool result (32 * numbers + (8 * bytes + 4096) ≤ work) (work < 32 * numbers + (8 * bytes + 4096)) }
{
    32 * numbers as u128 + 8 * bytes as u128 + 4096 <= work as u128
}
