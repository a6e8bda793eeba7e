// Decimal numbers.
ghost use Rattle.std.specs.Prelude.{◌≡◌, ℕ, ◌+◌, ◌-◌, ◌*◌, ◌^◌, ◌<◌, ◌≤◌, MatchOption, ◌≢◌};
ghost use Rattle.book.specs.Text.{decimal};

// The number `n` with one more digit `c` after it; none if `c` is no digit or the number does not
// fit.
fn append_digit(n: u64, c: u8) -> Option<u64>
    ensures { MatchOption result (48 ≤ c → c ≤ 57 → 2 ^ 64 ≤ n * 10 + (c - 48)) (λ m. (m ≡ n * 10 + (c - 48)) × (48 ≤ c) × (c ≤ 57) × (m < 2 ^ 64)) }
{
    if !c.is_ascii_digit() {
        return None;
    }
    n.checked_mul(10)?.checked_add(u64::from(c - b'0'))
}

// The number below 2^64 that a word is in decimal, with no 0 in front.
pub(crate) fn number(word: &[u8]) -> Option<u64>
    ensures { MatchOption result ((n : ℕ) → n < 2 ^ 64 → word.now ≢ decimal n) (λ n. (word.now ≡ decimal n) × (n < 2 ^ 64)) }
{
    let first = *word.first()?;
    if first == b'0' && word.len() > 1 {
        return None;
    }
    let mut n = 0;
    for c in word {
        n = append_digit(n, *c)?;
    }
    Some(n)
}
