// The arena: the given and the learned clauses in one array of words. A word of HEADER or more is a
// clause's header, its low bits the number of literals, which follow it. Every header that is found
// there, at whatever place, has a clause that follows from the given ones. So a reference to a clause
// is a hint: whoever follows it looks for the header bit.
//
// Between `low` and `high` lies a gap with no header, into which a clause is stored. As a rule `high`
// is the arena's length. A reduction opens the gap at 0 and goes through the clauses from the bottom:
// it moves each one that it keeps down to `low`, and drops the others, so that the gap widens.
//
// The memory is lent, with no heap, and its clauses are those that the C interface gives, each ended
// by 0: so a clause is words in an array, and its name is a place.
ghost use Rattle.std.specs.Prelude.{◌≡◌, ℕ, ◌+◌, ◌-◌, ◌<◌, ◌≤◌, false, drop, length, MatchBool, MatchOption, slice_index};
ghost use Rattle.clauses.specs.Flat.{Well, Within};
ghost use Rattle.kernel.specs.Arena.{Follows, Header, IsArena, Overwritten, head, size};

use std::marker::Model;

// The least header.
pub const HEADER: u32 = 0x8000_0000;

// Whether a clause's header stands at c.
pub fn is_header(words: &[u32], c: usize) -> bool
    ensures { MatchBool result (Header words.now c) (Header words.now c → ⊥) }
{
    words.get(c).is_some_and(|word| *word >= HEADER)
}

// How many literals the clause whose header stands at c has.
pub fn clause_length(words: &[u32], c: usize) -> usize
    requires { Header words.now c }
    ensures { result ≡ size words.now c }
{
    (words[c] - HEADER) as usize
}

// Writes words over those from a place on. A loop of its own, since a program in C that embeds the
// solver would have to bring what the library's copy calls.
fn overwrite(words: &mut [u32], place: usize, new: &[u32])
    requires room { place + length new.now ≤ length words.old }
    ensures written { Overwritten words.old words.new new.now place (length new.now) }
    ensures long { length words.new ≡ length words.old }
{
    for (k, word) in new.iter().enumerate() {
        words[place + k] = *word;
    }
}

// Exchanges two literals of the clause at c, the ones at the places p and q, in words that are an
// arena. The given clauses, their variables and the gap are there for the contract.
pub fn swap_literals(
    clauses: &[u32],
    variables: usize,
    words: &mut [u32],
    low: usize,
    high: usize,
    c: usize,
    p: usize,
    q: usize,
)
    requires arena { IsArena clauses.now words.old variables low high }
    requires header { Header words.old c }
    requires p { (c < p) × (p ≤ c + size words.old c) }
    requires q { (c < q) × (q ≤ c + size words.old c) }
    ensures arena { IsArena clauses.now words.new variables low high }
    ensures header { slice_index words.new c ≡ slice_index words.old c }
    ensures long { length words.new ≡ length words.old }
{
    words.swap(p, q);
}

#[derive(Drop)]
pub struct Arena<'a> {
    pub(crate) clauses: &'a [u32],
    pub(crate) words: &'a mut [u32],
    variables: usize,
    pub(crate) low: usize,
    pub(crate) high: usize,
}

impl<'a> Model for Arena<'a> {
    ghost use Rattle.kernel.specs.Arena.{IsArena, Stored};

    ghost Value = { Stored };

    ghost view = { λ a. record { clauses = a.clauses.now; words = a.words.now; variables = a.variables; low = a.low; high = a.high } };

    ghost invariant = { λ a. IsArena a.clauses.now a.words.now a.variables a.low a.high };
}

impl<'a> Arena<'a> {
    // An arena with no clause, over variables whose numbers are below `variables`.
    fn empty(clauses: &'a [u32], words: &'a mut [u32], variables: usize) -> Arena<'a>
        ensures clauses { result.clauses ≡ clauses.now }
        ensures variables { result.variables ≡ variables }
        ensures long { length result.words ≡ length words.old }
        ensures low { result.low ≡ 0 }
        ensures high { result.high ≡ length words.old }
    {
        words.fill(0);
        let high = words.len();
        Arena {
            clauses,
            words,
            variables,
            low: 0,
            high,
        }
    }

    // The arena of the given clauses, word for word.
    pub fn new(clauses: &'a [u32], words: &'a mut [u32], variables: usize) -> Arena<'a>
        requires well { Well false clauses.now }
        requires within { Within clauses.now variables }
        requires small { variables ≤ 1073741824 }
        requires short { length clauses.now < head }
        requires room { length clauses.now ≤ length words.old }
        ensures clauses { result.clauses ≡ clauses.now }
        ensures variables { result.variables ≡ variables }
        ensures long { length result.words ≡ length words.old }
        ensures low { result.low ≤ length clauses.now }
        ensures high { result.high ≡ length result.words }
    {
        let mut arena = Arena::empty(clauses, words, variables);
        let mut start = 0;
        for (i, x) in clauses.iter().enumerate() {
            if *x == 0 {
                arena.store(&clauses[start..i]);
                start = i + 1;
            }
        }
        arena
    }
}

impl Arena<'_> {
    // How many words there are.
    pub fn len(&self) -> usize
        ensures { result ≡ length self.now.words }
    {
        self.words.len()
    }

    // Where the gap begins, and a clause would be stored.
    pub fn end(&self) -> usize
        ensures { result ≡ self.now.low }
    {
        self.low
    }

    // How many words the gap has.
    pub fn room(&self) -> usize
        ensures { result ≡ self.now.high - self.now.low }
    {
        self.high - self.low
    }

    // Whether a clause's header stands at c.
    pub fn is_header(&self, c: usize) -> bool
        ensures { MatchBool result (Header self.now.words c) (Header self.now.words c → ⊥) }
    {
        is_header(self.words, c)
    }

    // How many literals the clause whose header stands at c has.
    pub fn clause_length(&self, c: usize) -> usize
        requires { Header self.now.words c }
        ensures { result ≡ size self.now.words c }
    {
        clause_length(self.words, c)
    }

    // The literals of the clause whose header stands at c, if one does.
    pub fn clause(&self, c: usize) -> Option<&[u32]>
        ensures { MatchOption result (Header self.now.words c → ⊥) (λ literals. Header self.now.words c × (length literals.now ≡ size self.now.words c) × Follows self.now.clauses self.now.variables literals.now) }
    {
        let words: &[u32] = self.words;
        if !self.is_header(c) {
            return None;
        }
        let end = c + 1 + self.clause_length(c);
        Some(&words[c + 1..end])
    }

    // The words after place c. Which of them are a clause's literals its header says.
    pub fn words_after(&self, c: usize) -> &[u32]
        ensures { result.now ≡ drop (c + 1) self.now.words }
    {
        let words: &[u32] = self.words;
        if c >= words.len() {
            return &[];
        }
        &words[c + 1..]
    }

    // Stores a clause that follows at the bottom of the gap, and gives its place. The literals are
    // written first and the header last, so that no header ever stands before words that are no clause.
    pub fn store(&mut self, literals: &[u32]) -> usize
        requires clause { Follows self.old.clauses self.old.variables literals.now }
        requires room { self.old.low + 1 + length literals.now ≤ self.old.high }
        requires short { length literals.now < head }
        ensures place { result ≡ self.old.low }
        ensures header { Header self.new.words result }
        ensures low { self.new.low ≡ self.old.low + 1 + length literals.now }
        ensures high { self.new.high ≡ self.old.high }
        ensures clauses { self.new.clauses ≡ self.old.clauses }
        ensures variables { self.new.variables ≡ self.old.variables }
        ensures long { length self.new.words ≡ length self.old.words }
    {
        let place = self.low;
        let n = literals.len();
        overwrite(self.words, place + 1, literals);
        self.words[place] = HEADER + n as u32;
        self.low = place + 1 + n;
        place
    }

    // Exchanges two literals of the clause at c, the ones at the places p and q.
    pub fn swap_literals(&mut self, c: usize, p: usize, q: usize)
        requires header { Header self.old.words c }
        requires p { (c < p) × (p ≤ c + size self.old.words c) }
        requires q { (c < q) × (q ≤ c + size self.old.words c) }
        ensures header { slice_index self.new.words c ≡ slice_index self.old.words c }
        ensures low { self.new.low ≡ self.old.low }
        ensures high { self.new.high ≡ self.old.high }
        ensures clauses { self.new.clauses ≡ self.old.clauses }
        ensures variables { self.new.variables ≡ self.old.variables }
        ensures long { length self.new.words ≡ length self.old.words }
    {
        swap_literals(
            self.clauses,
            self.variables,
            self.words,
            self.low,
            self.high,
            c,
            p,
            q,
        );
    }
}
