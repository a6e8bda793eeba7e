// The trail: the literals that are set, in the order in which they were, and the steps that change
// it. `values` holds at a variable's place the code of its literal that is true, or 0; `literals` has
// the `len` literals; `kinds` says of each place whether a decision stands there (0) or an implied
// literal (any other word: a hint at its reason).
//
// Every implied literal is true in each model in which the literals before it are. That is all that
// is kept of reasons, so no clause that was used has to stay. A solver ends since each step makes
// the trail's number to the base 3 grow: 2 for an implied literal, 1 for a decision, 0 for none.
ghost use Rattle.std.specs.Prelude.{◌≡◌, ℕ, ◌+◌, ◌/◌, ◌<◌, ◌≤◌, ◌↔◌, ◌++◌, [], ◌∷◌, length, MatchBool, MatchOption, IsNone, T, Bool, true, ◌≢◌, take, slice_index, slice_set};
ghost use Rattle.clauses.specs.Flat.{lit_truth, Hopeless, Model, Within};
ghost use Rattle.kernel.specs.Arena.{Follows};
ghost use Rattle.kernel.specs.Looks.{Looks};
ghost use Rattle.kernel.specs.Trail.{Clash, False, Forced, Free, Further, IsLast, IsSet, IsTrail, NoDecision, Own};

use crate::look::{Look, examine};
use clauses::Literal;
use std::marker::Model;

// The memory is lent words, so a value that is not set and a decision are words too, 0.
#[derive(Drop)]
pub struct Trail<'a> {
    pub(crate) clauses: &'a [u32],
    pub(crate) values: &'a mut [u32],
    literals: &'a mut [u32],
    kinds: &'a mut [u32],
    len: usize,
}

impl<'a> Model for Trail<'a> {
    ghost use Rattle.std.specs.Prelude.{take};
    ghost use Rattle.kernel.specs.Trail.{State, Trailed};

    ghost Value = { Trailed };

    ghost view = { λ t. record { clauses = t.clauses.now; values = t.values.now; literals = take t.len t.literals.now; kinds = take t.len t.kinds.now } };

    ghost invariant = { λ t. State t.clauses.now t.values.now t.literals.now t.kinds.now t.len };
}

// Whether a literal is false.
pub fn is_false(values: &[u32], x: Literal) -> bool
    requires { x.0 / 2 < length values.now }
    ensures { MatchBool result (False values.now x.0) (False values.now x.0 → ⊥) }
{
    let v = values[x.variable().index()];
    v != 0 && v != x.0
}

// Frees the literals after the first k, the last first. `literals` is only read, and lent as the
// other fields of a trail are.
fn cut(values: &mut [u32], literals: &mut [u32], n: usize, k: usize)
    requires trail { IsTrail values.old literals.old n }
    requires within { k ≤ n }
    ensures trail { IsTrail values.new literals.new k }
    ensures same { literals.new ≡ literals.old }
{
    for x in literals[k..n].iter().rev() {
        values[Literal(*x).variable().index()] = 0;
    }
}

// Sets a literal. That there is room follows from its being free.
fn push(
    values: &mut [u32],
    literals: &mut [u32],
    kinds: &mut [u32],
    n: usize,
    x: Literal,
    kind: u32,
)
    requires trail { IsTrail values.old literals.old n }
    requires free { Free values.old x.0 }
    requires room { length values.old ≤ length kinds.old }
    ensures trail { IsTrail values.new literals.new (n + 1) }
    ensures set { literals.new ≡ slice_set literals.old n x.0 }
    ensures kind { kinds.new ≡ slice_set kinds.old n kind }
    ensures below { n < length values.old }
{
    values[x.variable().index()] = x.0;
    literals[n] = x.0;
    kinds[n] = kind;
}

impl<'a> Trail<'a> {
    // No literal is set.
    pub fn new(
        clauses: &'a [u32],
        values: &'a mut [u32],
        literals: &'a mut [u32],
        kinds: &'a mut [u32],
    ) -> Trail<'a>
        requires within { Within clauses.now (length values.old) }
        requires literals { length values.old ≤ length literals.old }
        requires kinds { length values.old ≤ length kinds.old }
        ensures clauses { result.clauses ≡ clauses.now }
        ensures long { length result.values ≡ length values.old }
        ensures free { (k : ℕ) → k < length result.values → slice_index result.values k ≡ 0 }
        ensures empty { result.kinds ≡ [] }
    {
        values.fill(0);
        Trail {
            clauses,
            values,
            literals,
            kinds,
            len: 0,
        }
    }
}

impl Trail<'_> {
    // How many literals are set.
    pub fn len(&self) -> usize
        ensures len { result ≡ length self.now.kinds }
        ensures few { result ≤ length self.now.values }
    {
        self.len
    }

    // For each variable the code of its literal that is true, or 0.
    pub fn values(&self) -> &[u32]
        ensures value { result.now ≡ self.now.values }
        ensures own { Own self.now.values }
    {
        self.values
    }

    // The codes of the literals that are set, in their order.
    pub fn literals(&self) -> &[u32]
        ensures { result.now ≡ self.now.literals }
    {
        &self.literals[..self.len]
    }

    // The literal at a place; before the first decision every model makes it true.
    pub fn literal(&self, p: usize) -> Literal
        requires { p < length self.now.kinds }
        ensures literal { result.0 ≡ slice_index self.now.literals p }
        ensures set { IsSet self.now.values result.0 }
        ensures settled { (first : ℕ) (s : ℕ → Bool) → p < first → NoDecision self.now.kinds first → Model s self.now.clauses → lit_truth s result.0 ≡ true }
    {
        Literal(self.literals[..self.len][p])
    }

    // Its negation.
    fn opposite(&self, p: usize) -> Literal
        requires { p < length self.now.kinds }
        ensures variable { result.0 / 2 ≡ slice_index self.now.literals p / 2 }
        ensures other { result.0 ≢ slice_index self.now.literals p }
    {
        self.literal(p).negated()
    }

    // The reason of the literal at a place, by a hint; none of a decision.
    pub fn reason(&self, p: usize) -> Option<usize>
        requires { p < length self.now.kinds }
        ensures { IsNone result ↔ (slice_index self.now.kinds p ≡ 0) }
    {
        match self.kinds[..self.len][p] {
            0 => None,
            kind => Some(kind as usize - 1),
        }
    }

    // Whether a literal is false.
    pub fn is_false(&self, x: Literal) -> bool
        requires { x.0 / 2 < length self.now.values }
        ensures { MatchBool result (False self.now.values x.0) (False self.now.values x.0 → ⊥) }
    {
        is_false(self.values, x)
    }

    // Whether a literal's variable is not set.
    pub fn is_free(&self, x: Literal) -> bool
        ensures { T result → Free self.now.values x.0 }
    {
        let h = x.variable().index();
        x.0 >= 2 && h < self.values.len() && self.values[h] == 0
    }

    // Looks at a clause that follows.
    pub fn examine(&self, literals: &[u32]) -> Look
        requires { Follows self.now.clauses (length self.now.values) literals.now }
        ensures { Looks self.now.clauses self.now.values result }
    {
        examine(self.clauses, self.values, literals)
    }

    // The place of the last decision.
    pub fn last_decision(&self) -> Option<usize>
        ensures { MatchOption result (NoDecision self.now.kinds (length self.now.kinds)) (IsLast self.now.kinds) }
    {
        self.kinds[..self.len].iter().rposition(|kind| *kind == 0)
    }

    // How many literals stand before the first decision: these are true in every model.
    pub fn first_decision(&self) -> usize
        ensures { NoDecision self.now.kinds result }
    {
        self.kinds[..self.len]
            .iter()
            .position(|kind| *kind == 0)
            .unwrap_or(self.len)
    }

    // Sets a literal that follows from the clauses and the values; `reason` is a hint at a clause that
    // forces it.
    pub fn imply(&mut self, x: Literal, reason: usize)
        requires { Forced self.old.clauses self.old.values x.0 }
        ensures further { Further self.old self.new }
        ensures literals { self.new.literals ≡ self.old.literals ++ x.0 ∷ [] }
        ensures count { length self.new.kinds ≡ length self.old.kinds + 1 }
    {
        let kind = if reason < 0xffff_ffff {
            reason as u32 + 1
        } else {
            1
        };
        let n = self.len;
        push(self.values, self.literals, self.kinds, n, x, kind);
        self.len = n + 1;
    }

    // Sets a literal by decision.
    pub fn decide(&mut self, x: Literal)
        requires { Free self.old.values x.0 }
        ensures further { Further self.old self.new }
        ensures literals { self.new.literals ≡ self.old.literals ++ x.0 ∷ [] }
        ensures count { length self.new.kinds ≡ length self.old.kinds + 1 }
    {
        let n = self.len;
        push(self.values, self.literals, self.kinds, n, x, 0);
        self.len = n + 1;
    }

    // Turns the last decision, where no model agrees with the values: all after it was implied, so its
    // negation follows from what stands before it. False where no decision was left, and the clauses
    // are never met.
    pub fn flip(&mut self) -> bool
        requires { Clash self.old.clauses self.old.values }
        ensures clauses { self.new.clauses ≡ self.old.clauses }
        ensures long { length self.new.values ≡ length self.old.values }
        ensures turned { MatchBool result (Further self.old self.new) (Hopeless self.old.clauses) }
    {
        let Some(p) = self.last_decision() else {
            return false;
        };
        let n = self.len;
        let turned = self.opposite(p);
        cut(self.values, self.literals, n, p);
        push(self.values, self.literals, self.kinds, p, turned, 1);
        self.len = p + 1;
        true
    }

    // Frees the literals after the first k.
    pub fn retreat(&mut self, k: usize)
        requires { k ≤ length self.old.kinds }
        ensures clauses { self.new.clauses ≡ self.old.clauses }
        ensures long { length self.new.values ≡ length self.old.values }
        ensures literals { self.new.literals ≡ take k self.old.literals }
        ensures kinds { self.new.kinds ≡ take k self.old.kinds }
    {
        let n = self.len;
        cut(self.values, self.literals, n, k);
        self.len = k;
    }
}
