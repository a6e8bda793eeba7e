// The state of a search: the kernel's parts, which are about the same clauses and variables, and what
// guides them.
ghost use Rattle.std.specs.Prelude.{◌≡◌, ◌+◌, ◌*◌, ◌^◌, ◌<◌, ◌≤◌, length};

use crate::guide::Guide;
use clauses::{Formula, Variable};
use guidance::{Occurrences, Order, Phases, Policy};
use kernel::{Arena, Marks, Trail};

#[derive(Drop)]
pub struct Search<'a> {
    pub trail: Trail<'a>,
    pub arena: Arena<'a>,
    pub marks: Marks<'a>,
    // Room for the literals of a clause to learn: lent, so that how many there are stands elsewhere.
    pub literals: &'a mut [u32],
    pub guide: Guide<'a>,
    ghost same: { arena.clauses ≡ trail.clauses },
    ghost variables: { arena.variables ≡ length trail.values },
    ghost full: { arena.high ≡ length arena.words },
    ghost long: { length marks ≡ length trail.values },
}

impl<'a> Search<'a> {
    // A search over clauses in lent memory, with no literal set. The memory is cut into areas: 12 words
    // for each variable and one more, and what is left in three, for the clauses and their occurrence
    // lists.
    pub fn new(formula: &Formula<'a>, work: &'a mut [u32]) -> Search<'a>
        requires short { length formula.now.numbers.now < 2 ^ 30 }
        requires few { formula.now.variables ≤ length formula.now.numbers.now }
        requires room { 13 * (formula.now.variables + 1) + (3 * length formula.now.numbers.now + 3) ≤ length work.old }
        ensures clauses { result.trail.clauses ≡ formula.now.numbers.now }
        ensures long { length result.trail.values ≡ formula.now.variables + 1 }
    {
        // one after the other, since each area has a name of its own
        let n = formula.variables + 1;
        let (values, rest) = work.split_at_mut(n);
        let (trail, rest) = rest.split_at_mut(n);
        let (kinds, rest) = rest.split_at_mut(n);
        let (seen, rest) = rest.split_at_mut(n);
        let (literals, rest) = rest.split_at_mut(n);
        let (activities, rest) = rest.split_at_mut(n);
        let (heap, rest) = rest.split_at_mut(n);
        let (slots, rest) = rest.split_at_mut(n);
        let (saved, rest) = rest.split_at_mut(n);
        let (places, rest) = rest.split_at_mut(n);
        let (heads, rest) = rest.split_at_mut(2 * n);
        let third = rest.len() / 3;
        let (words, rest) = rest.split_at_mut(third);
        let (next, owner) = rest.split_at_mut(third);
        let arena = Arena::new(formula.numbers, words, n);
        let given = arena.end();
        Search {
            trail: Trail::new(formula.numbers, values, trail, kinds),
            arena,
            marks: Marks::new(seen),
            literals,
            guide: Guide {
                order: Order::new(activities, heap, slots),
                phases: Phases::new(saved, places),
                lists: Occurrences::new(heads, next, owner),
                policy: Policy::new(),
                given,
                propagated: 0,
            },
        }
    }
}

impl Search<'_> {
    // Makes the occurrence lists of all clauses.
    pub fn attach_all(&mut self)
        ensures trail { self.new.trail ≡ self.old.trail }
    {
        self.guide.lists.clear();
        // a header may stand at any place
        for c in 0..self.arena.len() {
            if let Some(literals) = self.arena.clause(c) {
                self.guide.lists.attach(c, literals);
            }
        }
    }

    // Has all variables wait to be decided.
    pub fn insert_all(&mut self)
        ensures trail { self.new.trail ≡ self.old.trail }
    {
        let end = self.trail.values().len();
        // the numbers themselves are inserted
        for v in 1..end {
            if v < 0x4000_0000 {
                self.guide.order.insert(Variable(v as u32));
            }
        }
    }
}
