// Occurrence lists: the clauses of the arena in which a literal stands.
//
// Each place of the arena that holds a literal is a link of that literal's list: `next` has the place
// after it in the list, or 0, and `owner` the place of its clause's header. No literal stands at
// place 0, since a header does. At a header's own place `next` is free, and has the clause's score.
// The memory is lent words, with no heap: so the lists are links by places, 0 for none.
use crate::memory::{get, put};
use clauses::Literal;

// The place that a link's word names: 0 names none.
fn link(word: u32) -> Option<usize> {
    match word {
        0 => None,
        place => Some(place as usize),
    }
}

#[derive(Drop)]
pub struct Occurrences<'a> {
    heads: &'a mut [u32],
    next: &'a mut [u32],
    owner: &'a mut [u32],
}

impl<'a> Occurrences<'a> {
    // No list has a link yet.
    pub fn new(heads: &'a mut [u32], next: &'a mut [u32], owner: &'a mut [u32]) -> Occurrences<'a> {
        heads.fill(0);
        Occurrences { heads, next, owner }
    }
}

impl Occurrences<'_> {
    // Empties all lists.
    pub fn clear(&mut self) {
        self.heads.fill(0);
    }

    // Adds the literals of the clause at c.
    pub fn attach(&mut self, c: usize, literals: &[u32]) {
        for (x, p) in literals.iter().zip(1..) {
            self.attach_literal(c, p, *x as usize);
        }
    }

    // Adds the literal at the p-th place after the header of the clause at c.
    fn attach_literal(&mut self, c: usize, p: usize, head: usize) {
        let Some(place) = c.checked_add(p) else {
            return;
        };
        if let (Ok(owner), Ok(link)) = (u32::try_from(c), u32::try_from(place)) {
            let old = get(self.heads, head);
            put(self.next, place, old);
            put(self.owner, place, owner);
            put(self.heads, head, link);
        }
    }

    // The first place where a literal stands.
    pub fn first(&self, x: Literal) -> Option<usize> {
        link(get(self.heads, x.0 as usize))
    }

    // The place after p in its list.
    pub fn after(&self, p: usize) -> Option<usize> {
        link(get(self.next, p))
    }

    // The place of the header of the clause that has place p.
    pub fn clause(&self, p: usize) -> usize {
        get(self.owner, p) as usize
    }

    // The score of the clause at c: how many levels it had when it was learned.
    pub fn score(&self, c: usize) -> u32 {
        get(self.next, c)
    }

    pub fn set_score(&mut self, c: usize, score: u32) {
        put(self.next, c, score);
    }
}
