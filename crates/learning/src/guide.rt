// All that guides the search. Nothing here has an invariant: what is read from it is tested.
use clauses::Literal;
use guidance::{Occurrences, Order, Phases, Policy};
use kernel::{HEADER, Marks, Trail};

#[derive(Drop)]
pub struct Guide<'a> {
    pub order: Order<'a>,
    pub phases: Phases<'a>,
    pub lists: Occurrences<'a>,
    pub policy: Policy,
    // Where the given clauses end in the arena: these are never forgotten.
    pub given: usize,
    // The place on the trail from which on literals are to be propagated.
    pub propagated: usize,
}

// Whether a word of the arena is a literal: no header, and not 0. Behind the clause that was stored last
// stand literals of clauses that were forgotten; what guides the search goes on over these up to the next
// header or 0, which decides where it goes, and nothing is promised of that.
pub(crate) fn is_literal(word: u32) -> bool {
    word != 0 && word < HEADER
}

impl Guide<'_> {
    // The variables of the literals in front that are not marked yet take part in a conflict.
    pub(crate) fn bump(&mut self, words: &[u32], marks: &Marks) {
        for code in words.iter().take_while(|word| is_literal(**word)) {
            let v = Literal(*code).variable();
            if !marks.contains(v) {
                self.order.bump(v);
            }
        }
    }

    // The literals of the trail from place `keep` on are about to be freed: their values are saved, and
    // their variables wait to be decided again.
    pub fn release(&mut self, trail: &Trail, keep: usize) {
        for code in trail.literals().iter().skip(keep) {
            let x = Literal(*code);
            self.phases.save(x);
            self.order.insert(x.variable());
        }
    }
}
