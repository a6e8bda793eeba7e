// The value that each variable had last, to which it is set when it is decided again; and where it
// stands on the trail. The memory is lent words, so no value yet is the word 0.
use crate::memory::{get, put};
use clauses::{Literal, Variable};

#[derive(Drop)]
pub struct Phases<'a> {
    saved: &'a mut [u32],
    places: &'a mut [u32],
}

impl<'a> Phases<'a> {
    // No variable had a value yet.
    pub fn new(saved: &'a mut [u32], places: &'a mut [u32]) -> Phases<'a> {
        saved.fill(0);
        places.fill(0);
        Phases { saved, places }
    }
}

impl Phases<'_> {
    // The literal of a variable to decide: the one that it was last, at first its negation.
    pub fn literal(&self, v: Variable) -> Literal {
        let x = get(self.saved, v.index());
        if x == 0 && v.0 < 0x7fff_ffff {
            Literal(2 * v.0 + 1)
        } else {
            Literal(x)
        }
    }

    pub fn save(&mut self, x: Literal) {
        put(self.saved, x.variable().index(), x.0);
    }

    // A literal now stands at a place of the trail.
    pub fn note_place(&mut self, x: Literal, place: usize) {
        if let Ok(place) = u32::try_from(place) {
            put(self.places, x.variable().index(), place);
        }
    }

    // Whether a variable's literal stands on the trail before a place.
    pub fn stands_before(&self, v: Variable, place: usize) -> bool {
        self.places
            .get(v.index())
            .is_some_and(|at| (*at as usize) < place)
    }

    // The places of all variables on the trail.
    pub fn places(&self) -> &[u32] {
        self.places
    }
}
