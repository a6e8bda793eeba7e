// When to start over and when to forget.
//
// The search starts over after 64 times the numbers 1, 1, 2, 1, 1, 2, 4, 1, 1, 2, ... of conflicts
// (Luby's sequence, by Knuth's two counters). When it does it may forget learned clauses: after 1,000
// of them and 100 more each time, or when there was no room for one.

// How often a search had to do without its guidance: a conflict that propagation missed, an analysis
// of a conflict that led to no clause, and a variable that the order had lost. None of these changes an
// answer; tests see that they don't happen.
#[derive(Clone, Copy, PartialEq, Eq, Debug, Default)]
pub struct Fallbacks {
    pub missed_conflicts: u32,
    pub failed_analyses: u32,
    pub lost_variables: u32,
}

#[derive(Clone, Copy, PartialEq, Eq, Debug)]
pub enum Fallback {
    MissedConflict,
    FailedAnalysis,
    LostVariable,
}

#[derive(Clone, Copy)]
pub struct Policy {
    conflicts: u32,
    run: u32,
    length: u32,
    learned: u32,
    fresh: u32,
    most: u32,
    full: bool,
    fallbacks: Fallbacks,
}

// One more, as far as the number goes.
fn count(counter: &mut u32) {
    *counter = counter.saturating_add(1);
}

impl Policy {
    pub fn new() -> Policy {
        Policy {
            conflicts: 0,
            run: 1,
            length: 1,
            learned: 0,
            fresh: 0,
            most: 1000,
            full: false,
            fallbacks: Fallbacks::default(),
        }
    }

    // A clause was learned from a conflict.
    pub fn note_learned(&mut self) {
        count(&mut self.conflicts);
        count(&mut self.learned);
        count(&mut self.fresh);
    }

    // There was no room for a clause that was learned.
    pub fn note_full(&mut self) {
        self.full = true;
    }

    pub fn is_full(&self) -> bool {
        self.full
    }

    // Whether there was no room for a clause, and enough were learned since some were last forgotten
    // for it to pay to forget some now. Where it doesn't pay the search goes on without learning.
    pub fn forgetting_pays(&self) -> bool {
        self.full && self.fresh >= 16
    }

    // Whether to start over.
    pub fn restart_due(&self) -> bool {
        self.conflicts >= self.length.saturating_mul(64)
    }

    // The search has started over.
    pub fn note_restart(&mut self) {
        self.conflicts = 0;
        if self.run & self.run.wrapping_neg() == self.length {
            self.run = self.run.saturating_add(1);
            self.length = 1;
        } else {
            self.length = self.length.saturating_mul(2);
        }
    }

    // Whether to forget clauses, now that the search starts over.
    pub fn reduction_due(&self) -> bool {
        self.full || self.learned >= self.most
    }

    // So many learned clauses are left.
    pub fn note_reduction(&mut self, kept: u32) {
        self.fresh = 0;
        self.learned = kept;
        self.most = self.most.saturating_add(100).max(kept.saturating_add(100));
        self.full = false;
    }

    // The search had to do without its guidance.
    pub fn note(&mut self, fallback: Fallback) {
        let counts = &mut self.fallbacks;
        count(match fallback {
            Fallback::MissedConflict => &mut counts.missed_conflicts,
            Fallback::FailedAnalysis => &mut counts.failed_analyses,
            Fallback::LostVariable => &mut counts.lost_variables,
        });
    }

    pub fn fallbacks(&self) -> Fallbacks {
        self.fallbacks
    }
}
