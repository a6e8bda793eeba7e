// The order in which variables are decided: by activity, the highest first.
//
// A variable's activity grows by `increment` each time it takes part in a conflict, and the increment
// grows at each conflict, so that what happened lately counts most. Before the numbers get too large
// all are made smaller alike. The variables wait in a binary heap; `slots` has each one's place in it,
// from 1 on, or 0. Variables that are set may stay in the heap, and are passed over when they come out.
// The memory is lent words, with no heap: so the heap is an array of its own, and 0 says none.
use crate::memory::{get, put};
use clauses::Variable;

// The most levels that a heap of 32-bit numbers has: a bound for loops that go up or down, by which they
// are seen to end.
const LEVELS: u32 = 33;

#[derive(Drop)]
pub struct Order<'a> {
    activities: &'a mut [u32],
    heap: &'a mut [u32],
    slots: &'a mut [u32],
    len: usize,
    increment: u32,
}

impl<'a> Order<'a> {
    // All variables from 1 on, none more active than the others.
    pub fn new(activities: &'a mut [u32], heap: &'a mut [u32], slots: &'a mut [u32]) -> Order<'a> {
        activities.fill(0);
        slots.fill(0);
        Order {
            activities,
            heap,
            slots,
            len: 0,
            increment: 16,
        }
    }
}

impl Order<'_> {
    fn activity(&self, v: u32) -> u32 {
        get(self.activities, v as usize)
    }

    // Puts a variable at a place of the heap.
    fn place(&mut self, i: usize, v: u32) {
        if let Ok(slot) = u32::try_from(i.saturating_add(1)) {
            put(self.heap, i, v);
            put(self.slots, v as usize, slot);
        }
    }

    // Moves the variable at place i up past those that are less active.
    fn rise(&mut self, start: usize) {
        let mut i = start;
        let v = get(self.heap, i);
        for _ in 0..LEVELS {
            if i == 0 {
                break;
            }
            let parent = (i - 1) / 2;
            let above = get(self.heap, parent);
            if self.activity(above) >= self.activity(v) {
                break;
            }
            self.place(i, above);
            i = parent;
        }
        self.place(i, v);
    }

    // The more active child of place i, if it has one.
    fn child(&self, i: usize) -> Option<usize> {
        let left = i.checked_mul(2)?.checked_add(1)?;
        if left >= self.len {
            return None;
        }
        let right = left + 1;
        if right < self.len
            && self.activity(get(self.heap, right)) > self.activity(get(self.heap, left))
        {
            return Some(right);
        }
        Some(left)
    }

    // Moves the variable at the top down past those that are more active.
    fn sink(&mut self) {
        let mut i = 0;
        let v = get(self.heap, 0);
        for _ in 0..LEVELS {
            let Some(child) = self.child(i) else {
                break;
            };
            let below = get(self.heap, child);
            if self.activity(below) <= self.activity(v) {
                break;
            }
            self.place(i, below);
            i = child;
        }
        self.place(i, v);
    }

    // Puts a variable into the heap, if it isn't there.
    pub fn insert(&mut self, v: Variable) {
        if self.slots.get(v.index()) == Some(&0) && self.len < self.heap.len() {
            let last = self.len;
            self.len = last + 1;
            self.place(last, v.0);
            self.rise(last);
        }
    }

    // Takes the most active variable out of the heap.
    pub fn pop(&mut self) -> Option<Variable> {
        let rest = self.len.checked_sub(1)?;
        let best = get(self.heap, 0);
        let last = get(self.heap, rest);
        self.len = rest;
        put(self.slots, best as usize, 0);
        if rest > 0 {
            self.place(0, last);
            self.sink();
        }
        Some(Variable(best))
    }

    // Makes a variable more active.
    pub fn bump(&mut self, v: Variable) {
        let i = v.index();
        if let Some(activity) = self.activities.get_mut(i) {
            *activity = activity.saturating_add(self.increment);
            let slot = get(self.slots, i);
            if slot > 0 {
                self.rise(slot as usize - 1);
            }
        }
    }

    // Has what comes count for more than what was.
    pub fn decay(&mut self) {
        self.increment = self.increment.saturating_add(self.increment / 16);
        if self.increment > 0x0200_0000 {
            self.increment /= 4096;
            for a in self.activities.iter_mut() {
                *a /= 4096;
            }
        }
    }
}
