// The solver: a list of clauses is met, with a model, or never met.
//
// A module a technique: decisions, starting over, forgetting, and the search that uses them over
// propagation and learning. What an answer rests on are the kernel's steps; what guides the search has
// no invariant, and is tested where it is used.
#![tactic(auto)]

mod answer;
mod decide;
mod reduce;
mod restart;
mod solver;

pub use answer::{Counted, find_model, solve, solve_counted};
