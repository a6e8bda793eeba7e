// Propagation and learning: what the literals on the trail force, and the clauses that are learned
// where they force a conflict.
#![tactic(auto)]

mod analyze;
mod guide;
mod lesson;
mod minimize;
mod propagation;
mod search;

pub use guide::Guide;
pub use lesson::Lesson;
pub use propagation::Conflict;
pub use search::Search;
