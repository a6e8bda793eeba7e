// What guides a search for a model and that no proof rests on: where each literal stands, which
// variable to decide next and to which value, when to start over and what to forget.
//
// Whoever uses an answer from here tests it first. So these functions promise nothing but to return:
// a wrong answer can cost time, and no more.
#![tactic(auto)]

mod memory;
mod occurrences;
mod order;
mod phases;
mod policy;

pub use occurrences::Occurrences;
pub use order::Order;
pub use phases::Phases;
pub use policy::{Fallback, Fallbacks, Policy};
