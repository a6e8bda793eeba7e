// Circuits: the operations on words as clauses.
//
// A builder writes clauses into lent memory. A gate is a new variable with the clauses that make it the
// gate's output; a circuit on words is gates in a fixed order.
#![tactic(auto)]

mod adding;
mod builder;
mod choosing;
mod comparing;
mod dividing;
mod gates;
mod multiplying;
mod operations;
mod shifting;

pub use adding::Sum;
pub use builder::{Builder, HIGH, LOW};
pub use gates::{Bitwise, Folded};
pub use operations::inverted;
pub use shifting::Direction;
