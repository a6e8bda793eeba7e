// Clauses as lists of numbers: literals and variables, reading the lists, and writing a model.
#![tactic(auto)]

mod formula;
mod literal;
mod model;
mod numbering;
mod reading;
mod solved;

pub use formula::Formula;
pub use literal::{Literal, Variable};
pub use model::write_model;
pub use numbering::number_variables;
pub use reading::{enough_room, variables_below, well_formed};
pub use solved::{Answer, Refusal, Solved};
