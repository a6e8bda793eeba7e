// Terms over machine words and the rules between them, as nodes in arrays.
#![tactic(auto)]

mod assignment;
mod evaluation;
mod lists;
mod measure;
mod node;
mod rule;
mod usability;

pub use assignment::Assignment;
pub use evaluation::{evaluate, fails_at, fails_at_with_room};
pub use lists::{NodeList, RootList};
pub use node::Node;
pub use rule::RuleNodes;
pub use usability::{usable, weight};
