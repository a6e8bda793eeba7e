// The proved kernel of the solver: the few steps on which every answer rests. A solver that uses
// them may be guided by anything, since each step checks or requires what it needs.
#![tactic(auto)]

mod arena;
mod compaction;
mod hints;
mod look;
mod marks;
mod plain;
mod scan;
mod trail;

pub use arena::{Arena, HEADER, clause_length, is_header, swap_literals};
pub use hints::by_hints;
pub use look::{Look, examine};
pub use marks::Marks;
pub use plain::search_plain;
pub use trail::{Trail, is_false};
