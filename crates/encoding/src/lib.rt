// The encoding of a rule as clauses: its terms as a table of entries, each equal term once, and the
// entries as circuits in the table's order.
#![tactic(auto)]

mod entry;
mod numbering;
mod table;

pub use entry::{DivisionWord, Entry};
pub use table::Table;
