// Records of decision diagrams, as definitions and theorems: what lists of records mean, what calls on a table of them
// are to answer, and the law of runs.
#![tactic(auto)]

mod fault;
mod record;
mod row;
mod theorems;

pub use fault::{Full, TableFault};
pub use record::Record;
pub use row::Row;
pub use theorems::{counting_stands, one_number_stands};
