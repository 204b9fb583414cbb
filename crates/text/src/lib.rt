// Rows of 24 characters and a line feed: the reader of netlists and the writers of report rows.
#![tactic(auto)]

mod fault;
mod field;
mod header;
mod pairs;
mod reader;
mod row;
mod writer;

pub use fault::{PairFault, ReadFault, RowFault};
pub use header::{Header, Pair, Values};
pub use pairs::read_pair;
pub use reader::read_netlist;
pub use writer::{Summary, write_fault, write_findings, write_summary};
