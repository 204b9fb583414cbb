// Checking two handles of a table of diagrams: how gravely their signals differ, and where first.
#![tactic(auto)]

mod checking;
mod grading;

pub use checking::{Checked, check};
