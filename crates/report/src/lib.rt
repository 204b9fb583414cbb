// The report on two netlists, from their text to the printed answer.
#![tactic(auto)]

mod fault;
mod workspace;

pub use fault::ReportFault;
pub use workspace::{Limits, Workspace};
