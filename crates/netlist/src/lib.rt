// Combinational netlists: their lines and patterns, and what the lines mean.
#![tactic(auto)]

mod cases;
mod checks;
mod fault;
mod finding;
mod kind;
mod line;
mod pattern;

pub use cases::worked_cases;
pub use checks::{check_line, check_lines, count_outs, count_pairs};
pub use fault::{ComparisonFault, CountFault, EvaluationFault, LineFault, Located, NetlistFault};
pub use finding::{Difference, Finding, HasFinding};
pub use kind::{Kind, UnknownKind};
pub use line::Line;
pub use pattern::{MOST_INPUTS, Pattern, PatternFault};
