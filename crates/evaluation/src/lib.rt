// The evaluator of netlists that goes pattern by pattern, and the comparison by trying every pattern.
#![tactic(auto)]

mod comparison;
mod values;

pub use comparison::{check_comparison, compare_by_patterns};
pub use values::evaluate;
