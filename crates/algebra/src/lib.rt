// Algebras of signal values: how many values there are, what NOT and the operators make of them, and which are settled.
#![tactic(auto)]

mod code;
mod five;
mod interface;
mod operator;
mod two;

pub use five::FiveValued;
pub use interface::Algebra;
pub use operator::{Op, UnknownOperator};
pub use two::TwoValued;
