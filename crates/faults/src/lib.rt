// Why a netlist is not laid on a table, and why two are not compared.
#![tactic(auto)]

mod fault;

pub use fault::{CompareFault, LayFault, LineReason, LineRefusal, PairRefusal};
