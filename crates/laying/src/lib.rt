// Laying a netlist on a table of diagrams: a handle for each of its lines.
#![tactic(auto)]

mod laying;

pub use laying::lay;
