// Comparing netlists on a table of diagrams.
#![tactic(auto)]

mod comparing;
mod pairing;
mod replaying;

pub use checking::{Checked, check};
pub use comparing::compare;
pub use faults::{CompareFault, LayFault, LineReason, LineRefusal, PairRefusal};
pub use laying::lay;
pub use replaying::{Call, ReplayFault, Span, Told, replay, replay_apart};
