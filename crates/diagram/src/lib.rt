// Shared decision diagrams of signals: records with NOT marks, one handle for one signal.
#![tactic(auto)]

mod calls;
mod codes;
mod handle;
mod places;
mod readings;
mod shortcut;
mod table;
mod task;
mod walk;

pub use memo::{Key, Memo, NoMemo, RowMemo};
pub use records::{Record, Row, TableFault, counting_stands, one_number_stands};
pub use table::Table;
