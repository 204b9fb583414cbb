// Memos of a walk: what was made for an operator and two handles. With them stands the hash of such keys.
#![tactic(auto)]

mod hash;
mod key;
mod memo;
mod rows;

pub use hash::bucket;
pub use key::Key;
pub use memo::{Memo, NoMemo};
pub use rows::RowMemo;
