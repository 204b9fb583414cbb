ghost use Rattle.std.specs.Prelude.{◌<◌, vec_len};
ghost use Rattle.memo.specs.Rows.{Past};

use crate::key::Key;

mod calls;

// A row of a memo: a pair, and the epoch in which it was laid. A row that was never written is of epoch 0, before the
// first.
#[derive(Clone, Copy, Default)]
pub(crate) struct Row {
    key: Key,
    h: u32,
    epoch: u32,
}

// A memo of rows, one for each bucket of keys: a newer pair displaces an older one. A row counts only if it was written
// in the present epoch, so that clearing begins a new epoch and touches the rows only when the epochs run out.
#[derive(Drop)]
pub struct RowMemo {
    rows: Vec<Row>,
    epoch: u32,
    ghost some: { 0 < vec_len rows },
    ghost past: { Past epoch rows.items },
}
