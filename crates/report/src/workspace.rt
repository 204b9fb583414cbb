ghost use Rattle.std.specs.Prelude.{◌≡◌, ◌+◌, ◌<◌, vec_len};

use comparison::Checked;
use diagram::{Row, RowMemo, Table};
use netlist::Line;

mod comparing;
mod making;
mod reporting;

// All that a report needs: a table, a memo, and lists for the lines of two netlists and what they come to. It is made once,
// and `report` allocates nothing.
#[derive(Drop)]
pub struct Workspace {
    table: Table,
    memo: RowMemo,
    rows: Vec<Row>,
    first: Vec<Line>,
    second: Vec<Line>,
    handles: Vec<u32>,
    found: Vec<Checked>,
    ghost deep: { vec_len rows ≡ 61 },
    ghost few: { vec_len first < 100000 },
    ghost even: { vec_len second ≡ vec_len first },
    ghost long: { vec_len handles ≡ vec_len first + vec_len first },
    ghost paired: { vec_len found ≡ vec_len first },
}

// How large netlists and tables may be: the lines of a netlist, at most 99,999, the places of the table, at most 1,048,576,
// and the rows of the memo, 2 to the power of so many bits.
#[derive(Clone, Copy, PartialEq, Eq, Debug)]
pub struct Limits {
    pub lines: usize,
    pub places: usize,
    pub memo_bits: u8,
}
