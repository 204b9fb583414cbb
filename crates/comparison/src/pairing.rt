// Checking the OUT lines of two netlists pairwise.
ghost use Rattle.std.specs.Prelude.{◌≡◌, ℕ, ◌<◌, ◌≤◌, true, List, ◌∷◌, ◌++◌, length, drop, slice_index_or};
ghost use Rattle.std.specs.List.{position_or_len};
ghost use Rattle.netlist.specs.Lines.{is_out, outs, out_count};
ghost use Rattle.records.specs.Runs.{Run, Kept};
ghost use Rattle.diagram.specs.Views.{view, room};
ghost use Rattle.laying.specs.Lays.{blank_line};
ghost use Rattle.comparison.specs.Compares.{PairsChecked, pairs_event, no_pairs};

use algebra::Algebra;
use checking::{Checked, check};
use diagram::{Memo, Row, Table};
use faults::PairRefusal;
use netlist::Line;

// How many lines come before the first OUT line.
fn before_out(lines: &[Line]) -> usize
    ensures { result ≡ position_or_len is_out lines.now }
{
    lines
        .iter()
        .position(|line| line.is_out())
        .unwrap_or(lines.len())
}

// The number of the next OUT line, from a line on. There is one, so the answer is always a line's number.
fn next_out(lines: &[Line], from: usize) -> usize
    requires inside { from ≤ length lines.now }
    requires due { 0 < out_count (drop from lines.now) }
    ensures within { result < length lines.now }
    ensures found { is_out (slice_index_or lines.now result blank_line) ≡ true }
    ensures skipped { (xs : List ℕ) → length xs ≡ length lines.now
        → outs (drop from lines.now) (drop from xs) ≡ outs (drop result lines.now) (drop result xs) }
{
    from + before_out(&lines[from..])
}

// Checks pair n, the n-th OUT line of each netlist, into row n, from the handles of the lines.
pub(crate) fn check_pairs<G: Algebra, M: Memo>(
    table: &mut Table,
    algebra: &G,
    memo: &mut M,
    rows: &mut [Row],
    first: &[Line],
    second: &[Line],
    left: &[u32],
    right: &[u32],
    found: &mut [Checked],
) -> Result<(), PairRefusal>
    requires left { length left.now ≡ length first.now }
    requires right { length right.now ≡ length second.now }
    requires even { out_count second.now ≡ out_count first.now }
    requires room { length found.old ≡ out_count first.now }
    requires rows { (view table.old).inputs < length rows.old }
    ensures checked { PairsChecked G.ops (view table.old) (view table.new) (left.now ++ right.now) found.old found.new result }
    ensures room { room table.new ≡ room table.old }
    ensures kept { (run : Run) → Kept G.ops (room table.old) (no_pairs first.now second.now left.now right.now ∷ run) (view table.old) (M.recalls memo.old)
        → Kept G.ops (room table.old) (pairs_event first.now second.now left.now right.now found.new result ∷ run) (view table.new) (M.recalls memo.new) }
{
    // places beside the pair's number: a `for` over a chain of the OUT lines has no invariant in a generic function yet
    let mut from_left = 0;
    let mut from_right = 0;
    for (pair, row) in found.iter_mut().enumerate() {
        let x = next_out(first, from_left);
        let y = next_out(second, from_right);
        *row = check(table, algebra, memo, rows, left[x], right[y]).map_err(|fault| PairRefusal {
            pair,
            fault,
        })?;
        from_left = x + 1;
        from_right = y + 1;
    }
    Ok(())
}
