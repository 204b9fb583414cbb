// Comparing two netlists on a table.
ghost use Rattle.std.specs.Prelude.{◌≡◌, ◌+◌, ◌<◌, ◌≤◌, ◌∷◌, length, take, drop};
ghost use Rattle.netlist.specs.Lines.{out_count};
ghost use Rattle.records.specs.Runs.{Run, Kept};
ghost use Rattle.diagram.specs.Views.{view, room};
ghost use Rattle.comparison.specs.Compares.{second_part, parts_event, PartsCompared, Compared, compare_event};

use crate::pairing::check_pairs;
use algebra::Algebra;
use checking::Checked;
use diagram::{Memo, Row, Table};
use faults::CompareFault;
use laying::lay;
use netlist::{Line, count_pairs};

// Lays both netlists, the second one's handles after the first one's, and checks their OUT lines pairwise, a row for each.
// The netlists and lists stay apart: each clause names one of them, and a struct of `&mut`s needs more clauses, on
// references.
fn compare_parts<G: Algebra, M: Memo>(
    table: &mut Table,
    algebra: &G,
    memo: &mut M,
    rows: &mut [Row],
    first: &[Line],
    second: &[Line],
    handles: &mut [u32],
    found: &mut [Checked],
) -> Result<(), CompareFault>
    requires long { length first.now + length second.now ≤ length handles.old }
    requires even { out_count second.now ≡ out_count first.now }
    requires room { length found.old ≡ out_count first.now }
    requires rows { (view table.old).inputs < length rows.old }
    ensures compared { PartsCompared G.ops (view table.old) (view table.new) first.now second.now (take (length first.now) handles.old) (take (length first.now) handles.new) (second_part first.now second.now handles.old) (second_part first.now second.now handles.new) found.old found.new result }
    ensures rest { drop (length first.now + length second.now) handles.new ≡ drop (length first.now + length second.now) handles.old }
    ensures room { room table.new ≡ room table.old }
    ensures kept { (run : Run) → Kept G.ops (room table.old) run (view table.old) (M.recalls memo.old)
        → Kept G.ops (room table.old) (parts_event first.now second.now (take (length first.now) handles.new) (second_part first.now second.now handles.new) found.new result ∷ run) (view table.new) (M.recalls memo.new) }
{
    let middle = first.len();
    let end = middle + second.len();
    lay(table, algebra, memo, rows, first, &mut handles[0..middle]).map_err(CompareFault::First)?;
    lay(
        table,
        algebra,
        memo,
        rows,
        second,
        &mut handles[middle..end],
    )
    .map_err(CompareFault::Second)?;
    check_pairs(
        table,
        algebra,
        memo,
        rows,
        first,
        second,
        &handles[0..middle],
        &handles[middle..end],
        found,
    )?;
    Ok(())
}

// Compares two netlists: lays both, the second one's handles after the first one's in the same list, and checks pair n, the
// n-th OUT line of each, into row n. Answers the number of pairs. What comes before a refused line or pair stays.
pub fn compare<G: Algebra, M: Memo>(
    table: &mut Table,
    algebra: &G,
    memo: &mut M,
    rows: &mut [Row],
    first: &[Line],
    second: &[Line],
    handles: &mut [u32],
    found: &mut [Checked],
) -> Result<usize, CompareFault>
    ensures compared { Compared G.ops (view table.old) (view table.new) (M.recalls memo.old) (M.recalls memo.new) (length rows.old) first.now second.now handles.old handles.new found.old found.new result }
    ensures room { room table.new ≡ room table.old }
    ensures kept { (run : Run) → Kept G.ops (room table.old) run (view table.old) (M.recalls memo.old)
        → Kept G.ops (room table.old) (compare_event first.now second.now handles.new found.new result ∷ run) (view table.new) (M.recalls memo.new) }
{
    let pairs = count_pairs(first, second, handles.len(), found.len())?;
    table.check_rows(rows).map_err(CompareFault::Table)?;
    compare_parts(
        table,
        algebra,
        memo,
        rows,
        first,
        second,
        handles,
        &mut found[..pairs],
    )?;
    Ok(pairs)
}
