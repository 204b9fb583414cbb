// Laying a netlist on a table: a handle for each line.
ghost use Rattle.std.specs.Prelude.{◌≡◌, ◌<◌, ◌≤◌, ◌∷◌, length, take, None, MatchResult};
ghost use Rattle.netlist.specs.Faults.{line_fault};
ghost use Rattle.records.specs.Changes.{Grows};
ghost use Rattle.records.specs.Steps.{Back};
ghost use Rattle.records.specs.Runs.{Run, Kept, answer_of, lay};
ghost use Rattle.diagram.specs.Views.{view, room};
ghost use Rattle.laying.specs.Lays.{TableRefuses, line_answer, LineKept, Lined, Laid, lay_answers};

use algebra::Algebra;
use diagram::{Memo, Row, Table, TableFault};
use faults::{LayFault, LineReason};
use netlist::{Kind, Line, check_line};

// The handle of a line that passed its own tests, from those of the lines before it.
fn make_line<G: Algebra, M: Memo>(
    table: &mut Table,
    algebra: &G,
    memo: &mut M,
    rows: &mut [Row],
    number: usize,
    line: Line,
    handles: &[u32],
) -> Result<u32, TableFault>
    requires accepted { line_fault G.ops (view table.old).inputs number line ≡ None }
    requires within { number ≤ length handles.now }
    requires rows { (view table.old).inputs < length rows.old }
    ensures outcome { MatchResult result
        (λ _. Grows (view table.old) (view table.new))
        (λ f. Back (view table.old) (view table.old).used (view table.new) × TableRefuses G.ops (view table.new) (take number handles.now) f) }
    ensures room { room table.new ≡ room table.old }
    ensures kept { LineKept G.ops (room table.old) (view table.old) (view table.new) (M.recalls memo.old) (M.recalls memo.new) (take number handles.now) line (answer_of result) }
{
    match Kind::try_from(line.kind).unwrap() {
        Kind::Input => table.input(algebra, memo, line.first as u8),
        Kind::Const => table.constant(algebra, line.first as u8),
        Kind::Not => table.turn(algebra, memo, rows, handles[line.first as usize]),
        Kind::Out => Ok(handles[line.first as usize]),
        Kind::And | Kind::Or | Kind::IfAnd | Kind::IfOr | Kind::Wire => {
            let x = handles[line.first as usize];
            let y = handles[line.second as usize];
            table.join(algebra, memo, rows, line.kind, x, y)
        }
    }
}

// The handle of a line: its own tests come first, then those of the table.
fn lay_line<G: Algebra, M: Memo>(
    table: &mut Table,
    algebra: &G,
    memo: &mut M,
    rows: &mut [Row],
    number: usize,
    line: Line,
    handles: &[u32],
) -> Result<u32, LineReason>
    requires within { number ≤ length handles.now }
    requires rows { (view table.old).inputs < length rows.old }
    ensures lined { Lined G.ops (view table.old) (view table.new) (M.recalls memo.old) (M.recalls memo.new) (take number handles.now) number line result }
    ensures room { room table.new ≡ room table.old }
    ensures kept { LineKept G.ops (room table.old) (view table.old) (view table.new) (M.recalls memo.old) (M.recalls memo.new) (take number handles.now) line (line_answer result) }
{
    check_line(algebra, table.inputs(), number, line)?;
    Ok(make_line(table, algebra, memo, rows, number, line, handles)?)
}

// Lays a netlist: writes a handle for each line, made from those of its operand lines. The handles before a refused line
// stay.
pub fn lay<G: Algebra, M: Memo>(
    table: &mut Table,
    algebra: &G,
    memo: &mut M,
    rows: &mut [Row],
    lines: &[Line],
    handles: &mut [u32],
) -> Result<(), LayFault>
    ensures laid { Laid G.ops (view table.old) (view table.new) (M.recalls memo.old) (M.recalls memo.new) (length rows.old) lines.now handles.old handles.new result }
    ensures room { room table.new ≡ room table.old }
    ensures kept { (run : Run) → Kept G.ops (room table.old) run (view table.old) (M.recalls memo.old)
        → Kept G.ops (room table.old) (lay lines.now (lay_answers lines.now handles.new result) ∷ run) (view table.new) (M.recalls memo.new) }
{
    if handles.len() < lines.len() {
        return Err(LayFault::ShortList);
    }
    table.check_rows(rows).map_err(LayFault::Table)?;
    for (number, line) in lines.iter().enumerate() {
        // by its number, since the line reads the handles so far
        let h = lay_line(table, algebra, memo, rows, number, *line, handles).map_err(
            |fault| fault.at(number),
        )?;
        handles[number] = h;
    }
    Ok(())
}
