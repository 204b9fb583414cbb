ghost use Rattle.std.specs.Prelude.{◌≡◌, ◌≤◌, ◌∷◌, length, IfOk};
ghost use Rattle.netlist.specs.Findings.{finding};
ghost use Rattle.netlist.specs.Signals.{joined};
ghost use Rattle.records.specs.Faults.{join_refusal};
ghost use Rattle.records.specs.Outcomes.{Shape, Meaning, TruePairs};
ghost use Rattle.records.specs.Rules.{Sound};
ghost use Rattle.records.specs.Runs.{Run, Kept};
ghost use Rattle.records.specs.Stores.{value};
ghost use Rattle.diagram.specs.Views.{view, room};
ghost use Rattle.checking.specs.Checks.{handle_of, check_event};

use super::Checked;
use crate::grading::grade_pair;
use algebra::{Algebra, Op};
use diagram::{Memo, Row, Table, TableFault};

const GRADE: u8 = Op::Grade as u8;

// Joins two handles with GRADE, and answers that handle with the finding of the two: the gravest grade, the first pattern
// that has it, and both values there.
pub fn check<G: Algebra, M: Memo>(
    table: &mut Table,
    algebra: &G,
    memo: &mut M,
    rows: &mut [Row],
    x: u32,
    y: u32,
) -> Result<Checked, TableFault>
    ensures shape { Shape (view table.old) (view table.new) (M.recalls memo.old) (M.recalls memo.new) (join_refusal G.ops (view table.old) (length rows.old) 9 x y) (handle_of result) }
    ensures meaning { Meaning G.ops (room table.old) (view table.old) (view table.new) (M.recalls memo.old) (M.recalls memo.new) (joined G.ops 9 (value G.ops (view table.old) x) (value G.ops (view table.old) y)) (handle_of result) }
    ensures found { Sound G.ops (view table.old) → TruePairs G.ops (view table.old) (M.recalls memo.old)
        → IfOk result (λ c. c.finding ≡ finding G.ops (view table.old).inputs (value G.ops (view table.old) x) (value G.ops (view table.old) y)) }
    ensures room { room table.new ≡ room table.old }
    ensures fits { (view table.new).used ≤ room table.new }
    ensures kept { (run : Run) → Kept G.ops (room table.old) run (view table.old) (M.recalls memo.old)
        → Kept G.ops (room table.old) (check_event G.ops (view table.old) x y result ∷ run) (view table.new) (M.recalls memo.new) }
{
    let handle = table.join(algebra, memo, rows, GRADE, x, y)?;
    let finding = grade_pair(table, algebra, handle, x, y);
    Ok(Checked { handle, finding })
}
