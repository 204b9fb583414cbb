// The walk over two handles by which every NOT and every operator is done (apply, with its computed table).
ghost use Rattle.std.specs.Prelude.{◌≡◌, ◌+◌, ◌<◌, min, length};
ghost use Rattle.diagram.specs.Tasks.{number_of};
ghost use Rattle.records.specs.Changes.{Within, Grows};
ghost use Rattle.records.specs.Stores.{level};
ghost use Rattle.diagram.specs.Views.{view, room};
ghost use Rattle.records.specs.Walks.{WalkShape, Walked};

use crate::codes::Codes;
use crate::shortcut::shortcut;
use crate::table::Table;
use crate::task::Task;
use algebra::Algebra;
use memo::Memo;
use records::{Full, Row};

// The handle of a task's result. Both handles are split at the input that either tests first; the walk goes down the 0
// sides, then the 1 sides, and makes the record of the two. Each level has the first of its rows, and lends the others to
// the next.
pub(crate) fn walk<G: Algebra, M: Memo>(
    table: &mut Table,
    codes: &Codes<G>,
    memo: &mut M,
    rows: &mut [Row],
    task: Task,
) -> Result<u32, Full>
    requires x { Within (view table.old) task.x }
    requires y { Within (view table.old) task.y }
    requires rows { (view table.old).inputs < length rows.old + min (level (view table.old) task.x) (level (view table.old) task.y) }
    ensures grows { Grows (view table.old) (view table.new) }
    ensures room { room table.new ≡ room table.old }
    ensures shape { WalkShape (view table.old) (view table.new) task.x task.y result }
    ensures meaning { Walked G.ops (room table.old) (view table.old) (view table.new) (M.recalls memo.old) (M.recalls memo.new) (number_of task.operation) task.x task.y result }
{
    if let Some(h) = shortcut(table, codes, task) {
        return Ok(h);
    }
    let (own, rest) = rows.split_at_mut(1);
    let own = &mut own[0];
    let input = table.level(task.x).min(table.level(task.y));
    let key = task.key();
    if let Some(h) = memo.get(key) {
        if table.is_from(h, input) {
            return Ok(h);
        }
    }
    *own = table.cut(codes, task.x, task.y, input);
    let down = Task {
        x: own.low,
        y: own.low_other,
        ..task
    };
    own.low = walk(table, codes, memo, rest, down)?;
    let up = Task {
        x: own.high,
        y: own.high_other,
        ..task
    };
    let high = walk(table, codes, memo, rest, up)?;
    let h = table.make(codes, own.input, own.low, high)?;
    memo.put(key, h);
    Ok(h)
}
