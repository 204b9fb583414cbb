ghost use Rattle.std.specs.Prelude.{◌≡◌, length, drop};
ghost use Rattle.diagram.specs.Views.{view, room};
ghost use Rattle.comparison.specs.Replays.{span_of, ReplayAnswer, replay_fault_number};
ghost use Rattle.comparison.specs.States.{handles_for, rows_for, state, Called, ReplayCalls, ReplayLeaves, ReplayLent};

use super::{Call, ReplayFault, Span, Told};
use crate::comparing::compare;
use algebra::Algebra;
use checking::{Checked, check};
use diagram::{Memo, Row, Table};
use laying::lay;
use netlist::{Line, count_outs};

impl ReplayFault {
    // The number of the refusal. No cast gives it, since a fault that is held has its own.
    pub fn number(self) -> u8
        ensures { result ≡ replay_fault_number self }
    {
        match self {
            ReplayFault::ShortList => 27,
            ReplayFault::Table(f) => f.number(),
        }
    }
}

impl Span {
    // Its lines of a list.
    pub fn of(self, lines: &[Line]) -> &[Line]
        ensures { result.now ≡ span_of lines.now self }
    {
        let from = self.from.min(lines.len());
        let count = self.count.min(lines.len() - from);
        &lines[from..from + count]
    }
}

impl Call {
    // How many handles it writes, one for each of its lines.
    fn handles_for(self, lines: &[Line]) -> usize
        ensures { result ≡ handles_for lines.now self }
    {
        match self {
            Call::Lay(span) => span.of(lines).len(),
            Call::Compare(a, b) => a.of(lines).len() + b.of(lines).len(),
            _ => 0,
        }
    }

    // How many findings it writes, one for each pair.
    fn rows_for(self, lines: &[Line]) -> usize
        ensures { result ≡ rows_for lines.now self }
    {
        match self {
            Call::Compare(a, _) => count_outs(a.of(lines)),
            _ => 0,
        }
    }
}

// Makes one call. By a `match`: a call is a value that a caller hands in, not a step of ours.
fn make_call<G: Algebra, M: Memo>(
    table: &mut Table,
    algebra: &G,
    memo: &mut M,
    rows: &mut [Row],
    lines: &[Line],
    handles: &mut [u32],
    found: &mut [Checked],
    call: Call,
) -> Told
    ensures room { room table.new ≡ room table.old }
    ensures inputs { (view table.new).inputs ≡ (view table.old).inputs }
    ensures made { Called G.ops (room table.old) (length rows.old) lines.now (state (view table.old) (M.recalls memo.old) handles.old found.old) call result (state (view table.new) (M.recalls memo.new) handles.new found.new) }
    ensures handles { drop (handles_for lines.now call) handles.new ≡ drop (handles_for lines.now call) handles.old }
    ensures found { drop (rows_for lines.now call) found.new ≡ drop (rows_for lines.now call) found.old }
{
    match call {
        Call::Input(i) => Told::Handle(table.input(algebra, memo, i)),
        Call::Constant(v) => Told::Handle(table.constant(algebra, v)),
        Call::Turn(x) => Told::Handle(table.turn(algebra, memo, rows, x)),
        Call::Join(op, x, y) => Told::Handle(table.join(algebra, memo, rows, op, x, y)),
        Call::Check(x, y) => Told::Check(check(table, algebra, memo, rows, x, y)),
        Call::Lay(span) => Told::Lay(lay(table, algebra, memo, rows, span.of(lines), handles)),
        Call::Compare(a, b) => {
            Told::Compare(compare(
                table,
                algebra,
                memo,
                rows,
                a.of(lines),
                b.of(lines),
                handles,
                found,
            ))
        }
    }
}

// Starts a table and makes the calls in order, and writes what each was told. Each call is lent the lists for handles and
// findings: whole, or, where the calls are kept apart, what the earlier ones left.
fn replay_lending<G: Algebra, M: Memo, const APART: bool>(
    table: &mut Table,
    algebra: &G,
    memo: &mut M,
    rows: &mut [Row],
    inputs: u8,
    lines: &[Line],
    calls: &[Call],
    handles: &mut [u32],
    found: &mut [Checked],
    told: &mut [Told],
) -> Result<(), ReplayFault>
    ensures answer { ReplayAnswer G.ops (room table.old) inputs lines.now calls.now (view table.old) (view table.new) (M.recalls memo.old) (M.recalls memo.new) told.old told.new result }
    ensures lent { ReplayLent APART G.ops (room table.old) inputs (length rows.old) lines.now calls.now (state (view table.old) (M.recalls memo.old) handles.old found.old) (state (view table.new) (M.recalls memo.new) handles.new found.new) told.old told.new result }
    ensures room { room table.new ≡ room table.old }
{
    if told.len() < calls.len() {
        return Err(ReplayFault::ShortList);
    }
    table.start(memo, inputs).map_err(ReplayFault::Table)?;
    // where the entries begin that no call has for itself: of a list cut to its rest, nothing is known of the front
    let mut next = 0;
    let mut row = 0;
    // by number, since after a chain over `told` nothing is known of what it wrote
    for (number, call) in calls.iter().enumerate() {
        told[number] = make_call(
            table,
            algebra,
            memo,
            rows,
            lines,
            &mut handles[next..],
            &mut found[row..],
            *call,
        );
        if APART {
            next += call.handles_for(lines).min(handles.len() - next);
            row += call.rows_for(lines).min(found.len() - row);
        }
    }
    Ok(())
}

// Starts a table and makes the calls in order, each with any numbers as handles, and writes what each was told. Each lay and
// compare is lent the whole lists for handles and findings, so that the next one may write over its entries.
pub fn replay<G: Algebra, M: Memo>(
    table: &mut Table,
    algebra: &G,
    memo: &mut M,
    rows: &mut [Row],
    inputs: u8,
    lines: &[Line],
    calls: &[Call],
    handles: &mut [u32],
    found: &mut [Checked],
    told: &mut [Told],
) -> Result<(), ReplayFault>
    ensures answer { ReplayAnswer G.ops (room table.old) inputs lines.now calls.now (view table.old) (view table.new) (M.recalls memo.old) (M.recalls memo.new) told.old told.new result }
    ensures calls { ReplayCalls G.ops (room table.old) inputs (length rows.old) lines.now calls.now (state (view table.old) (M.recalls memo.old) handles.old found.old) (state (view table.new) (M.recalls memo.new) handles.new found.new) told.old told.new result }
    ensures room { room table.new ≡ room table.old }
{
    replay_lending::<G, M, false>(
        table, algebra, memo, rows, inputs, lines, calls, handles, found, told,
    )
}

// The same, but each lay and compare has its own handles and rows, after those of the earlier ones, for as long as the lists
// last. So what each of them wrote is there at the end.
pub fn replay_apart<G: Algebra, M: Memo>(
    table: &mut Table,
    algebra: &G,
    memo: &mut M,
    rows: &mut [Row],
    inputs: u8,
    lines: &[Line],
    calls: &[Call],
    handles: &mut [u32],
    found: &mut [Checked],
    told: &mut [Told],
) -> Result<(), ReplayFault>
    ensures answer { ReplayAnswer G.ops (room table.old) inputs lines.now calls.now (view table.old) (view table.new) (M.recalls memo.old) (M.recalls memo.new) told.old told.new result }
    ensures leaves { ReplayLeaves G.ops (room table.old) inputs (length rows.old) lines.now calls.now (state (view table.old) (M.recalls memo.old) handles.old found.old) (state (view table.new) (M.recalls memo.new) handles.new found.new) told.old told.new result }
    ensures room { room table.new ≡ room table.old }
{
    replay_lending::<G, M, true>(
        table, algebra, memo, rows, inputs, lines, calls, handles, found, told,
    )
}
