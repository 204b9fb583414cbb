// Trials of lists of calls. A list grows in rounds, by calls with handles that the earlier ones answered, and is replayed
// from its start in each.
use crate::audit::{Outcome, Setting};
use crate::calls::Replayed;
use crate::choosing::Chooser;
use crate::making::count_of;
use crate::numbers::is_replay_named;
use crate::printing::{PrintedCalls, PrintedLines};
use crate::trial::{Trial, UNANSWERED, UNCHECKED};
use algebra::Algebra;
use comparison::{Call, Checked, ReplayFault, Told, replay_apart};
use diagram::{Memo, Row, Table, TableFault};
use netlist::Line;
use std::alloc::{AllocError, Global};
use std::fmt;

// The most inputs that a table is to take, known here by itself.
const MOST_INPUTS: u8 = 60;

const ROUNDS: u32 = 5;

const UNTOLD: Told = Told::Handle(Ok(UNANSWERED));

// What a list of calls is made with, and how many entries for handles and findings it is lent.
#[derive(Clone, Copy)]
struct Plan {
    setting: Setting,
    handles: usize,
    found: usize,
}

impl fmt::Display for Plan {
    fn fmt<W: fmt::Write>(&self, f: &mut fmt::Formatter<W>) -> fmt::Result {
        let Setting { inputs, room, rows } = self.setting;
        let handles = self.handles;
        let found = self.found;
        write!(
            f,
            "{inputs} inputs, {room} places, {rows} work rows, {handles} handles, {found} findings"
        )
    }
}

// What a replay is lent.
#[derive(Drop)]
struct Lent {
    rows: Vec<Row>,
    handles: Vec<u32>,
    found: Vec<Checked>,
    told: Vec<Told>,
}

impl Lent {
    fn new(heap: Global, plan: Plan, told: usize) -> Result<Lent, AllocError> {
        Ok(Lent {
            rows: vec![in heap; Row::default(); plan.setting.rows]?,
            handles: vec![in heap; UNANSWERED; plan.handles]?,
            found: vec![in heap; UNCHECKED; plan.found]?,
            told: vec![in heap; UNTOLD; told]?,
        })
    }

    // The handles that a replay answered.
    fn answered(&self, heap: Global) -> Result<Vec<u32>, AllocError> {
        let told = self.told.iter().filter_map(|told| match *told {
            Told::Handle(Ok(handle)) => Some(handle),
            Told::Check(Ok(checked)) => Some(checked.handle),
            _ => None,
        });
        let laid = self.handles.iter().copied();
        told.chain(laid.filter(|handle| *handle != UNANSWERED))
            .collect(heap)
    }
}

// Two netlists in one list, as a replay takes its lines, the second one from `middle` on.
#[derive(Drop)]
struct JoinedLines {
    lines: Vec<Line>,
    middle: u32,
}

impl<'a, G: Algebra, M: Memo> Trial<'a, G, M> {
    // Mostly there is enough of everything.
    fn any_plan(&mut self) -> Plan {
        let inputs = self.dice.below(6);
        let needed = inputs + 1;
        let rows = if self.dice.one_in(10) {
            self.dice.below(needed)
        } else {
            needed
        };
        let handles = if self.dice.one_in(6) {
            self.dice.below(60)
        } else {
            2000
        };
        let found = if self.dice.one_in(6) {
            self.dice.below(12)
        } else {
            500
        };
        Plan {
            setting: Setting {
                inputs: inputs as u8,
                room: self.any_room(),
                rows: rows as usize,
            },
            handles: handles as usize,
            found: found as usize,
        }
    }

    fn any_lines(&mut self, inputs: u8) -> Result<JoinedLines, AllocError> {
        let mut maker = self.maker(inputs);
        let (mut lines, mut second) = maker.any_two(12)?;
        maker.spoil_one_in(4, &mut second);
        let middle = count_of(&lines);
        lines.extend_from_slice(&second)?;
        Ok(JoinedLines { lines, middle })
    }

    // Replays a list on a table.
    fn replay(
        &mut self,
        table: &mut Table,
        inputs: u8,
        lines: &[Line],
        calls: &[Call],
        lent: &mut Lent,
    ) -> Result<(), ReplayFault> {
        replay_apart(
            table,
            self.algebra,
            self.memo,
            &mut lent.rows,
            inputs,
            lines,
            calls,
            &mut lent.handles,
            &mut lent.found,
            &mut lent.told,
        )
    }

    // Replays a list on a new table. What it wrote, and what the audit of it comes to.
    fn try_calls(
        &mut self,
        plan: Plan,
        lines: &[Line],
        calls: &[Call],
    ) -> Result<(Lent, Outcome), AllocError> {
        let mut table = Table::new(self.heap, plan.setting.room)?;
        let mut lent = Lent::new(self.heap, plan, calls.len())?;
        let told = self.replay(&mut table, plan.setting.inputs, lines, calls, &mut lent);
        let mut audit = self.audit(&table, plan.setting)?;
        let right = audit.are_calls_right(Replayed {
            lines,
            calls,
            told: &lent.told,
            handles: &lent.handles,
            found: &lent.found,
        })?;
        let outcome = audit.outcome(right && told.is_ok());
        Ok((lent, outcome))
    }

    // Whether a list of calls is refused for too many inputs, with so many entries for what is told, as it is to be.
    fn is_refused(
        &mut self,
        plan: Plan,
        calls: &[Call],
        told: usize,
        due: ReplayFault,
    ) -> Result<bool, AllocError> {
        let mut table = Table::new(self.heap, plan.setting.room)?;
        let mut lent = Lent::new(self.heap, plan, told)?;
        let answer = self.replay(&mut table, MOST_INPUTS + 1, &[], calls, &mut lent);
        if let Err(fault) = answer {
            self.score.refuse(fault.number())?;
        }
        Ok(answer == Err(due) && is_replay_named(due))
    }

    // Whether a list of calls is refused for an entry too few for what is told, and then for too many inputs.
    fn try_refused(&mut self, plan: Plan, calls: &[Call]) -> Result<bool, AllocError> {
        let count = calls.len();
        let wide = ReplayFault::Table(TableFault::TooManyInputs);
        let short = self.is_refused(plan, calls, count.saturating_sub(1), ReplayFault::ShortList)?;
        Ok(self.is_refused(plan, calls, count, wide)? && short)
    }

    // Grows a list of calls, and replays it in each round. What the last round comes to, right if all came out right.
    fn try_rounds(
        &mut self,
        plan: Plan,
        joined: &JoinedLines,
        calls: &mut Vec<Call>,
    ) -> Result<Outcome, AllocError> {
        let mut handles = Vec::new(self.heap);
        let mut last = Outcome {
            right: true,
            places: 0,
        };
        for _ in 0..ROUNDS {
            let mut chooser = Chooser {
                maker: self.maker(plan.setting.inputs),
                handles: &handles,
                middle: joined.middle,
                end: count_of(&joined.lines),
            };
            chooser.add_calls(calls)?;
            let (lent, outcome) = self.try_calls(plan, &joined.lines, calls)?;
            last = Outcome {
                right: last.right && outcome.right,
                places: outcome.places,
            };
            handles = lent.answered(self.heap)?;
        }
        Ok(last)
    }

    // Replays a list on a table of as many places as were in use, and on one of a place less. Whether all comes out right.
    fn try_rooms(
        &mut self,
        plan: Plan,
        places: usize,
        lines: &[Line],
        calls: &[Call],
    ) -> Result<bool, AllocError> {
        let mut plan = plan;
        let mut right = true;
        for room in [places, places.saturating_sub(1)] {
            plan.setting.room = room;
            let (_, outcome) = self.try_calls(plan, lines, calls)?;
            right = right && outcome.right;
        }
        Ok(right)
    }

    // Makes a list of calls, and replays it as it grows, on smaller tables, and where it is refused as a whole.
    pub(crate) fn try_list(&mut self) -> anyhow::Result<()> {
        let plan = self.any_plan();
        let joined = self.any_lines(plan.setting.inputs)?;
        let lines = joined.lines.as_slice();
        let mut calls = Vec::new(self.heap);
        self.score.counts.lists.add(1);
        let Outcome {
            right: grown,
            places,
        } = self.try_rounds(plan, &joined, &mut calls)?;
        let fitted = self.try_rooms(plan, places, lines, &calls)?;
        let refused = self.try_refused(plan, &calls)?;
        if !grown || !fitted || !refused {
            self.score.counts.different.add(1);
            println!(self.rt;
                "right as it grew: {grown}, on smaller tables: {fitted}, refused: {refused}"
            )?;
            println!(self.rt; "{plan}")?;
            println!(self.rt; "{}", PrintedLines(lines))?;
            println!(self.rt; "{}", PrintedCalls(&calls))?;
        }
        Ok(())
    }
}
