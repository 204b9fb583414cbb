// The calls with one result, and the start. Each makes its tests in a fixed order, leaves a table that was full as it
// was, and keeps the law of runs: a run that is kept before a call is kept with the call added to it. The clause `fits`
// stands in each call that gives a handle, since callers do not see what the places hold to. Memo and rows are lent to each
// call: a struct that held them beside the table would ask a clause of each method for each `&mut`, that it is still
// the same one.
ghost use Rattle.std.specs.Prelude.{◌≡◌, ◌<◌, ◌≤◌, [], ◌∷◌, length, None, MatchResult, OnOk};
ghost use Rattle.algebra.specs.Ops.{Ops};
ghost use Rattle.netlist.specs.Signals.{input as input_signal, constant as constant_signal, turned, joined};
ghost use Rattle.records.specs.Faults.{start_refusal, input_refusal, constant_refusal, turn_refusal, join_refusal};
ghost use Rattle.memo.specs.Memos.{Pairs};
ghost use Rattle.records.specs.Changes.{Within};
ghost use Rattle.records.specs.Outcomes.{Begun, Stopped, Shape, Means, Meaning, TruePairs};
ghost use Rattle.records.specs.Rules.{Sound, Lawful};
ghost use Rattle.records.specs.Walks.{combined};
ghost use Rattle.diagram.specs.Tasks.{number_of};
ghost use Rattle.records.specs.Runs.{Run, Kept, answer_of, given, input as input_event, constant as constant_event, turn as turn_event, join as join_event};
ghost use Rattle.records.specs.Stores.{value};
ghost use Rattle.diagram.specs.Views.{view, room};

use crate::codes::Codes;
use crate::table::Table;
use crate::task::{Operation, Task};
use crate::walk::walk;
use algebra::Algebra;
use memo::Memo;
use netlist::MOST_INPUTS;
use records::{Row, TableFault};

// The codes of the two values of an input's bit.
const BIT_DOWN: u32 = 0;

const BIT_UP: u32 = 1;

impl Table {
    // Empties the table and the memo, and sets the number of inputs.
    pub fn start<M: Memo>(&mut self, memo: &mut M, inputs: u8) -> Result<(), TableFault>
        ensures outcome { MatchResult result
            (λ _. Begun inputs (view self.new) (M.recalls memo.new) (start_refusal inputs))
            (λ f. Stopped (view self.old) (view self.new) (M.recalls memo.old) (M.recalls memo.new) (start_refusal inputs) f) }
        ensures room { room self.new ≡ room self.old }
        ensures kept { OnOk result ((o : Ops) → Kept o (room self.old) [] (view self.new) (M.recalls memo.new)) }
    {
        if inputs > MOST_INPUTS {
            return Err(TableFault::TooManyInputs);
        }
        self.restart(inputs);
        memo.clear();
        Ok(())
    }

    // The handle of an input.
    pub fn input<G: Algebra, M: Memo>(
        &mut self,
        algebra: &G,
        memo: &mut M,
        input: u8,
    ) -> Result<u32, TableFault>
        ensures shape { Shape (view self.old) (view self.new) (M.recalls memo.old) (M.recalls memo.new) (input_refusal (view self.old) input) result }
        ensures meaning { Meaning G.ops (room self.old) (view self.old) (view self.new) (M.recalls memo.old) (M.recalls memo.new) (input_signal (view self.old).inputs input) result }
        ensures room { room self.new ≡ room self.old }
        ensures fits { (view self.new).used ≤ room self.new }
        ensures kept { (run : Run) → Kept G.ops (room self.old) run (view self.old) (M.recalls memo.old) → Kept G.ops (room self.old) (input_event input (answer_of result) ∷ run) (view self.new) (M.recalls memo.new) }
    {
        if input >= self.inputs() {
            return Err(TableFault::NoSuchInput);
        }
        let used = self.used();
        let made = self.make(&Codes::of(algebra), input, BIT_DOWN, BIT_UP);
        self.settle(memo, used, made)
    }

    // The handle of a value, which is its code. It takes no place, so that table and memo stay as they are.
    pub fn constant<G: Algebra>(&self, _algebra: &G, code: u8) -> Result<u32, TableFault>
        ensures shape { (P : Pairs) → Shape (view self.now) (view self.now) P P (constant_refusal G.ops code) result }
        ensures meaning { (P : Pairs) → Meaning G.ops (room self.now) (view self.now) (view self.now) P P (constant_signal code) result }
        ensures fits { (view self.now).used ≤ room self.now }
        ensures kept { (P : Pairs) (run : Run) → Kept G.ops (room self.now) run (view self.now) P → Kept G.ops (room self.now) (constant_event code (answer_of result) ∷ run) (view self.now) P }
    {
        if code >= G::COUNT {
            return Err(TableFault::NoSuchCode);
        }
        Ok(code as u32)
    }

    // The walk of a task; a table that it finds full is left as it was.
    #[inline(always)]
    fn apply<G: Algebra, M: Memo>(
        &mut self,
        codes: &Codes<G>,
        memo: &mut M,
        rows: &mut [Row],
        task: Task,
    ) -> Result<u32, TableFault>
        requires x { Within (view self.old) task.x }
        requires y { Within (view self.old) task.y }
        requires rows { (view self.old).inputs < length rows.old }
        ensures shape { Shape (view self.old) (view self.new) (M.recalls memo.old) (M.recalls memo.new) None result }
        ensures meaning { Sound G.ops (view self.old) → TruePairs G.ops (view self.old) (M.recalls memo.old) → Lawful G.ops (view self.old) task.x → Lawful G.ops (view self.old) task.y
            → Means G.ops (room self.old) (view self.old) (view self.new) (M.recalls memo.new) (combined G.ops (view self.old) (number_of task.operation) task.x task.y) result }
        ensures room { room self.new ≡ room self.old }
    {
        let used = self.used();
        let made = walk(self, codes, memo, rows, task);
        self.settle(memo, used, made)
    }

    // The handle of the NOT of a handle's signal.
    pub fn turn<G: Algebra, M: Memo>(
        &mut self,
        algebra: &G,
        memo: &mut M,
        rows: &mut [Row],
        x: u32,
    ) -> Result<u32, TableFault>
        ensures shape { Shape (view self.old) (view self.new) (M.recalls memo.old) (M.recalls memo.new) (turn_refusal G.ops (view self.old) (length rows.old) x) result }
        ensures meaning { Meaning G.ops (room self.old) (view self.old) (view self.new) (M.recalls memo.old) (M.recalls memo.new) (turned G.ops (value G.ops (view self.old) x)) result }
        ensures room { room self.new ≡ room self.old }
        ensures fits { (view self.new).used ≤ room self.new }
        ensures kept { (run : Run) → Kept G.ops (room self.old) run (view self.old) (M.recalls memo.old) → Kept G.ops (room self.old) (turn_event (given G.ops (view self.old) x) (answer_of result) ∷ run) (view self.new) (M.recalls memo.new) }
    {
        self.check_rows(rows)?;
        let codes = Codes::of(algebra);
        self.check_lawful(&codes, x)?;
        let operation = Operation::Turn;
        self.apply(&codes, memo, rows, Task { operation, x, y: x })
    }

    // The handle of what an operator, by its number, gives of two handles' signals.
    pub fn join<G: Algebra, M: Memo>(
        &mut self,
        algebra: &G,
        memo: &mut M,
        rows: &mut [Row],
        op: u8,
        x: u32,
        y: u32,
    ) -> Result<u32, TableFault>
        ensures shape { Shape (view self.old) (view self.new) (M.recalls memo.old) (M.recalls memo.new) (join_refusal G.ops (view self.old) (length rows.old) op x y) result }
        ensures meaning { Meaning G.ops (room self.old) (view self.old) (view self.new) (M.recalls memo.old) (M.recalls memo.new) (joined G.ops op (value G.ops (view self.old) x) (value G.ops (view self.old) y)) result }
        ensures room { room self.new ≡ room self.old }
        ensures fits { (view self.new).used ≤ room self.new }
        ensures kept { (run : Run) → Kept G.ops (room self.old) run (view self.old) (M.recalls memo.old) → Kept G.ops (room self.old) (join_event op (given G.ops (view self.old) x) (given G.ops (view self.old) y) (answer_of result) ∷ run) (view self.new) (M.recalls memo.new) }
    {
        self.check_rows(rows)?;
        let operator = algebra.operator(op).ok_or(TableFault::NoSuchOperator)?;
        let codes = Codes::of(algebra);
        self.check_lawful(&codes, x)?;
        self.check_lawful(&codes, y)?;
        let operation = Operation::Join(operator);
        self.apply(&codes, memo, rows, Task { operation, x, y })
    }
}
