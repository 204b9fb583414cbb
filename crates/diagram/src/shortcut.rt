// Results that need no walk (its terminal cases), for any algebra: a constant; NOT of a handle that reaches settled values
// alone; and where one operand is a constant, or both are the same, what an operator gives over all values of the other
// one, if that is this value or always the same.
ghost use Rattle.std.specs.Prelude.{◌≡◌, ℕ, ◌<◌, true, T, IfSome, MatchOption};
ghost use Rattle.records.specs.Changes.{Within};
ghost use Rattle.records.specs.Stores.{up};
ghost use Rattle.records.specs.Walks.{combine};
ghost use Rattle.diagram.specs.Shortcuts.{operand, Leads, Short};
ghost use Rattle.diagram.specs.Tasks.{number_of};
ghost use Rattle.diagram.specs.Views.{view};

use crate::codes::{Codes, MOST_CODES, is_up};
use crate::handle::{Target, is_constant};
use crate::table::Table;
use crate::task::{Operation, Task};
use algebra::Algebra;

// The value of an operand: a constant has its own, any other one `v`.
fn operand(h: u32, v: u8) -> u8
    ensures { result ≡ operand h v }
{
    match Target::of(h) {
        Target::Constant(code) => code,
        Target::Place { .. } => v,
    }
}

// What the operation gives where the operand that is no constant has the value `v`.
fn value_at<G: Algebra>(algebra: &G, task: Task, v: u8) -> u8
    ensures { result ≡ combine G.ops (number_of task.operation) (operand task.x v) (operand task.y v) }
{
    task.operation
        .at(algebra, operand(task.x, v), operand(task.y, v))
}

// Whether the operation gives what is wanted for each value of a mask.
fn gives<G: Algebra, F: Fn(u8) -> u8>(algebra: &G, task: Task, reach: u16, wanted: F) -> bool
    requires { F.IsAlwaysCallable wanted }
    ensures { T result → (v : ℕ) → v < G.ops.count → up reach v ≡ true
        → F.post wanted v (combine G.ops (number_of task.operation) (operand task.x v) (operand task.y v)) }
{
    // a loop, since a closure for `all` would not know that `v` is below the most codes
    for v in 0..G::COUNT.min(MOST_CODES) {
        if is_up(reach, v) && value_at(algebra, task, v) != wanted(v) {
            return false;
        }
    }
    true
}

// The result by the values of the operand that is no constant.
fn by_values<G: Algebra>(table: &Table, codes: &Codes<G>, task: Task, lead: u32) -> Option<u32>
    requires lead { Within (view table.now) lead }
    requires leads { Leads task.x task.y lead }
    ensures { IfSome result (Short G.ops (view table.now) (number_of task.operation) task.x task.y) }
{
    let reach = table.reach_of(codes, lead);
    if gives(codes.algebra, task, reach, |v| v) {
        return Some(lead);
    }
    let some = (0..MOST_CODES).find(|v| is_up(reach, *v))?;
    let result = value_at(codes.algebra, task, some);
    if gives(codes.algebra, task, reach, |_| result) {
        return Some(result as u32);
    }
    None
}

// The handle of an operator's result, where the values that the operands have tell it.
fn joined<G: Algebra>(table: &Table, codes: &Codes<G>, task: Task) -> Option<u32>
    requires x { Within (view table.now) task.x }
    requires y { Within (view table.now) task.y }
    ensures { IfSome result (Short G.ops (view table.now) (number_of task.operation) task.x task.y) }
{
    if is_constant(task.x) {
        return by_values(table, codes, task, task.y);
    }
    if is_constant(task.y) || task.x == task.y {
        return by_values(table, codes, task, task.x);
    }
    None
}

// The handle of a task's result, where it takes no walk.
pub(crate) fn shortcut<G: Algebra>(table: &Table, codes: &Codes<G>, task: Task) -> Option<u32>
    requires x { Within (view table.now) task.x }
    requires y { Within (view table.now) task.y }
    ensures { MatchOption result
        (task.x < 16 → task.y < 16 → ⊥)
        (Short G.ops (view table.now) (number_of task.operation) task.x task.y) }
{
    // a match of both targets would make the second test also where the first fails, which slows each walk
    if is_constant(task.x) && is_constant(task.y) {
        let value = task.operation.at(codes.algebra, task.x as u8, task.y as u8);
        return Some(value as u32);
    }
    match task.operation {
        Operation::Join(_) => joined(table, codes, task),
        Operation::Turn => {
            if codes.settled(table.reach_of(codes, task.x)) {
                Some(table.negate(codes, task.x))
            } else {
                None
            }
        }
    }
}
