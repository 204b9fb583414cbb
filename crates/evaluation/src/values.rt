// The evaluator that goes straight from the lines to their values on one pattern.
ghost use Rattle.std.specs.Prelude.{◌≡◌, ◌+◌, ◌<◌, ◌≤◌, List, ◌++◌, length, drop, None, MatchResult, slice_index_or};
ghost use Rattle.algebra.specs.Operators.{op_number};
ghost use Rattle.netlist.specs.Signals.{Signal};
ghost use Rattle.netlist.specs.Lines.{line_signal, line_signals};
ghost use Rattle.netlist.specs.Faults.{line_fault, first_fault};
ghost use Rattle.netlist.specs.Evaluations.{values_at, Valued, Refused};

use algebra::{Algebra, Op};
use netlist::{EvaluationFault, Kind, Line, Pattern, check_lines};

// What an operator gives of the values of a line's operands.
fn join<G: Algebra>(algebra: &G, op: Op, line: Line, values: &[u8]) -> u8
    requires first { line.first < length values.now }
    requires second { line.second < length values.now }
    ensures { result ≡ G.ops.op (op_number op) (slice_index_or values.now line.first 0) (slice_index_or values.now line.second 0) }
{
    algebra.operate(
        op,
        values[line.first as usize],
        values[line.second as usize],
    )
}

// The value of a line on a pattern, from those of the earlier lines. The operators stand in the match of the kinds: one arm
// for all, with a match of its own behind it, made `patterns` a fifth slower in five values, and a sixth faster in two.
fn line_value<G: Algebra>(
    algebra: &G,
    pattern: Pattern,
    number: usize,
    line: Line,
    values: &[u8],
) -> u8
    requires accepted { line_fault G.ops pattern.width number line ≡ None }
    requires within { number ≤ length values.now }
    ensures { (ss : List Signal) → length ss ≡ number → Valued pattern.number ss values.now → result ≡ line_signal G.ops pattern.width ss line pattern.number }
{
    match Kind::try_from(line.kind).unwrap() {
        Kind::Input => pattern.bit(line.first as u8),
        Kind::Const => line.first as u8,
        Kind::Not => algebra.turn(values[line.first as usize]),
        Kind::Out => values[line.first as usize],
        Kind::And => join(algebra, Op::And, line, values),
        Kind::Or => join(algebra, Op::Or, line, values),
        Kind::IfAnd => join(algebra, Op::IfAnd, line, values),
        Kind::IfOr => join(algebra, Op::IfOr, line, values),
        Kind::Wire => join(algebra, Op::Wire, line, values),
    }
}

// Writes the value of each line on the pattern.
pub(crate) fn fill_values<G: Algebra>(
    algebra: &G,
    lines: &[Line],
    pattern: Pattern,
    values: &mut [u8],
)
    requires accepted { first_fault G.ops pattern.width 0 lines.now ≡ None }
    requires room { length lines.now ≤ length values.old }
    ensures { values.new ≡ values_at pattern.number (line_signals G.ops pattern.width lines.now) ++ drop (length lines.now) values.old }
{
    // by index, since each value is made from those before it in the same list
    for (number, line) in lines.iter().enumerate() {
        values[number] = line_value(algebra, pattern, number, *line, values);
    }
}

// The value of each line on a pattern, into a list.
pub fn evaluate<G: Algebra>(
    algebra: &G,
    lines: &[Line],
    pattern: Pattern,
    values: &mut [u8],
) -> Result<(), EvaluationFault>
    ensures { MatchResult result
        (λ _. (first_fault G.ops pattern.width 0 lines.now ≡ None) × (length lines.now ≤ length values.old) × (values.new ≡ values_at pattern.number (line_signals G.ops pattern.width lines.now) ++ drop (length lines.now) values.old))
        (λ e. Refused G.ops pattern.width lines.now (length values.old) e × (values.new ≡ values.old)) }
{
    if values.len() < lines.len() {
        return Err(EvaluationFault::ShortList);
    }
    check_lines(algebra, pattern.width(), lines)?;
    fill_values(algebra, lines, pattern, values);
    Ok(())
}
