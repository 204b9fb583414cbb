// Whether the lines of a netlist may be evaluated or laid.
ghost use Rattle.std.specs.Prelude.{◌≡◌, ◌≤◌, length, Some, None, MatchResult};
ghost use Rattle.netlist.specs.Lines.{out_count};
ghost use Rattle.netlist.specs.Faults.{line_fault, first_fault};
ghost use Rattle.netlist.specs.Counts.{Counts, CountsRefused};

use crate::fault::{CountFault, LineFault, Located, NetlistFault};
use crate::kind::Kind;
use crate::line::Line;
use algebra::Algebra;

// Whether a line has a kind that there is and operands that it may have, from its number and the number of inputs.
pub fn check_line<G: Algebra>(
    algebra: &G,
    inputs: u8,
    number: usize,
    line: Line,
) -> Result<(), LineFault>
    ensures { MatchResult result
        (λ _. line_fault G.ops inputs number line ≡ None)
        (λ e. line_fault G.ops inputs number line ≡ Some e) }
{
    let Ok(kind) = Kind::try_from(line.kind) else {
        return Err(LineFault::NoSuchKind);
    };
    let earlier = |operand: u32| (operand as usize) < number;
    match kind {
        Kind::Input if line.first >= u32::from(inputs) => Err(LineFault::NoSuchInput),
        Kind::Const if line.first >= u32::from(G::COUNT) => Err(LineFault::NoSuchCode),
        Kind::Wire if !algebra.has_wire() => Err(LineFault::NoSuchKind),
        Kind::Input | Kind::Const => Ok(()),
        Kind::Not | Kind::Out if earlier(line.first) => Ok(()),
        _ if earlier(line.first) && earlier(line.second) => Ok(()),
        _ => Err(LineFault::NotEarlier),
    }
}

// Whether each line may be evaluated or laid; else the first that is refused.
pub fn check_lines<G: Algebra>(algebra: &G, inputs: u8, lines: &[Line]) -> Result<(), NetlistFault>
    ensures { MatchResult result
        (λ _. first_fault G.ops inputs 0 lines.now ≡ None)
        (λ e. first_fault G.ops inputs 0 lines.now ≡ Some e) }
{
    for (number, line) in lines.iter().enumerate() {
        check_line(algebra, inputs, number, *line).map_err(|fault| Located {
            line: number,
            fault,
        })?;
    }
    Ok(())
}

// How many OUT lines there are.
pub fn count_outs(lines: &[Line]) -> usize
    ensures value { result ≡ out_count lines.now }
    ensures few { result ≤ length lines.now }
{
    lines.iter().filter(|line| line.is_out()).count()
}

// How many pairs of OUT lines two netlists have, where they can be compared with room for so many values and rows for so
// many findings.
pub fn count_pairs(
    first: &[Line],
    second: &[Line],
    values: usize,
    rows: usize,
) -> Result<usize, CountFault>
    ensures { MatchResult result
        (λ pairs. (pairs ≡ out_count first.now) × Counts first.now second.now values rows)
        (λ e. CountsRefused first.now second.now values rows e) }
{
    if values < first.len() || values - first.len() < second.len() {
        return Err(CountFault::ShortList);
    }
    let pairs = count_outs(first);
    if rows < pairs {
        return Err(CountFault::FewFindings);
    }
    if count_outs(second) != pairs {
        return Err(CountFault::OutCounts);
    }
    Ok(pairs)
}
