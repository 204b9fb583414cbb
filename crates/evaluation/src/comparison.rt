// Comparing two netlists by trying every pattern.
ghost use Rattle.std.specs.Prelude.{◌≡◌, ℕ, ◌+◌, ◌<◌, ◌≤◌, ◌==◌, not, List, ◌++◌, length, take, drop, take_while, IfOk, None, MatchResult, slice_index_or};
ghost use Rattle.std.specs.List.{list_any};
ghost use Rattle.netlist.specs.Signals.{Signal};
ghost use Rattle.netlist.specs.Lines.{line_signals, outs, out_count};
ghost use Rattle.netlist.specs.Faults.{first_fault};
ghost use Rattle.netlist.specs.Evaluations.{values_at};
ghost use Rattle.netlist.specs.Findings.{finding_below, findings, findings_below, zipped};
ghost use Rattle.netlist.specs.Comparisons.{Accepted, Refused};
ghost use Rattle.netlist.specs.Verdicts.{Verdict, out_signal};
ghost use Rattle.netlist.specs.declared.finding.Finding.TheVariants.{Clean};

use crate::values::fill_values;
use algebra::{Algebra, Op};
use netlist::{
    ComparisonFault, Difference, Finding, Line, MOST_INPUTS, Pattern, check_lines, count_pairs,
};

// Moves the values of the OUT lines to the front, in order. In place, so the next free place is counted: a slice has no
// `retain`.
fn keep_outs(lines: &[Line], values: &mut [u8])
    requires { length lines.now ≤ length values.old }
    ensures kept { take (out_count lines.now) values.new ≡ outs lines.now values.old }
    ensures rest { drop (length lines.now) values.new ≡ drop (length lines.now) values.old }
{
    let mut count = 0;
    for (number, line) in lines.iter().enumerate() {
        if line.is_out() {
            values[count] = values[number];
            count += 1;
        }
    }
}

// Whether `grade` stands before `than` in an order.
fn is_before(order: &[u8], grade: u8, than: u8) -> bool
    ensures { result ≡ list_any (λ v. v == grade) (take_while (λ v. not (v == than)) order.now) }
{
    order
        .iter()
        .take_while(|&&v| v != than)
        .any(|&v| v == grade)
}

// The finding over the patterns up to this one, from that over the patterns before it.
fn regrade<G: Algebra>(algebra: &G, old: Finding, number: u64, left: u8, right: u8) -> Finding
    ensures { (s t : Signal) → s number ≡ left → t number ≡ right → old ≡ finding_below G.ops number s t → result ≡ finding_below G.ops (number + 1) s t }
{
    let grade = algebra.operate(Op::Grade, left, right);
    let new = Finding::Differs(Difference {
        grade,
        pattern: number,
        left,
        right,
    });
    match old {
        Finding::Clean => { if grade == 0 { old } else { new } }
        Finding::Differs(known) => {
            if is_before(algebra.grave_order(), grade, known.grade) {
                new
            } else {
                old
            }
        }
    }
}

// The values of the OUT lines on a pattern, into the front of a list.
fn out_values<G: Algebra>(algebra: &G, lines: &[Line], pattern: Pattern, values: &mut [u8])
    requires accepted { first_fault G.ops pattern.width 0 lines.now ≡ None }
    requires room { length lines.now ≤ length values.old }
    ensures told { take (out_count lines.now) values.new ≡ values_at pattern.number (outs lines.now (line_signals G.ops pattern.width lines.now)) }
    ensures rest { drop (length lines.now) values.new ≡ drop (length lines.now) values.old }
{
    fill_values(algebra, lines, pattern, values);
    keep_outs(lines, values);
}

// Each pair's finding over the patterns up to this one, from those over the patterns before it.
fn regrade_pairs<G: Algebra>(
    algebra: &G,
    number: u64,
    left: &[u8],
    right: &[u8],
    findings: &mut [Finding],
)
    requires left { length findings.old ≤ length left.now }
    requires right { length findings.old ≤ length right.now }
    ensures { (ss ts : List Signal) → length ss ≡ length findings.old → length ts ≡ length ss → take (length ss) left.now ≡ values_at number ss → take (length ss) right.now ≡ values_at number ts → findings.old ≡ zipped (finding_below G.ops number) ss ts → findings.new ≡ zipped (finding_below G.ops (number + 1)) ss ts }
{
    // by index: behind a `zip` with `iter_mut` a proof does not see what is written
    for (pair, finding) in findings.iter_mut().enumerate() {
        *finding = regrade(algebra, *finding, number, left[pair], right[pair]);
    }
}

// The tests of a comparison, in order, with room for so many values and rows for so many findings; the number of pairs
// where all pass.
pub fn check_comparison<G: Algebra>(
    algebra: &G,
    inputs: u8,
    first: &[Line],
    second: &[Line],
    room: usize,
    rows: usize,
) -> Result<usize, ComparisonFault>
    ensures { MatchResult result
        (λ pairs. (pairs ≡ out_count first.now) × Accepted G.ops inputs first.now second.now room rows)
        (λ e. Refused G.ops inputs first.now second.now room rows e) }
{
    if inputs > MOST_INPUTS {
        return Err(ComparisonFault::TooManyInputs);
    }
    let pairs = count_pairs(first, second, room, rows)?;
    check_lines(algebra, inputs, first).map_err(ComparisonFault::First)?;
    check_lines(algebra, inputs, second).map_err(ComparisonFault::Second)?;
    Ok(pairs)
}

// Grades each pair over one pattern more. `values` is work memory.
fn try_pattern<G: Algebra>(
    algebra: &G,
    pattern: Pattern,
    first: &[Line],
    second: &[Line],
    values: &mut [u8],
    findings: &mut [Finding],
)
    requires accepted { Accepted G.ops pattern.width first.now second.now (length values.old) (length findings.old) }
    requires pairs { length findings.old ≡ out_count first.now }
    ensures rest { drop (length first.now + length second.now) values.new ≡ drop (length first.now + length second.now) values.old }
    ensures graded { findings.old ≡ findings_below G.ops pattern.width pattern.number first.now second.now → findings.new ≡ findings_below G.ops pattern.width (pattern.number + 1) first.now second.now }
{
    let (left, right) = values.split_at_mut(first.len());
    out_values(algebra, first, pattern, left);
    out_values(algebra, second, pattern, right);
    regrade_pairs(algebra, pattern.number(), left, right, findings);
}

// Compares by every pattern, from clean findings on.
fn try_patterns<G: Algebra>(
    algebra: &G,
    inputs: u8,
    first: &[Line],
    second: &[Line],
    values: &mut [u8],
    found: &mut [Finding],
)
    requires accepted { Accepted G.ops inputs first.now second.now (length values.old) (length found.old) }
    requires pairs { length found.old ≡ out_count first.now }
    ensures rest { drop (length first.now + length second.now) values.new ≡ drop (length first.now + length second.now) values.old }
    ensures found { found.new ≡ findings G.ops inputs first.now second.now }
{
    found.fill(Finding::Clean);
    for number in 0..1u64 << inputs {
        let pattern = Pattern::new(inputs, number).unwrap();
        try_pattern(algebra, pattern, first, second, values, found);
    }
}

// Compares the OUT lines of two netlists pairwise by trying every pattern, and answers how many pairs there are. `values`
// is work memory, an entry for each line of both netlists.
pub fn compare_by_patterns<G: Algebra>(
    algebra: &G,
    inputs: u8,
    first: &[Line],
    second: &[Line],
    values: &mut [u8],
    found: &mut [Finding],
) -> Result<usize, ComparisonFault>
    ensures answer { MatchResult result
        (λ pairs. (pairs ≡ out_count first.now) × Accepted G.ops inputs first.now second.now (length values.old) (length found.old) × (found.new ≡ findings G.ops inputs first.now second.now ++ drop pairs found.old))
        (λ e. Refused G.ops inputs first.now second.now (length values.old) (length found.old) e × (found.new ≡ found.old) × (values.new ≡ values.old)) }
    ensures verdicts { IfOk result (λ pairs. (k : ℕ) → k < pairs → Verdict G.ops inputs (out_signal G.ops inputs first.now k) (out_signal G.ops inputs second.now k) (slice_index_or found.new k Clean)) }
    ensures rest { drop (length first.now + length second.now) values.new ≡ drop (length first.now + length second.now) values.old }
{
    let pairs = check_comparison(algebra, inputs, first, second, values.len(), found.len())?;
    try_patterns(algebra, inputs, first, second, values, &mut found[..pairs]);
    Ok(pairs)
}
