use crate::codes::{S, X, Z};
use crate::desk::Desk;
use crate::told::{PrintedFinding, Refused};
use algebra::{Algebra, FiveValued, TwoValued};
use comparison::{Checked, compare};
use diagram::{Memo, NoMemo, RowMemo};
use evaluation::{compare_by_patterns, evaluate};
use netlist::{Finding, Kind, Line, Pattern};
use std::fmt;

// How many values a table and the evaluator had in common, and how many not.
#[derive(Clone, Copy, Default)]
struct Tally {
    same: u32,
    other: u32,
}

impl Tally {
    fn add(&mut self, agrees: bool) {
        let count = if agrees {
            &mut self.same
        } else {
            &mut self.other
        };
        *count = count.wrapping_add(1);
    }
}

impl fmt::Display for Tally {
    fn fmt<W: fmt::Write>(&self, f: &mut fmt::Formatter<W>) -> fmt::Result {
        write!(f, "{} values agree, {} do not", self.same, self.other)
    }
}

// A line of a kind. Each program that makes lines has this for itself: in a library it would need a contract.
fn line(kind: Kind, first: u32, second: u32) -> Line {
    Line {
        kind: u8::from(kind),
        first,
        second,
    }
}

// Lays a netlist of up to three inputs, and compares its lines on every pattern.
fn tally_netlist<G: Algebra + Drop>(
    rt: &HostRuntime,
    algebra: G,
    places: usize,
    inputs: u8,
    lines: &[Line],
) -> anyhow::Result<Tally> {
    let memo = RowMemo::new(rt.alloc(), 8)?;
    let mut desk = Desk::new(rt, algebra, memo, places, inputs, 4)?;
    let mut handles = vec![in rt.alloc(); 0u32; lines.len()]?;
    desk.lay(lines, &mut handles)?;
    let mut values = vec![in rt.alloc(); 0u8; lines.len()]?;
    let mut tally = Tally::default();
    for pattern in (0..u64::MAX).map_while(|number| Pattern::new(inputs, number).ok()) {
        evaluate(&desk.algebra, lines, pattern, &mut values).map_err(Refused::Evaluate)?;
        for (handle, value) in handles.iter().zip(values.iter()) {
            let told = desk.table.value(&desk.algebra, *handle, pattern);
            tally.add(told == Ok(*value));
        }
    }
    Ok(tally)
}

// The cases of one signal as netlists: each line has the evaluator's value on every pattern.
pub(crate) fn values_beside_evaluator(rt: &HostRuntime) -> anyhow::Result<()> {
    let two_places = [
        line(Kind::Input, 0, 0),
        line(Kind::Input, 1, 0),
        line(Kind::Not, 0, 0),
        line(Kind::And, 0, 2),
    ];
    let tally = tally_netlist(rt, TwoValued, 2, 2, &two_places)?;
    println!(rt; "two places beside the evaluator: {tally}")?;
    let three_parts = [
        line(Kind::Input, 0, 0),
        line(Kind::Input, 1, 0),
        line(Kind::Input, 2, 0),
        line(Kind::Const, X, 0),
        line(Kind::Const, S, 0),
        line(Kind::IfAnd, 1, 3),
        line(Kind::Not, 1, 0),
        line(Kind::IfAnd, 6, 4),
        line(Kind::IfOr, 5, 7),
        line(Kind::IfAnd, 0, 2),
        line(Kind::Not, 0, 0),
        line(Kind::IfAnd, 10, 8),
        line(Kind::IfOr, 9, 11),
        line(Kind::Not, 12, 0),
    ];
    let tally = tally_netlist(rt, FiveValued, 64, 3, &three_parts)?;
    println!(rt; "the sample beside the evaluator: {tally}")?;
    let floating = [
        line(Kind::Const, Z, 0),
        line(Kind::Not, 0, 0),
        line(Kind::Not, 1, 0),
        line(Kind::Input, 0, 0),
        line(Kind::IfAnd, 3, 0),
        line(Kind::Not, 4, 0),
        line(Kind::Not, 5, 0),
    ];
    let tally = tally_netlist(rt, FiveValued, 64, 1, &floating)?;
    println!(rt; "a floating wire beside the evaluator: {tally}")?;
    Ok(())
}

// The finding of one pair of outputs, by a table with some memo.
fn pair_by_table<M: Memo + Drop>(
    rt: &HostRuntime,
    memo: M,
    first: &[Line],
    second: &[Line],
) -> anyhow::Result<Finding> {
    let mut desk = Desk::new(rt, FiveValued, memo, 64, 2, 4)?;
    let mut handles = vec![in rt.alloc(); 0u32; first.len() + second.len()]?;
    let mut found = [Checked::default(); 1];
    compare(
        &mut desk.table,
        &desk.algebra,
        &mut desk.memo,
        &mut desk.rows,
        first,
        second,
        &mut handles,
        &mut found,
    )
    .map_err(Refused::Compare)?;
    Ok(found[0].finding)
}

// A driver that lets go of the bus, against gates that take the empty bus for 1: by tables and by the evaluator.
pub(crate) fn findings_beside_evaluator(rt: &HostRuntime) -> anyhow::Result<()> {
    let bus = [
        line(Kind::Input, 0, 0),
        line(Kind::Input, 1, 0),
        line(Kind::Const, Z, 0),
        line(Kind::IfAnd, 0, 1),
        line(Kind::Not, 0, 0),
        line(Kind::IfAnd, 4, 2),
        line(Kind::IfOr, 3, 5),
        line(Kind::Out, 6, 0),
    ];
    let gates = [
        line(Kind::Input, 0, 0),
        line(Kind::Input, 1, 0),
        line(Kind::Not, 0, 0),
        line(Kind::Or, 2, 1),
        line(Kind::Out, 3, 0),
    ];
    let kept = pair_by_table(rt, RowMemo::new(rt.alloc(), 8)?, &bus, &gates)?;
    let forgotten = pair_by_table(rt, NoMemo, &bus, &gates)?;
    let mut values = vec![in rt.alloc(); 0u8; bus.len() + gates.len()]?;
    let mut found = [Finding::Clean; 1];
    compare_by_patterns(&FiveValued, 2, &bus, &gates, &mut values, &mut found).map_err(
        Refused::CompareByPatterns,
    )?;
    println!(rt; "a bus by a table with a memo: {}", PrintedFinding(kept))?;
    println!(rt;
        "a bus by a table with a memo that keeps none: {}",
        PrintedFinding(forgotten)
    )?;
    println!(rt; "a bus by the evaluator: {}", PrintedFinding(found[0]))?;
    Ok(())
}
