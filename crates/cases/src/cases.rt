use crate::codes::{S, X, Z};
use crate::desk::Desk;
use crate::told::{PrintedFinding, PrintedHandle, Refused};
use algebra::{FiveValued, Op, TwoValued};
use comparison::{Call, Checked, Told, replay};
use diagram::{Memo, NoMemo, Row, RowMemo, Table};
use netlist::Finding;

// Two values and two places: both inputs fill them, so their AND is told full; an input AND its NOT still is 0.
pub(crate) fn two_places(rt: &HostRuntime) -> anyhow::Result<()> {
    let memo = RowMemo::new(rt.alloc(), 8)?;
    let mut desk = Desk::new(rt, TwoValued, memo, 2, 2, 3)?;
    let a = desk.input(0)?;
    let b = desk.input(1)?;
    let both = desk.join(Op::And, a, b);
    let not_a = desk.turn(a)?;
    let never = desk.join(Op::And, a, not_a);
    let used = desk.table.used();
    println!(rt; "two places: handle {a} and handle {b}")?;
    println!(rt; "AND of both: {}", PrintedHandle(both))?;
    println!(rt;
        "an input AND its NOT: {}, {used} places in use",
        PrintedHandle(never)
    )?;
    Ok(())
}

// The case of two values and two places as a list of calls. Place p has handle 16 + 2p, and its NOT the number after it.
pub(crate) fn two_places_replayed(rt: &HostRuntime) -> anyhow::Result<()> {
    let and = u8::from(Op::And);
    let calls = [
        Call::Input(0),
        Call::Input(1),
        Call::Join(and, 16, 18),
        Call::Turn(16),
        Call::Join(and, 16, 17),
        Call::Turn(99),
    ];
    let mut table = Table::new(rt.alloc(), 2)?;
    let mut memo = RowMemo::new(rt.alloc(), 8)?;
    let mut rows = [Row::default(); 3];
    let mut handles = [0u32; 1];
    let mut found = [Checked::default(); 1];
    let mut told = [Told::Handle(Ok(0)); 6];
    replay(
        &mut table,
        &TwoValued,
        &mut memo,
        &mut rows,
        2,
        &[],
        &calls,
        &mut handles,
        &mut found,
        &mut told,
    )
    .map_err(Refused::Replay)?;
    for answer in told {
        if let Told::Handle(handle) = answer {
            println!(rt;
                "replayed: {}",
                PrintedHandle(handle.map_err(Refused::Table))
            )?;
        }
    }
    Ok(())
}

// 60 inputs start, 61 are refused.
pub(crate) fn inputs_limit(rt: &HostRuntime) -> anyhow::Result<()> {
    let mut table = Table::new(rt.alloc(), 2)?;
    for inputs in 60..62u8 {
        match table.start(&mut NoMemo, inputs) {
            Ok(()) => println!(rt; "{inputs} inputs: started")?,
            Err(fault) => println!(rt; "{inputs} inputs: {}", Refused::Table(fault))?,
        }
    }
    Ok(())
}

// Over inputs a, b, c: S if a and b are 0, X if only a is 0, c if a is 1. It is one place above the place of its part
// "X if b, else S" and that of c, and its NOT takes no place.
pub(crate) fn three_parts(rt: &HostRuntime) -> anyhow::Result<()> {
    let memo = RowMemo::new(rt.alloc(), 8)?;
    let mut desk = Desk::new(rt, FiveValued, memo, 64, 3, 4)?;
    let a = desk.input(0)?;
    let b = desk.input(1)?;
    let c = desk.input(2)?;
    let inner = desk.choose(b, X, S)?;
    let sample = desk.choose(a, c, inner)?;
    let before = desk.table.used();
    let turned = desk.turn(sample);
    let after = desk.table.used();
    println!(rt;
        "the sample: handle {sample}, its NOT: {}",
        PrintedHandle(turned)
    )?;
    println!(rt; "places in use before the NOT and after: {before} and {after}")?;
    Ok(())
}

// NOT NOT of a floating wire is unknown.
pub(crate) fn floating_turned(rt: &HostRuntime) -> anyhow::Result<()> {
    let memo = RowMemo::new(rt.alloc(), 8)?;
    let mut desk = Desk::new(rt, FiveValued, memo, 64, 1, 2)?;
    let once = desk.turn(Z)?;
    let twice = desk.turn(once)?;
    println!(rt; "NOT of a floating wire: handle {once}, NOT NOT: handle {twice}")?;
    let a = desk.input(0)?;
    let driven = desk.join(Op::IfAnd, a, Z)?;
    let back = desk.turn(driven)?;
    let again = desk.turn(back)?;
    println!(rt; "Z where an input is up: handle {driven}, turned {back}, turned again {again}")?;
    Ok(())
}

// The finding of two drivers on a bus against a gate that takes the floating bus for 1, with some memo.
fn bus_finding<M: Memo + Drop>(rt: &HostRuntime, memo: M) -> anyhow::Result<Finding> {
    let mut desk = Desk::new(rt, FiveValued, memo, 64, 3, 4)?;
    let enable = desk.input(0)?;
    let one = desk.input(1)?;
    let two = desk.input(2)?;
    let first = desk.choose(enable, one, Z)?;
    let both = desk.join(Op::And, enable, two)?;
    let second = desk.choose(both, Z, Z)?;
    let bus = desk.join(Op::Wire, first, second)?;
    let gates = desk.choose(enable, one, 1)?;
    let checked = desk.check(bus, gates)?;
    Ok(checked.finding)
}

// A memo that keeps none and one of 256 rows give the same finding.
pub(crate) fn memos_agree(rt: &HostRuntime) -> anyhow::Result<()> {
    let kept = bus_finding(rt, RowMemo::new(rt.alloc(), 8)?)?;
    let forgotten = bus_finding(rt, NoMemo)?;
    println!(rt; "with a memo of 256 rows: {}", PrintedFinding(kept))?;
    println!(rt;
        "with a memo that keeps none: {}",
        PrintedFinding(forgotten)
    )?;
    Ok(())
}
