// The numbers of refusals as the formats have them, and the netlist and the line that each names. The audit knows them by
// itself, so that a wrong number or line of the library shows.
use comparison::{CompareFault, LayFault, LineReason, ReplayFault};
use diagram::TableFault;
use netlist::{CountFault, LineFault};

fn table_number(fault: TableFault) -> u8 {
    match fault {
        TableFault::TooManyInputs => 21,
        TableFault::FewRows => 22,
        TableFault::NoSuchHandle => 23,
        TableFault::NoSuchInput => 24,
        TableFault::NoSuchCode => 25,
        TableFault::NoSuchOperator => 26,
        TableFault::NoSuchPattern => 29,
        TableFault::Full => 31,
    }
}

fn reason_number(reason: LineReason) -> u8 {
    match reason {
        LineReason::Line(LineFault::NoSuchInput) => 24,
        LineReason::Line(LineFault::NoSuchCode) => 25,
        LineReason::Line(LineFault::NoSuchKind) => 26,
        LineReason::Line(LineFault::NotEarlier) => 28,
        LineReason::Table(fault) => table_number(fault),
    }
}

fn lay_number(fault: LayFault) -> u8 {
    match fault {
        LayFault::ShortList => 27,
        LayFault::Table(fault) => table_number(fault),
        LayFault::Line(refusal) => reason_number(refusal.fault),
    }
}

fn lay_line(fault: LayFault) -> Option<usize> {
    match fault {
        LayFault::Line(refusal) => Some(refusal.line),
        _ => None,
    }
}

fn compare_number(fault: CompareFault) -> u8 {
    match fault {
        CompareFault::Counts(CountFault::ShortList) => 27,
        CompareFault::Counts(CountFault::OutCounts) => 42,
        CompareFault::Counts(CountFault::FewFindings) => 43,
        CompareFault::Table(fault) => table_number(fault),
        CompareFault::First(fault) | CompareFault::Second(fault) => lay_number(fault),
        CompareFault::Pair(refusal) => table_number(refusal.fault),
    }
}

// The netlist and the line that a refused compare names, 0 and none for neither.
fn compare_place(fault: CompareFault) -> (u8, Option<usize>) {
    match fault {
        CompareFault::First(fault) => (1, lay_line(fault)),
        CompareFault::Second(fault) => (2, lay_line(fault)),
        _ => (0, None),
    }
}

pub(crate) fn is_reason_named(reason: LineReason) -> bool {
    reason.number() == reason_number(reason)
}

pub(crate) fn is_lay_named(fault: LayFault) -> bool {
    fault.number() == lay_number(fault) && fault.line() == lay_line(fault)
}

pub(crate) fn is_compare_named(fault: CompareFault) -> bool {
    let (netlist, line) = compare_place(fault);
    fault.number() == compare_number(fault) && fault.netlist() == netlist && fault.line() == line
}

pub(crate) fn is_replay_named(fault: ReplayFault) -> bool {
    let number = match fault {
        ReplayFault::ShortList => 27,
        ReplayFault::Table(fault) => table_number(fault),
    };
    fault.number() == number
}
