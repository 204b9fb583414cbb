ghost use Rattle.std.specs.Prelude.{◌≡◌};
ghost use Rattle.faults.specs.declared.fault.LineReason.TheVariants as reasons;
ghost use Rattle.faults.specs.declared.fault.LayFault.TheVariants as lays;
ghost use Rattle.faults.specs.declared.fault.CompareFault.TheVariants as compares;
ghost use Rattle.faults.specs.Faults.{line_reason_number, lay_fault_number, lay_fault_line, compare_fault_number, compare_fault_netlist, compare_fault_line};

use netlist::{CountFault, LineFault, Located};
use records::TableFault;

// Why a line is refused: by its own fields, or by the table.
#[derive(Clone, Copy, PartialEq, Eq, Debug)]
pub enum LineReason {
    Line(LineFault),
    Table(TableFault),
}

impl LineReason {
    // The number of the refusal. No cast gives it, since a fault that is held has its own.
    pub fn number(self) -> u8
        ensures { result ≡ line_reason_number self }
    {
        match self {
            LineReason::Line(f) => f.number(),
            LineReason::Table(f) => f.number(),
        }
    }

    // The refusal of a line for this reason.
    pub fn at(self, line: usize) -> LineRefusal
        ensures { result ≡ record { line = line; fault = self } }
    {
        LineRefusal { line, fault: self }
    }
}

impl From<LineFault> for LineReason {
    ghost from_gives = { λ e r. r ≡ reasons.Line e };

    fn from(e: LineFault) -> LineReason {
        LineReason::Line(e)
    }
}

impl From<TableFault> for LineReason {
    ghost from_gives = { λ e r. r ≡ reasons.Table e };

    fn from(e: TableFault) -> LineReason {
        LineReason::Table(e)
    }
}

// The line of a netlist that is refused, and why.
pub type LineRefusal = Located<LineReason>;

// Why a netlist is not laid, or not wholly.
#[derive(Clone, Copy, PartialEq, Eq, Debug)]
pub enum LayFault {
    // the list of handles is shorter than the lines
    ShortList,
    // fewer work rows than inputs + 1
    Table(TableFault),
    Line(LineRefusal),
}

impl LayFault {
    // The number of the refusal. No cast gives it, since a fault that is held has its own.
    pub fn number(self) -> u8
        ensures { result ≡ lay_fault_number self }
    {
        match self {
            LayFault::ShortList => 27,
            LayFault::Table(f) => f.number(),
            LayFault::Line(e) => e.fault.number(),
        }
    }

    // The line that is refused.
    pub fn line(self) -> Option<usize>
        ensures { result ≡ lay_fault_line self }
    {
        match self {
            LayFault::Line(e) => Some(e.line),
            _ => None,
        }
    }
}

impl From<LineRefusal> for LayFault {
    ghost from_gives = { λ e r. r ≡ lays.Line e };

    fn from(e: LineRefusal) -> LayFault {
        LayFault::Line(e)
    }
}

// The pair of OUT lines that is refused, and why. A pair is no line, so this is no `Located`.
#[derive(Clone, Copy, PartialEq, Eq, Debug)]
pub struct PairRefusal {
    pub pair: usize,
    pub fault: TableFault,
}

// Why two netlists are not compared, or not wholly.
#[derive(Clone, Copy, PartialEq, Eq, Debug)]
pub enum CompareFault {
    Counts(CountFault),
    // fewer work rows than inputs + 1
    Table(TableFault),
    First(LayFault),
    Second(LayFault),
    Pair(PairRefusal),
}

impl CompareFault {
    // The number of the refusal. No cast gives it, since a fault that is held has its own.
    pub fn number(self) -> u8
        ensures { result ≡ compare_fault_number self }
    {
        match self {
            CompareFault::Counts(f) => f.number(),
            CompareFault::Table(f) => f.number(),
            CompareFault::First(f) | CompareFault::Second(f) => f.number(),
            CompareFault::Pair(e) => e.fault.number(),
        }
    }

    // The netlist that is refused, 1 or 2, or 0 for neither, as reports write it.
    pub fn netlist(self) -> u8
        ensures { result ≡ compare_fault_netlist self }
    {
        match self {
            CompareFault::First(_) => 1,
            CompareFault::Second(_) => 2,
            _ => 0,
        }
    }

    // The line that is refused.
    pub fn line(self) -> Option<usize>
        ensures { result ≡ compare_fault_line self }
    {
        match self {
            CompareFault::First(f) | CompareFault::Second(f) => f.line(),
            _ => None,
        }
    }
}

impl From<CountFault> for CompareFault {
    ghost from_gives = { λ e r. r ≡ compares.Counts e };

    fn from(e: CountFault) -> CompareFault {
        CompareFault::Counts(e)
    }
}

impl From<PairRefusal> for CompareFault {
    ghost from_gives = { λ e r. r ≡ compares.Pair e };

    fn from(e: PairRefusal) -> CompareFault {
        CompareFault::Pair(e)
    }
}
