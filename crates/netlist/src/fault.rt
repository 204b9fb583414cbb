ghost use Rattle.std.specs.Prelude.{◌≡◌};
ghost use Rattle.netlist.specs.declared.fault.EvaluationFault.TheVariants.{Line};
ghost use Rattle.netlist.specs.declared.fault.ComparisonFault.TheVariants.{Counts};
ghost use Rattle.netlist.specs.FaultNumbers.{line_fault_number, evaluation_fault_number, count_fault_number, comparison_fault_number, comparison_fault_netlist, comparison_fault_line};

// Why a line is refused.
#[derive(Clone, Copy, PartialEq, Eq, Debug)]
pub enum LineFault {
    // an INPUT line names an input that there is not
    NoSuchInput = 24,
    // a CONST line names a code that there is not
    NoSuchCode = 25,
    // no such kind, or one that the algebra lacks
    NoSuchKind = 26,
    // an operand is no earlier line
    NotEarlier = 28,
}

impl LineFault {
    // The number of the refusal.
    pub fn number(self) -> u8
        ensures { result ≡ line_fault_number self }
    {
        self as u8
    }
}

// The first line that is refused, and why.
#[derive(Clone, Copy, PartialEq, Eq, Debug)]
pub struct Located<F> {
    pub line: usize,
    pub fault: F,
}

pub type NetlistFault = Located<LineFault>;

// Why an evaluation is refused.
#[derive(Clone, Copy, PartialEq, Eq, Debug)]
pub enum EvaluationFault {
    // the list of values is shorter than the lines
    ShortList,
    Line(NetlistFault),
}

impl EvaluationFault {
    // The number of the refusal; no cast gives it, since a refused line has its own.
    pub fn number(self) -> u8
        ensures { result ≡ evaluation_fault_number self }
    {
        match self {
            EvaluationFault::ShortList => 27,
            EvaluationFault::Line(f) => f.fault.number(),
        }
    }
}

impl From<NetlistFault> for EvaluationFault {
    ghost from_gives = { λ e r. r ≡ Line e };

    fn from(e: NetlistFault) -> EvaluationFault {
        EvaluationFault::Line(e)
    }
}

// Why the counts of two netlists let no comparison begin.
#[derive(Clone, Copy, PartialEq, Eq, Debug)]
pub enum CountFault {
    // the list of values is shorter than the lines of both netlists
    ShortList = 27,
    // fewer rows for findings than the first netlist has OUT lines
    FewFindings = 43,
    // the netlists have different counts of OUT lines
    OutCounts = 42,
}

impl CountFault {
    // The number of the refusal.
    pub fn number(self) -> u8
        ensures { result ≡ count_fault_number self }
    {
        self as u8
    }
}

// Why a comparison by trying every pattern is refused.
#[derive(Clone, Copy, PartialEq, Eq, Debug)]
pub enum ComparisonFault {
    TooManyInputs,
    Counts(CountFault),
    First(NetlistFault),
    Second(NetlistFault),
}

impl ComparisonFault {
    // The number of the refusal; no cast gives it, since a refused line has its own.
    pub fn number(self) -> u8
        ensures { result ≡ comparison_fault_number self }
    {
        match self {
            ComparisonFault::TooManyInputs => 21,
            ComparisonFault::Counts(f) => f.number(),
            ComparisonFault::First(f) | ComparisonFault::Second(f) => f.fault.number(),
        }
    }

    // The netlist that is refused, 1 or 2, or 0 for neither, as reports write it.
    pub fn netlist(self) -> u8
        ensures { result ≡ comparison_fault_netlist self }
    {
        match self {
            ComparisonFault::First(_) => 1,
            ComparisonFault::Second(_) => 2,
            _ => 0,
        }
    }

    // The line that is refused.
    pub fn line(self) -> Option<usize>
        ensures { result ≡ comparison_fault_line self }
    {
        match self {
            ComparisonFault::First(f) | ComparisonFault::Second(f) => Some(f.line),
            _ => None,
        }
    }
}

impl From<CountFault> for ComparisonFault {
    ghost from_gives = { λ e r. r ≡ Counts e };

    fn from(e: CountFault) -> ComparisonFault {
        ComparisonFault::Counts(e)
    }
}
