use comparison::{CompareFault, LayFault, ReplayFault};
use diagram::TableFault;
use netlist::{ComparisonFault, EvaluationFault, Finding};
use std::error::Error;
use std::fmt;

// Why a call was refused.
#[derive(Clone, Copy, Debug)]
pub enum Refused {
    Table(TableFault),
    Lay(LayFault),
    Compare(CompareFault),
    Replay(ReplayFault),
    Evaluate(EvaluationFault),
    CompareByPatterns(ComparisonFault),
}

impl From<TableFault> for Refused {
    fn from(fault: TableFault) -> Refused {
        Refused::Table(fault)
    }
}

impl From<LayFault> for Refused {
    fn from(fault: LayFault) -> Refused {
        Refused::Lay(fault)
    }
}

impl Refused {
    fn number(self) -> u8 {
        match self {
            Refused::Table(fault) => fault.number(),
            Refused::Lay(fault) => fault.number(),
            Refused::Compare(fault) => fault.number(),
            Refused::Replay(fault) => fault.number(),
            Refused::Evaluate(fault) => fault.number(),
            Refused::CompareByPatterns(fault) => fault.number(),
        }
    }
}

impl fmt::Display for Refused {
    fn fmt<W: fmt::Write>(&self, f: &mut fmt::Formatter<W>) -> fmt::Result {
        write!(f, "refused {}", self.number())
    }
}

impl Error for Refused {}

// The handle that a call was told, or the refusal, as a person reads it.
#[derive(Clone, Copy)]
pub struct PrintedHandle(pub Result<u32, Refused>);

impl fmt::Display for PrintedHandle {
    fn fmt<W: fmt::Write>(&self, f: &mut fmt::Formatter<W>) -> fmt::Result {
        match self.0 {
            Ok(handle) => write!(f, "handle {handle}"),
            Err(refused) => write!(f, "{refused}"),
        }
    }
}

// A finding, as a person reads it.
#[derive(Clone, Copy)]
pub struct PrintedFinding(pub Finding);

impl fmt::Display for PrintedFinding {
    fn fmt<W: fmt::Write>(&self, f: &mut fmt::Formatter<W>) -> fmt::Result {
        match self.0 {
            Finding::Clean => write!(f, "clean"),
            Finding::Differs(d) => write!(
                f,
                "grade {} on pattern {}: {} against {}",
                d.grade, d.pattern, d.left, d.right
            ),
        }
    }
}
