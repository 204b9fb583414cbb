// Making a list of calls on a table, and what each was told.
use checking::Checked;
use diagram::TableFault;
use faults::{CompareFault, LayFault};

mod calls;

pub use calls::{replay, replay_apart};

// So many lines of a list, from a place on; what lies past its end is left out.
#[derive(Clone, Copy, PartialEq, Eq, Debug)]
pub struct Span {
    pub from: usize,
    pub count: usize,
}

// One call, with any numbers as its arguments. Lay and compare take their lines from a list.
#[derive(Clone, Copy, PartialEq, Eq, Debug)]
pub enum Call {
    Input(u8),
    Constant(u8),
    Turn(u32),
    Join(u8, u32, u32),
    Check(u32, u32),
    Lay(Span),
    Compare(Span, Span),
}

// What a call was told.
#[derive(Clone, Copy, PartialEq, Eq, Debug)]
pub enum Told {
    Handle(Result<u32, TableFault>),
    Check(Result<Checked, TableFault>),
    Lay(Result<(), LayFault>),
    Compare(Result<usize, CompareFault>),
}

// Why no call is made.
#[derive(Clone, Copy, PartialEq, Eq, Debug)]
pub enum ReplayFault {
    // the list for what the calls are told is shorter than the calls
    ShortList,
    Table(TableFault),
}
