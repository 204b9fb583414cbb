use netlist::{Finding, HasFinding};

mod calls;

pub use calls::check;

// What a pair came to: the handle of GRADE of both, and the finding.
#[derive(Clone, Copy, PartialEq, Eq, Debug, Default)]
pub struct Checked {
    pub handle: u32,
    pub finding: Finding,
}

impl HasFinding for Checked {
    ghost of = { λ c. c.finding };

    fn finding(&self) -> Finding {
        self.finding
    }
}
