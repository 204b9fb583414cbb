ghost use Rattle.std.specs.Prelude.{◌≡◌};

// Where a pair of outputs differs: the gravest grade that occurs, the first pattern that has it, and both values there.
#[derive(Clone, Copy, PartialEq, Eq, Debug)]
pub struct Difference {
    pub grade: u8,
    pub pattern: u64,
    pub left: u8,
    pub right: u8,
}

// What comparing a pair of outputs came to. A clean pair has grade 0, no pattern and no values. A verdict and so no
// `Option<Difference>`: `Clean` says that every pattern is graded and none differs, `None` would read as none found yet.
#[derive(Clone, Copy, PartialEq, Eq, Debug, Default)]
pub enum Finding {
    #[default]
    Clean,
    Differs(Difference),
}

// What a comparison keeps of a pair, and the finding in it.
pub trait HasFinding {
    ghost use Rattle.netlist.specs.declared.finding.Finding.{Finding};

    ghost of: { Self → Finding };

    fn finding(&self) -> Finding
        ensures { result ≡ of self.now };
}

impl HasFinding for Finding {
    ghost of = { λ f. f };

    fn finding(&self) -> Finding {
        *self
    }
}
