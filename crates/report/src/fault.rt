ghost use Rattle.std.specs.Prelude.{◌≡◌};
ghost use Rattle.report.specs.Reports.{report_fault_number};

// Why no report is written.
#[derive(Clone, Copy, PartialEq, Eq, Debug)]
pub enum ReportFault {
    // too few bytes are lent for the report
    ShortReport = 44,
}

impl ReportFault {
    // The number of the refusal.
    pub fn number(self) -> u8
        ensures { result ≡ report_fault_number self }
    {
        self as u8
    }
}
