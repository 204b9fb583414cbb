ghost use Rattle.std.specs.Prelude.{◌≡◌, max, IfOk};
ghost use Rattle.report.specs.Limits.{lines_of, places_of};
ghost use Rattle.report.specs.Reports.{bytes_needed, Answers, IsReport, Tells};

use super::Workspace;
use crate::fault::ReportFault;
use std::alloc::{AllocError, Global};

// The fewest bytes that are taken for a report, whatever the limits are.
const FEWEST_BYTES: usize = 40_000;

// The bytes of a report's first row, and the most of the row of a pair.
const SUMMARY: usize = 19;

const PAIR: usize = 73;

impl Workspace {
    // How many bytes a report is to be lent: enough for each.
    pub fn bytes_needed(&self) -> usize
        ensures { result ≡ bytes_needed (lines_of self.now) }
    {
        (SUMMARY + PAIR * self.first.len()).max(FEWEST_BYTES)
    }

    // Writes the report on two netlists, whose texts stand one after the other in the input, or the row of the first
    // refusal, and answers how many bytes that is.
    pub fn report(&mut self, input: &[u8], out: &mut [u8]) -> Result<usize, ReportFault>
        ensures answer { Answers (lines_of self.old) (places_of self.old) input.now out.old out.new result }
        ensures tells { Tells (lines_of self.old) input.now }
        ensures lines { lines_of self.new ≡ lines_of self.old }
        ensures places { places_of self.new ≡ places_of self.old }
    {
        if out.len() < self.bytes_needed() {
            return Err(ReportFault::ShortReport);
        }
        Ok(self.put_answer(input, out))
    }

    // The report on two netlists, or the row of the first refusal, in bytes of its own.
    pub fn answer(&mut self, heap: Global, input: &[u8]) -> Result<Vec<u8>, AllocError>
        ensures answer { IfOk result (λ v. IsReport (lines_of self.old) (places_of self.old) input.now v.items) }
        ensures tells { Tells (lines_of self.old) input.now }
        ensures lines { lines_of self.new ≡ lines_of self.old }
        ensures places { places_of self.new ≡ places_of self.old }
    {
        let mut out = vec![in heap; 0u8; self.bytes_needed()]?;
        let end = self.put_answer(input, &mut out);
        out.truncate(end);
        Ok(out)
    }
}
