// Comparing two netlists of a text on the table, and writing what that comes to.
ghost use Rattle.std.specs.Prelude.{◌≡◌, ◌≤◌, length, take};
ghost use Rattle.text.specs.Reports.{Written};
ghost use Rattle.report.specs.Limits.{lines_of, places_of};
ghost use Rattle.report.specs.Outcomes.{fault_place};
ghost use Rattle.report.specs.Reports.{bytes_needed, compared, Printed};

use super::Workspace;
use algebra::{Algebra, FiveValued, TwoValued};
use comparison::{CompareFault, compare};
use text::{Pair, Summary, Values, read_pair, write_fault, write_findings, write_summary};

// The line or the pair that is refused.
fn refused_place(fault: CompareFault) -> Option<usize>
    ensures { result ≡ fault_place fault }
{
    match fault {
        CompareFault::Pair(e) => Some(e.pair),
        _ => fault.line(),
    }
}

impl Workspace {
    // Compares the two netlists that were read on the table started anew, and writes what that comes to.
    fn put_comparison<G: Algebra>(&mut self, algebra: &G, pair: Pair, out: &mut [u8]) -> usize
        requires inputs { pair.first.inputs ≤ 60 }
        requires first { pair.first.lines ≤ lines_of self.old }
        requires second { pair.second.lines ≤ lines_of self.old }
        requires room { bytes_needed (lines_of self.old) ≤ length out.old }
        ensures text { Written (compared (places_of self.old) G.ops pair.first.inputs (take pair.first.lines self.old.first.items) (take pair.second.lines self.old.second.items)) 0 out.old out.new result }
        ensures lines { lines_of self.new ≡ lines_of self.old }
        ensures places { places_of self.new ≡ places_of self.old }
    {
        let inputs = pair.first.inputs;
        self.table.start(&mut self.memo, inputs).unwrap();
        let outcome = compare(
            &mut self.table,
            algebra,
            &mut self.memo,
            &mut self.rows,
            &self.first[..pair.first.lines as usize],
            &self.second[..pair.second.lines as usize],
            &mut self.handles,
            &mut self.found,
        );
        match outcome {
            Ok(pairs) => {
                let used = self.table.used() as u32;
                let at = write_summary(out, 0, pairs as u32, Summary::Report, used).unwrap();
                write_findings(algebra, out, at, inputs, &self.found[..pairs]).unwrap()
            }
            Err(fault) => {
                let place = refused_place(fault).map(|place| place as u32);
                write_fault(out, 0, fault.number(), fault.netlist(), place).unwrap()
            }
        }
    }

    // Reads two netlists, compares them, and writes what that comes to. `patterns` has the same match: shared, it would be a
    // public function with conditions on what is lent, and public functions have none.
    pub(super) fn put_answer(&mut self, input: &[u8], out: &mut [u8]) -> usize
        requires { bytes_needed (lines_of self.old) ≤ length out.old }
        ensures text { Printed (lines_of self.old) (places_of self.old) input.now out.old out.new result }
        ensures lines { lines_of self.new ≡ lines_of self.old }
        ensures places { places_of self.new ≡ places_of self.old }
    {
        match read_pair(input, &mut self.first, &mut self.second) {
            Err(fault) => write_fault(
                out,
                0,
                fault.number(),
                fault.netlist(),
                fault.line(),
            ).unwrap(),
            Ok(pair) => match pair.first.values {
                Values::Two => self.put_comparison(&TwoValued, pair, out),
                Values::Five => self.put_comparison(&FiveValued, pair, out),
            },
        }
    }
}
