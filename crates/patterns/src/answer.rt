ghost use Rattle.std.specs.Prelude.{◌≡◌, ℕ, ◌≤◌, List, length, take, IfOk, vec_len};
ghost use Rattle.netlist.specs.FaultNumbers.{comparison_fault_number, comparison_fault_netlist, comparison_fault_line};
ghost use Rattle.text.specs.Reports.{fault_row};
ghost use Rattle.patterns.specs.Answers.{too_many_inputs, compared, Prints, SmallLine};

use algebra::{Algebra, FiveValued, TwoValued};
use evaluation::{check_comparison, compare_by_patterns};
use netlist::{ComparisonFault, Finding, Line};
use std::alloc::{AllocError, Global};
use text::{Pair, Summary, Values, read_pair, write_fault, write_findings, write_summary};

// How many lines a netlist may have, and how many bytes are enough for whatever is printed.
const LINES: usize = 512;

const BYTES: usize = 40_000;

// With more inputs there are too many patterns to try.
const INPUTS: u8 = 16;

const TOO_MANY_INPUTS: &[u8] = b"more than 16 inputs: too many patterns to try\n";

// What an answer fills: the lines of two netlists, the values of them all, the findings, and the bytes that are printed.
#[derive(Drop)]
struct Lists {
    first: Vec<Line>,
    second: Vec<Line>,
    values: Vec<u8>,
    findings: Vec<Finding>,
    out: Vec<u8>,
    ghost few: { vec_len first ≡ 512 },
    ghost even: { vec_len second ≡ 512 },
    ghost valued: { vec_len values ≡ 1024 },
    ghost paired: { vec_len findings ≡ 512 },
    ghost wide: { vec_len out ≡ 40000 },
}

// Writes that there are too many patterns to try: not a row, so `text` has no writer of it.
fn put_too_many(out: &mut [u8]) -> usize
    requires { 46 ≤ length out.old }
    ensures { take result out.new ≡ too_many_inputs }
{
    let end = TOO_MANY_INPUTS.len();
    out[..end].copy_from_slice(TOO_MANY_INPUTS);
    end
}

impl Lists {
    fn new(heap: Global) -> Result<Lists, AllocError> {
        Ok(Lists {
            first: vec![in heap; Line::default(); LINES]?,
            second: vec![in heap; Line::default(); LINES]?,
            values: vec![in heap; 0u8; 2 * LINES]?,
            findings: vec![in heap; Finding::Clean; LINES]?,
            out: vec![in heap; 0u8; BYTES]?,
        })
    }

    // Writes the row of the refusal of a comparison.
    fn put_fault(&mut self, fault: ComparisonFault) -> usize
        requires { SmallLine fault }
        ensures { take result self.new.out.items ≡ fault_row (comparison_fault_number fault) (comparison_fault_netlist fault) (comparison_fault_line fault) }
    {
        let line = fault.line().map(|line| line as u32);
        write_fault(&mut self.out, 0, fault.number(), fault.netlist(), line).unwrap()
    }

    // Compares the two netlists that were read, and writes what that comes to.
    fn put_comparison<G: Algebra>(&mut self, algebra: &G, pair: Pair) -> usize
        requires inputs { pair.first.inputs ≤ 60 }
        requires first { pair.first.lines ≤ 512 }
        requires second { pair.second.lines ≤ 512 }
        ensures { take result self.new.out.items ≡ compared G.ops pair.first.inputs (take pair.first.lines self.old.first.items) (take pair.second.lines self.old.second.items) }
    {
        let inputs = pair.first.inputs;
        let first = &self.first[..pair.first.lines as usize];
        let second = &self.second[..pair.second.lines as usize];
        if inputs > INPUTS {
            return match check_comparison(
                algebra,
                inputs,
                first,
                second,
                self.values.len(),
                self.findings.len(),
            ) {
                Ok(_) => put_too_many(&mut self.out),
                Err(fault) => self.put_fault(fault),
            };
        }
        match compare_by_patterns(
            algebra,
            inputs,
            first,
            second,
            &mut self.values,
            &mut self.findings,
        ) {
            Ok(pairs) => {
                let out = self.out.as_mut_slice();
                let at = write_summary(out, 0, pairs as u32, Summary::Tried, 1 << inputs).unwrap();
                write_findings(algebra, out, at, inputs, &self.findings[..pairs]).unwrap()
            }
            Err(fault) => self.put_fault(fault),
        }
    }

    // Reads two netlists, compares them, and writes what that comes to. `report` has the same match: shared, it would be a
    // public function with conditions on what is lent, and public functions have none.
    fn put_answer(&mut self, input: &[u8]) -> usize
        ensures { Prints input.now (take result self.new.out.items) × ((t : List ℕ) → Prints input.now t → t ≡ take result self.new.out.items) }
    {
        match read_pair(input, &mut self.first, &mut self.second) {
            Err(fault) => write_fault(
                &mut self.out,
                0,
                fault.number(),
                fault.netlist(),
                fault.line(),
            )
            .unwrap(),
            Ok(pair) => match pair.first.values {
                Values::Two => self.put_comparison(&TwoValued, pair),
                Values::Five => self.put_comparison(&FiveValued, pair),
            },
        }
    }
}

// What is printed for an input, and nothing else may be printed for it.
pub fn answer(heap: Global, input: &[u8]) -> Result<Vec<u8>, AllocError>
    ensures { IfOk result (λ v. Prints input.now v.items × ((t : List ℕ) → Prints input.now t → t ≡ v.items)) }
{
    let mut lists = Lists::new(heap)?;
    let end = lists.put_answer(input);
    let mut out = lists.out;
    out.truncate(end);
    Ok(out)
}

#[cfg(test)]
mod tests {
    use super::*;
    use std::test::Fail;

    // An input, and what is printed for it.
    struct Case {
        input: &'static [u8],
        printed: &'static [u8],
    }

    const CASES: [Case; 10] = [
        // a floating wire taken for 0
        Case {
            input: b"    4 HEAD       2     5\n    0 INPUT      0     -\n    1 CONST      3     -\n    2 IFOR       0     1\n    3 OUT        2     -\n    2 HEAD       2     5\n    0 INPUT      0     -\n    1 OUT        0     -\n",
            printed: b"    1 TRIED      4\n    0 1 Z 0 00\n",
        },
        // no inputs: the one pattern is empty
        Case {
            input: b"    2 HEAD       0     2\n    0 CONST      1     -\n    1 OUT        0     -\n    2 HEAD       0     2\n    0 CONST      1     -\n    1 OUT        0     -\n",
            printed: b"    1 TRIED      1\n    0 0\n",
        },
        Case {
            input: b"",
            printed: b"   11 FAULT      1     -\n",
        },
        Case {
            input: b"\0\0\0\0\0\0\0\0\0\0\0\0\0\0\0\0\0\0\0\0\0\0\0\0\0",
            printed: b"   11 FAULT      1     -\n",
        },
        // netlists of no lines have no pairs
        Case {
            input: b"    0 HEAD       1     2\n    0 HEAD       1     2\n",
            printed: b"    0 TRIED      2\n",
        },
        Case {
            input: b"    0 HEAD       1     2\n    0 HEAD       1     2\n\n",
            printed: b"   16 FAULT      0     -\n",
        },
        Case {
            input: b"    0 HEAD       1     2\n    0 HEAD       1     5\n",
            printed: b"   41 FAULT      0     -\n",
        },
        Case {
            input: b"    2 HEAD       1     2\n    0 INPUT      0     -\n    1 OUT        0     -\n    0 HEAD       1     2\n",
            printed: b"   42 FAULT      0     -\n",
        },
        // two values lack WIRE
        Case {
            input: b"    0 HEAD       1     2\n    2 HEAD       1     2\n    0 INPUT      0     -\n    1 WIRE       0     0\n",
            printed: b"   26 FAULT      2     1\n",
        },
        Case {
            input: b"    0 HEAD      17     2\n    0 HEAD      17     2\n",
            printed: b"more than 16 inputs: too many patterns to try\n",
        },
    ];

    #[test]
    fn prints(rt: HostRuntime) -> Result<(), Fail> {
        for case in CASES.iter() {
            let printed = answer(rt.alloc(), case.input)?;
            assert!(rt; printed.as_slice() == case.printed);
        }
        Ok(())
    }
}
