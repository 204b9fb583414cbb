// Compares two netlists, which stand one after the other on standard input, on a table of shared diagrams.
#![tactic(auto)]

use report::Workspace;
use std::io::{Read, Write};

fn main(rt: HostRuntime) -> anyhow::Result<()> {
    let mut input = Vec::new(rt.alloc());
    rt.stdin().read_to_end(&mut input)?;
    let mut workspace = Workspace::standard(rt.alloc())?;
    let printed = workspace.answer(rt.alloc(), &input)?;
    rt.stdout().write_all(&printed)?;
    Ok(())
}

#[cfg(test)]
mod tests {
    use super::*;
    use std::test::Fail;

    // An input, and what is printed for it. `patterns` is tested by cases of this shape with answers of its own.
    struct Case {
        input: &'static [u8],
        printed: &'static [u8],
    }

    const CASES: [Case; 11] = [
        // no inputs: the one pattern is empty
        Case {
            input: b"    2 HEAD       0     2\n    0 CONST      1     -\n    1 OUT        0     -\n    2 HEAD       0     2\n    0 CONST      1     -\n    1 OUT        0     -\n",
            printed: b"    1 REPORT     0\n    0 0\n",
        },
        Case {
            input: b"",
            printed: b"   11 FAULT      1     -\n",
        },
        Case {
            input: b"\0\0\0\0\0\0\0\0\0\0\0\0\0\0\0\0\0\0\0\0\0\0\0\0\0",
            printed: b"   11 FAULT      1     -\n",
        },
        // the row of line 0 is cut short
        Case {
            input: b"    1 HEAD       1     2\n    0 INPUT      0     -",
            printed: b"   11 FAULT      1     0\n",
        },
        // there is no second netlist
        Case {
            input: b"    1 HEAD       1     2\n    0 INPUT      0     -\n",
            printed: b"   11 FAULT      2     -\n",
        },
        // netlists of no lines have no pairs
        Case {
            input: b"    0 HEAD      60     5\n    0 HEAD      60     5\n",
            printed: b"    0 REPORT     0\n",
        },
        Case {
            input: b"  513 HEAD       1     2\n",
            printed: b"   17 FAULT      1     -\n",
        },
        Case {
            input: b"    0 HEAD       1     2\n    0 HEAD       1     2\n\n",
            printed: b"   16 FAULT      0     -\n",
        },
        Case {
            input: b"    0 HEAD       1     2\n    0 HEAD       1     5\n",
            printed: b"   41 FAULT      0     -\n",
        },
        Case {
            input: b"    2 HEAD       1     2\n    0 INPUT      0     -\n    1 OUT        0     -\n    0 HEAD       1     2\n",
            printed: b"   42 FAULT      0     -\n",
        },
        // two values lack WIRE
        Case {
            input: b"    0 HEAD       1     2\n    2 HEAD       1     2\n    0 INPUT      0     -\n    1 WIRE       0     0\n",
            printed: b"   26 FAULT      2     1\n",
        },
    ];

    #[test]
    fn prints(rt: HostRuntime) -> Result<(), Fail> {
        let mut workspace = Workspace::standard(rt.alloc())?;
        let mut out = vec![in rt.alloc(); 0u8; 40_000]?;
        for case in CASES.iter() {
            let Ok(end) = workspace.report(case.input, &mut out) else {
                return Err(Fail::new("refused"));
            };
            assert!(rt; end <= out.len());
            assert!(rt; &out[..end] == case.printed);
        }
        // fewer bytes are refused
        let mut short = vec![in rt.alloc(); 0u8; 39_999]?;
        let Err(fault) = workspace.report(b"", &mut short) else {
            return Err(Fail::new("not refused"));
        };
        assert_eq!(rt; fault.number(), 44);
        Ok(())
    }

    #[test]
    fn answers(rt: HostRuntime) -> Result<(), Fail> {
        let mut workspace = Workspace::standard(rt.alloc())?;
        for case in CASES.iter() {
            let printed = workspace.answer(rt.alloc(), case.input)?;
            assert!(rt; printed.as_slice() == case.printed);
        }
        Ok(())
    }
}
