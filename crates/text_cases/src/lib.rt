// Examples of texts: what the reader answers, and what the writers write.
#![tactic(auto)]

#[cfg(test)]
mod tests {
    use algebra::FiveValued;
    use netlist::{Difference, Finding, Line};
    use std::test::Fail;
    use text::{
        Summary, Values, read_netlist, read_pair, write_fault, write_findings, write_summary,
    };

    // The refusal of one netlist, with room for two lines.
    fn refusal(bytes: &[u8]) -> Option<u8> {
        let mut lines = [Line::default(); 2];
        read_netlist(bytes, 0, &mut lines)
            .err()
            .map(|fault| fault.number())
    }

    // The refusal of two netlists: its number, netlist and line.
    fn pair_refusal(bytes: &[u8]) -> Option<(u8, u8, Option<u32>)> {
        let mut first = [Line::default(); 2];
        let mut second = [Line::default(); 2];
        read_pair(bytes, &mut first, &mut second)
            .err()
            .map(|fault| (fault.number(), fault.netlist(), fault.line()))
    }

    #[test]
    fn reads_a_netlist(rt: HostRuntime) -> Result<(), Fail> {
        let text =
            b"    4 HEAD       2     5\n    0 INPUT      0     -\n    1 CONST      3     -\n    2 IFOR       0     1\n    3 OUT        2     -\n";
        let mut lines = [Line::default(); 5];
        match read_netlist(text, 0, &mut lines) {
            Ok(header) => {
                assert!(rt;
                    header.lines == 4 && header.inputs == 2 && header.values == Values::Five
                );
                assert!(rt; lines[1].kind == 1 && lines[1].first == 3 && lines[1].second == 0);
                assert!(rt; lines[2].kind == 6 && lines[2].first == 0 && lines[2].second == 1);
                assert!(rt; lines[3].kind == 8 && lines[3].first == 2);
                Ok(())
            }
            Err(_) => Err(Fail::new("refused")),
        }
    }

    #[test]
    fn refuses_rows(rt: HostRuntime) {
        assert_eq!(rt; refusal(b""), Some(11));
        assert_eq!(rt; refusal(b"    0 HEAD       2     5"), Some(11));
        assert_eq!(rt; refusal(b"    0 HEAD       2     5 "), Some(11));
        assert_eq!(rt; refusal(b"    0-HEAD       2     5\n"), Some(11));
        assert_eq!(rt; refusal(&[0; 25]), Some(11));
        assert_eq!(rt; refusal(&[255; 40]), Some(11));
        assert_eq!(rt; refusal(b"    0 HERD       x     5\n"), Some(13));
        assert_eq!(rt; refusal(b"   00 HEAD       2     5\n"), Some(12));
        assert_eq!(rt; refusal(b"    0 HEAD       2     -\n"), Some(12));
        assert_eq!(rt; refusal(b"    0 HEAD      61     5\n"), Some(15));
        assert_eq!(rt; refusal(b"    0 HEAD       2     3\n"), Some(15));
        assert_eq!(rt; refusal(b"    3 HEAD       2     5\n"), Some(17));
        assert_eq!(rt; refusal(b"    0 HEAD      60     2\n"), None);
    }

    #[test]
    fn refuses_lines(rt: HostRuntime) {
        assert_eq!(rt;
            refusal(b"    1 HEAD       2     5\n    0 INPUT      0     -"),
            Some(11)
        );
        assert_eq!(rt;
            refusal(b"    1 HEAD       2     5\n    0 HEAD       2     5\n"),
            Some(13)
        );
        assert_eq!(rt;
            refusal(b"    1 HEAD       2     5\n    0 INPUT      0     0\n"),
            Some(12)
        );
        assert_eq!(rt;
            refusal(b"    1 HEAD       2     5\n    0 AND        0     -\n"),
            Some(12)
        );
        assert_eq!(rt;
            refusal(b"    1 HEAD       2     5\n    1 INPUT      0     -\n"),
            Some(14)
        );
        assert_eq!(rt;
            refusal(b"    1 HEAD       2     5\n    0 INPUT      0     -\n"),
            None
        );
    }

    #[test]
    fn refuses_pairs(rt: HostRuntime) {
        assert!(rt; pair_refusal(b"    0 HEAD       2     5\n") == Some((11, 2, None)));
        assert!(rt;
            pair_refusal(b"    1 HEAD       2     5\n    1 INPUT      0     -\n")
                == Some((14, 1, Some(0)))
        );
        assert!(rt;
            pair_refusal(b"    0 HEAD       2     5\n    0 HEAD       2     5\n\n")
                == Some((16, 0, None))
        );
        assert!(rt;
            pair_refusal(b"    0 HEAD       2     5\n    0 HEAD       2     2\n")
                == Some((41, 0, None))
        );
        assert!(rt; pair_refusal(b"    0 HEAD       2     5\n    0 HEAD       2     5\n") == None);
    }

    #[test]
    fn writes_rows(rt: HostRuntime) {
        let mut out = [46u8; 28];
        assert!(rt; write_summary(&mut out, 1, 1, Summary::Tried, 4) == Some(20));
        assert!(rt; out == *b".    1 TRIED      4\n........");
        assert!(rt; write_summary(&mut out, 0, 12, Summary::Report, 34567) == Some(19));
        assert!(rt; out == *b"   12 REPORT 34567\n\n........");
        assert!(rt; write_summary(&mut out, 10, 1, Summary::Tried, 4) == None);
        assert!(rt; write_fault(&mut out, 2, 28, 1, Some(7)) == Some(27));
        assert!(rt; out == *b"     28 FAULT      1     7\n.");
        assert!(rt; write_fault(&mut out, 3, 16, 0, None) == Some(28));
        assert!(rt; out == *b"      16 FAULT      0     -\n");
    }

    #[test]
    fn writes_findings(rt: HostRuntime) {
        let findings = [
            Finding::Clean,
            Finding::Differs(Difference {
                grade: 1,
                pattern: 1,
                left: 3,
                right: 0,
            }),
        ];
        let mut out = [46u8; 24];
        assert!(rt; write_findings(&FiveValued, &mut out, 0, 2, &findings) == Some(23));
        assert!(rt; out == *b"    0 0\n    1 1 Z 0 01\n.");
        assert!(rt; write_findings(&FiveValued, &mut out, 2, 2, &findings) == None);
    }
}
