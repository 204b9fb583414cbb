// Holding what lay and compare were told to the evaluator's signals, line by line and pair by pair.
use crate::audit::Audit;
use crate::calls::past;
use crate::numbers::{is_compare_named, is_lay_named};
use crate::signals::Signal;
use algebra::{Algebra, Op};
use comparison::{Checked, CompareFault, LayFault, LineReason, LineRefusal, PairRefusal};
use diagram::TableFault;
use evaluation::compare_by_patterns;
use netlist::{CountFault, Finding, Line, check_line, count_outs};
use std::alloc::{AllocError, Global};

// The number of an OUT line, known here by itself: the evaluator and the calls ask `Line::is_out`.
const OUT: u8 = 8;

// A netlist, with the signals of its lines.
#[derive(Drop)]
struct Netlist<'a> {
    lines: &'a [Line],
    signals: Vec<Signal>,
}

impl<'a> Netlist<'a> {
    // The signals of the OUT lines.
    fn outs(&self, heap: Global) -> Result<Vec<&Signal>, AllocError> {
        self.lines
            .iter()
            .zip(self.signals.iter())
            .filter(|(line, _)| line.kind == OUT)
            .map(|(_, signal)| signal)
            .collect(heap)
    }
}

impl<'a, G: Algebra> Audit<'a, G> {
    // The refusal that is due where there are too few work rows, from what the table was made with alone.
    pub(crate) fn check_rows(&self) -> Result<(), TableFault> {
        if self.setting.rows > usize::from(self.setting.inputs) {
            Ok(())
        } else {
            Err(TableFault::FewRows)
        }
    }

    // The refusal of a lay that is due before its first line.
    fn check_lay(&self, lines: &[Line], handles: &[u32]) -> Result<(), LayFault> {
        if handles.len() < lines.len() {
            return Err(LayFault::ShortList);
        }
        self.check_rows().map_err(LayFault::Table)
    }

    // The refusal of a compare that is due before its first line, or the number of pairs.
    fn check_compare(
        &self,
        first: &[Line],
        second: &[Line],
        handles: &[u32],
        found: &[Checked],
    ) -> Result<usize, CompareFault> {
        // By itself, and not by `count_pairs`, which `compare` calls.
        let pairs = count_outs(first);
        if handles.len() < first.len().saturating_add(second.len()) {
            return Err(CompareFault::Counts(CountFault::ShortList));
        }
        if found.len() < pairs {
            return Err(CompareFault::Counts(CountFault::FewFindings));
        }
        if count_outs(second) != pairs {
            return Err(CompareFault::Counts(CountFault::OutCounts));
        }
        self.check_rows().map_err(CompareFault::Table)?;
        Ok(pairs)
    }

    // A netlist with the signals of its lines, up to the first that is refused.
    fn netlist<'n>(&self, lines: &'n [Line]) -> Result<Netlist<'n>, AllocError> {
        let signals = self.signals(lines)?;
        Ok(Netlist { lines, signals })
    }

    // Whether the lines up to a refused one, or all, have the handles that they are to have.
    fn are_lines_right(
        &mut self,
        netlist: &Netlist<'_>,
        handles: &[u32],
        refused: Option<LineRefusal>,
    ) -> Result<bool, AllocError> {
        for ((number, line), handle) in netlist.lines.iter().enumerate().zip(handles.iter()) {
            self.score.counts.lines.add(1);
            let answer = match refused {
                Some(refusal) if refusal.line == number => Err(refusal.fault),
                _ => Ok(*handle),
            };
            let right = match (
                check_line(self.algebra, self.setting.inputs, number, *line),
                netlist.signals.get(number),
            ) {
                (Err(fault), _) => self.is_refused(LineReason::Line(fault), answer)?,
                (Ok(()), Some(signal)) => self.is_answered(signal, answer)?,
                (Ok(()), None) => false,
            };
            if !right || answer.is_err() {
                return Ok(right);
            }
        }
        Ok(refused.is_none())
    }

    // Whether a lay was told right.
    pub(crate) fn is_lay_right(
        &mut self,
        lines: &[Line],
        handles: &[u32],
        told: Result<(), LayFault>,
    ) -> Result<bool, AllocError> {
        if told.is_err_and(|fault| !is_lay_named(fault)) {
            return Ok(false);
        }
        if let Err(due) = self.check_lay(lines, handles) {
            self.score.refuse(due.number())?;
            return Ok(told == Err(due));
        }
        let refused = match told {
            Ok(()) => None,
            Err(LayFault::Line(refusal)) => Some(refusal),
            Err(_) => return Ok(false),
        };
        let netlist = self.netlist(lines)?;
        self.are_lines_right(&netlist, handles, refused)
    }

    // The findings of two netlists whose lines were all accepted, by trying every pattern.
    fn tried(&self, first: &[Line], second: &[Line]) -> Result<Vec<Finding>, AllocError> {
        let lines = first.len().saturating_add(second.len());
        let mut values = vec![in self.heap; 0u8; lines]?;
        let mut found = vec![in self.heap; Finding::Clean; count_outs(first)]?;
        // lines that are accepted are not refused here
        let _ = compare_by_patterns(
            self.algebra,
            self.setting.inputs,
            first,
            second,
            &mut values,
            &mut found,
        );
        Ok(found)
    }

    // Whether the pairs up to a refused one, or all, have the handles and the findings that they are to have.
    fn are_pairs_right(
        &mut self,
        first: &Netlist<'_>,
        second: &Netlist<'_>,
        found: &[Checked],
        refused: Option<PairRefusal>,
    ) -> Result<bool, AllocError> {
        let tried = self.tried(first.lines, second.lines)?;
        let lefts = first.outs(self.heap)?;
        let rights = second.outs(self.heap)?;
        let outs = lefts.iter().zip(rights.iter());
        for (pair, ((left, right), (row, finding))) in outs
            .zip(found.iter().zip(tried.iter()))
            .enumerate()
        {
            self.score.counts.pairs.add(1);
            let grades = self.joined(Op::Grade, left, right)?;
            let answer = match refused {
                Some(refusal) if refusal.pair == pair => Err(LineReason::Table(refusal.fault)),
                _ => Ok(row.handle),
            };
            if !self.is_answered(&grades, answer)? {
                return Ok(false);
            }
            if answer.is_err() {
                return Ok(true);
            }
            self.score.counts.findings.add(1);
            if row.finding != *finding {
                return Ok(false);
            }
        }
        Ok(refused.is_none())
    }

    // Whether a compare was told right.
    pub(crate) fn is_compare_right(
        &mut self,
        first: &[Line],
        second: &[Line],
        handles: &[u32],
        found: &[Checked],
        told: Result<usize, CompareFault>,
    ) -> Result<bool, AllocError> {
        if told.is_err_and(|fault| !is_compare_named(fault)) {
            return Ok(false);
        }
        let pairs = match self.check_compare(first, second, handles, found) {
            Ok(pairs) => pairs,
            Err(due) => {
                self.score.refuse(due.number())?;
                return Ok(told == Err(due));
            }
        };
        let first = self.netlist(first)?;
        if let Err(CompareFault::First(LayFault::Line(refusal))) = told {
            return self.are_lines_right(&first, handles, Some(refusal));
        }
        let second = self.netlist(second)?;
        let rest = past(handles, first.lines.len());
        let first_right = self.are_lines_right(&first, handles, None)?;
        if let Err(CompareFault::Second(LayFault::Line(refusal))) = told {
            return Ok(first_right && self.are_lines_right(&second, rest, Some(refusal))?);
        }
        if !first_right || !self.are_lines_right(&second, rest, None)? {
            return Ok(false);
        }
        match told {
            Ok(count) if count == pairs => self.are_pairs_right(&first, &second, found, None),
            Err(CompareFault::Pair(refusal)) => {
                self.are_pairs_right(&first, &second, found, Some(refusal))
            }
            _ => Ok(false),
        }
    }
}
