// Holding a list of calls that was replayed to the evaluator's signals.
use crate::audit::{Answer, Audit, NoSignal};
use crate::signals::{Signal, finding};
use algebra::{Algebra, Op};
use comparison::{Call, Checked, LineReason, Span, Told};
use diagram::TableFault;
use netlist::{Finding, Line, count_outs};
use std::alloc::AllocError;

// What a list of calls was made with, and what it wrote.
#[derive(Clone, Copy)]
pub(crate) struct Replayed<'a, 'w> {
    pub lines: &'a [Line],
    pub calls: &'a [Call],
    pub told: &'w [Told],
    pub handles: &'w [u32],
    pub found: &'w [Checked],
}

// A list without its first entries.
pub(crate) fn past<T>(list: &[T], count: usize) -> &[T] {
    &list[count.min(list.len())..]
}

// The lines of a span, cut here and not by `Span::of`, by which the audited calls cut them.
fn lines_of(lines: &[Line], span: Span) -> &[Line] {
    let rest = past(lines, span.from);
    &rest[..span.count.min(rest.len())]
}

fn answer(told: Result<u32, TableFault>) -> Answer {
    told.map_err(LineReason::Table)
}

impl<'a, 'w> Replayed<'a, 'w> {
    // What a call leaves of the lists for handles and findings: counted here, not asked of the library that is audited.
    fn after(self, call: Call) -> Replayed<'a, 'w> {
        let (handles, found) = match call {
            Call::Lay(span) => (lines_of(self.lines, span).len(), 0),
            Call::Compare(a, b) => {
                let first = lines_of(self.lines, a);
                let second = lines_of(self.lines, b);
                (first.len().saturating_add(second.len()), count_outs(first))
            }
            _ => (0, 0),
        };
        Replayed {
            handles: past(self.handles, handles),
            found: past(self.found, found),
            ..self
        }
    }
}

impl<'a, G: Algebra> Audit<'a, G> {
    // The signal of an operator of two handles.
    fn wanted_join(&self, op: Option<Op>, x: u32, y: u32) -> Result<Signal, NoSignal> {
        self.check_rows()?;
        let op = op.ok_or(TableFault::NoSuchOperator)?;
        let left = self.given(x)?;
        let right = self.given(y)?;
        Ok(self.joined(op, &left, &right)?)
    }

    // The signal of NOT of a handle.
    fn wanted_turn(&self, x: u32) -> Result<Signal, NoSignal> {
        self.check_rows()?;
        let signal = self.given(x)?;
        Ok(self.turned(&signal)?)
    }

    // The finding of two handles' signals.
    fn wanted_finding(&self, x: u32, y: u32) -> Result<Finding, NoSignal> {
        let left = self.given(x)?;
        let right = self.given(y)?;
        let grades = self.joined(Op::Grade, &left, &right)?;
        Ok(finding(self.algebra, &grades, &left, &right))
    }

    // Whether a check was told right.
    fn is_check_right(
        &mut self,
        x: u32,
        y: u32,
        told: Result<Checked, TableFault>,
    ) -> Result<bool, AllocError> {
        let wanted = self.wanted_join(Some(Op::Grade), x, y);
        let handle = told.map(|checked| checked.handle);
        if !self.is_wanted(wanted, answer(handle))? {
            return Ok(false);
        }
        let Ok(checked) = told else {
            return Ok(true);
        };
        match self.wanted_finding(x, y) {
            Ok(finding) => {
                self.score.counts.findings.add(1);
                Ok(checked.finding == finding)
            }
            Err(NoSignal::Refused(_)) => Ok(false),
            Err(NoSignal::Memory(fault)) => Err(fault),
        }
    }

    // Whether a call was told right, with what is left of the lists for handles and findings.
    fn is_call_right(
        &mut self,
        replayed: Replayed<'_, '_>,
        call: Call,
        told: Told,
    ) -> Result<bool, AllocError> {
        match (call, told) {
            (Call::Input(input), Told::Handle(told)) => {
                let wanted = self.input(input);
                self.is_wanted(wanted, answer(told))
            }
            (Call::Constant(code), Told::Handle(told)) => {
                let wanted = self.constant(u32::from(code), TableFault::NoSuchCode);
                self.is_wanted(wanted, answer(told))
            }
            (Call::Turn(x), Told::Handle(told)) => {
                let wanted = self.wanted_turn(x);
                self.is_wanted(wanted, answer(told))
            }
            (Call::Join(op, x, y), Told::Handle(told)) => {
                let wanted = self.wanted_join(self.algebra.operator(op), x, y);
                self.is_wanted(wanted, answer(told))
            }
            (Call::Check(x, y), Told::Check(told)) => self.is_check_right(x, y, told),
            (Call::Lay(span), Told::Lay(told)) => {
                self.is_lay_right(lines_of(replayed.lines, span), replayed.handles, told)
            }
            (Call::Compare(a, b), Told::Compare(told)) => self.is_compare_right(
                lines_of(replayed.lines, a),
                lines_of(replayed.lines, b),
                replayed.handles,
                replayed.found,
                told,
            ),
            _ => Ok(false),
        }
    }

    // Whether all calls of a list were told right.
    pub(crate) fn are_calls_right(
        &mut self,
        replayed: Replayed<'_, '_>,
    ) -> Result<bool, AllocError> {
        let mut left = replayed;
        for (call, told) in replayed.calls.iter().zip(replayed.told.iter()) {
            self.score.counts.calls.add(1);
            if !self.is_call_right(left, *call, *told)? {
                return Ok(false);
            }
            left = left.after(*call);
        }
        Ok(true)
    }
}
