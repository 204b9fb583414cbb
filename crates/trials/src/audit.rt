// Holding what calls on a table were told to the evaluator's signals.
use crate::book::Book;
use crate::numbers::is_reason_named;
use crate::parts::missing_parts;
use crate::score::Score;
use crate::signals::{Signal, joined, patterns, signals_of, turned};
use algebra::{Algebra, Op};
use comparison::LineReason;
use diagram::{Table, TableFault};
use netlist::{Line, Pattern};
use std::alloc::{AllocError, Global};

// The least handle that is no constant.
pub(crate) const FIRST_PLACE: u32 = 16;

// What a call, a line or a pair was told.
pub(crate) type Answer = Result<u32, LineReason>;

// Why a call has no signal to answer.
#[derive(Drop)]
pub(crate) enum NoSignal {
    Refused(TableFault),
    Memory(AllocError),
}

impl From<AllocError> for NoSignal {
    fn from(fault: AllocError) -> NoSignal {
        NoSignal::Memory(fault)
    }
}

impl From<TableFault> for NoSignal {
    fn from(fault: TableFault) -> NoSignal {
        NoSignal::Refused(fault)
    }
}

// What a table was made with: its inputs and places, and work rows.
#[derive(Clone, Copy)]
pub(crate) struct Setting {
    pub inputs: u8,
    pub room: usize,
    pub rows: usize,
}

impl Setting {
    // With as many work rows as calls take.
    pub(crate) fn enough(inputs: u8, room: usize) -> Setting {
        Setting {
            inputs,
            room,
            rows: usize::from(inputs) + 1,
        }
    }
}

// Whether the calls on a table were told right and the places in use are, and how many are to be in use.
#[derive(Clone, Copy)]
pub(crate) struct Outcome {
    pub right: bool,
    pub places: usize,
}

// The audit of the calls on one table, in their order.
#[derive(Drop)]
pub(crate) struct Audit<'a, G> {
    pub score: &'a mut Score,
    pub table: &'a Table,
    pub algebra: &'a G,
    pub heap: Global,
    pub setting: Setting,
    patterns: Vec<Pattern>,
    book: Book,
}

impl<'a, G: Algebra> Audit<'a, G> {
    pub(crate) fn new(
        score: &'a mut Score,
        table: &'a Table,
        algebra: &'a G,
        heap: Global,
        setting: Setting,
    ) -> Result<Audit<'a, G>, AllocError> {
        let patterns = patterns(heap, setting.inputs)?;
        score.counts.tables.add(1);
        score.counts.patterns.add(patterns.len());
        Ok(Audit {
            score,
            table,
            algebra,
            heap,
            setting,
            patterns,
            book: Book::new(heap),
        })
    }

    // What the audit comes to at its end, where all calls were told right or some was not.
    pub(crate) fn outcome(&self, right: bool) -> Outcome {
        let places = self.book.places();
        Outcome {
            right: right && self.table.used() == places,
            places,
        }
    }

    // The signals of a netlist's lines, up to the first that is refused.
    pub(crate) fn signals(&self, lines: &[Line]) -> Result<Vec<Signal>, AllocError> {
        signals_of(
            self.heap,
            self.algebra,
            self.setting.inputs,
            &self.patterns,
            lines,
        )
    }

    pub(crate) fn joined(&self, op: Op, left: &[u8], right: &[u8]) -> Result<Signal, AllocError> {
        joined(self.heap, self.algebra, op, left, right)
    }

    pub(crate) fn turned(&self, signal: &[u8]) -> Result<Signal, AllocError> {
        turned(self.heap, self.algebra, signal)
    }

    // The signal of an input.
    pub(crate) fn input(&self, input: u8) -> Result<Signal, NoSignal> {
        if input >= self.setting.inputs {
            return Err(NoSignal::Refused(TableFault::NoSuchInput));
        }
        let bits = self.patterns.iter().map(|pattern| pattern.bit(input));
        Ok(bits.collect(self.heap)?)
    }

    // The signal of a value, refused as the fault says where there is no such value.
    pub(crate) fn constant(&self, code: u32, refusal: TableFault) -> Result<Signal, NoSignal> {
        match u8::try_from(code) {
            Ok(code) if code < G::COUNT => { Ok(vec![in self.heap; code; self.patterns.len()]?) }
            _ => Err(NoSignal::Refused(refusal)),
        }
    }

    // What the table says of a handle that no call answered.
    fn told(&self, handle: u32) -> Result<Signal, NoSignal> {
        self.patterns
            .iter()
            .map(|pattern| -> Result<u8, NoSignal> {
                Ok(self.table.value(self.algebra, handle, *pattern)?)
            })
            .try_collect(self.heap)
    }

    // Whether NOT of a signal has the handle with the other mark: all its values are settled, and NOT changes one.
    fn has_mark(&self, signal: &[u8]) -> bool {
        signal.iter().all(|value| self.algebra.is_settled(*value))
            && signal
                .iter()
                .any(|value| self.algebra.turn(*value) != *value)
    }

    // The signal of a handle that a call was given. One that was not booked is a constant, the NOT of one that was booked,
    // or what the table says of it.
    pub(crate) fn given(&self, handle: u32) -> Result<Signal, NoSignal> {
        if let Some(signal) = self.book.signal(handle) {
            return Ok(signal.clone()?);
        }
        if handle < FIRST_PLACE {
            return self.constant(handle, TableFault::NoSuchHandle);
        }
        if ((handle - FIRST_PLACE) / 2) as usize >= self.book.places() {
            return Err(NoSignal::Refused(TableFault::NoSuchHandle));
        }
        match self.book.signal(handle ^ 1) {
            Some(signal) if self.has_mark(signal) => Ok(self.turned(signal)?),
            Some(_) => Err(NoSignal::Refused(TableFault::NoSuchHandle)),
            None => self.told(handle),
        }
    }

    // Whether a handle has the values of a signal on all patterns.
    fn has_values(&self, handle: u32, signal: &[u8]) -> bool {
        let mut both = self.patterns.iter().zip(signal.iter());
        signal.len() == self.patterns.len()
            && both.all(|(pattern, value)| {
                self.table.value(self.algebra, handle, *pattern) == Ok(*value)
            })
    }

    // Whether an answer is the refusal that is due, by its number too.
    pub(crate) fn is_refused(
        &mut self,
        due: LineReason,
        answer: Answer,
    ) -> Result<bool, AllocError> {
        if let Err(told) = answer {
            self.score.refuse(told.number())?;
        }
        Ok(answer == Err(due) && is_reason_named(due))
    }

    // Whether an answer is right where a call has this signal, and no refusal is due but that the table is full: it is full
    // exactly if there are more parts than places, the handle has the signal's values on all patterns, and one signal has
    // one handle.
    pub(crate) fn is_answered(
        &mut self,
        signal: &[u8],
        answer: Answer,
    ) -> Result<bool, AllocError> {
        if let Some(booked) = self.book.handle(signal) {
            self.score.counts.values.add(signal.len());
            return Ok(answer == Ok(booked) && self.has_values(booked, signal));
        }
        let parts = missing_parts(self.heap, self.algebra, self.book.parts(), signal)?;
        if self.book.places().saturating_add(parts.len()) > self.setting.room {
            return self.is_refused(LineReason::Table(TableFault::Full), answer);
        }
        let Ok(handle) = answer else {
            return Ok(false);
        };
        self.score.counts.values.add(signal.len());
        Ok(self.has_values(handle, signal) && self.book.enter(handle, signal, parts)?)
    }

    // Whether an answer is right where a call is to answer this, or is due this refusal.
    pub(crate) fn is_wanted(
        &mut self,
        wanted: Result<Signal, NoSignal>,
        answer: Answer,
    ) -> Result<bool, AllocError> {
        match wanted {
            Ok(signal) => self.is_answered(&signal, answer),
            Err(NoSignal::Refused(fault)) => self.is_refused(LineReason::Table(fault), answer),
            Err(NoSignal::Memory(fault)) => Err(fault),
        }
    }
}
