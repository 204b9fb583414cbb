// What was tried, and how much of it came out otherwise.
use std::alloc::{AllocError, Global};
use std::collections::BTreeMap;
use std::fmt;

// How often something was counted.
#[derive(Clone, Copy, Default)]
pub(crate) struct Count(u64);

impl Count {
    pub(crate) fn add(&mut self, more: usize) {
        self.0 = self.0.saturating_add(more as u64);
    }
}

impl fmt::Display for Count {
    fn fmt<W: fmt::Write>(&self, f: &mut fmt::Formatter<W>) -> fmt::Result {
        write!(f, "{}", self.0)
    }
}

// How much of each was tried, and how many trials came out otherwise.
#[derive(Clone, Copy, Default)]
pub(crate) struct Counts {
    pub netlists: Count,
    pub lists: Count,
    pub tables: Count,
    pub patterns: Count,
    pub lines: Count,
    pub pairs: Count,
    pub calls: Count,
    pub values: Count,
    pub findings: Count,
    pub different: Count,
}

#[derive(Drop)]
pub(crate) struct Score {
    pub counts: Counts,
    // how often each number was told as a refusal
    refusals: BTreeMap<u8, Count>,
}

impl Score {
    pub(crate) fn new(heap: Global) -> Score {
        Score {
            counts: Counts::default(),
            refusals: BTreeMap::new(heap),
        }
    }

    // Counts a refusal by its number.
    pub(crate) fn refuse(&mut self, number: u8) -> Result<(), AllocError> {
        self.refusals.entry(number)?.or_default().add(1);
        Ok(())
    }
}

impl fmt::Display for Score {
    fn fmt<W: fmt::Write>(&self, f: &mut fmt::Formatter<W>) -> fmt::Result {
        let counts = self.counts;
        writeln!(f, "pairs of netlists: {}", counts.netlists)?;
        writeln!(
            f,
            "lists of calls: {}, calls: {}",
            counts.lists, counts.calls
        )?;
        writeln!(
            f,
            "lines: {}, pairs of outputs: {}",
            counts.lines, counts.pairs
        )?;
        writeln!(
            f,
            "tables: {}, patterns: {}",
            counts.tables, counts.patterns
        )?;
        writeln!(f, "values held to the evaluator's: {}", counts.values)?;
        writeln!(f, "findings held to the evaluator's: {}", counts.findings)?;
        for (number, count) in &self.refusals {
            writeln!(f, "refused {number}: {count}")?;
        }
        write!(f, "different: {}", counts.different)
    }
}
