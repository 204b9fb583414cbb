// Trials of netlists: one is laid, and compared with a second one.
use crate::audit::{Outcome, Setting};
use crate::printing::PrintedLines;
use crate::trial::{Trial, UNANSWERED, UNCHECKED};
use algebra::Algebra;
use comparison::{compare, lay};
use diagram::{Memo, Row, Table};
use netlist::{Line, count_outs};
use std::alloc::AllocError;

// Two netlists on some inputs, in some of which a line is refused.
#[derive(Drop)]
struct NetlistPair {
    inputs: u8,
    first: Vec<Line>,
    second: Vec<Line>,
}

impl<'a, G: Algebra, M: Memo> Trial<'a, G, M> {
    // Mostly up to six inputs, and seldom up to ten.
    fn any_inputs(&mut self) -> u8 {
        if self.dice.one_in(50) {
            self.dice.below(4) as u8 + 7
        } else {
            self.dice.below(7) as u8
        }
    }

    fn any_pair(&mut self) -> Result<NetlistPair, AllocError> {
        let inputs = self.any_inputs();
        let mut maker = self.maker(inputs);
        let (mut first, mut second) = maker.any_two(24)?;
        maker.spoil_one_in(16, &mut first);
        maker.spoil_one_in(16, &mut second);
        Ok(NetlistPair {
            inputs,
            first,
            second,
        })
    }

    // Lays the first netlist on a new table. Whether all comes out right. Its call and lists are not those of a compare.
    fn try_lay(&mut self, netlists: &NetlistPair) -> Result<bool, AllocError> {
        let setting = Setting::enough(netlists.inputs, self.any_room());
        let lines = netlists.first.as_slice();
        let heap = self.heap;
        let mut table = Table::new(heap, setting.room)?;
        let mut rows = vec![in heap; Row::default(); setting.rows]?;
        let mut handles = vec![in heap; UNANSWERED; lines.len()]?;
        let _ = table.start(self.memo, setting.inputs);
        let told = lay(
            &mut table,
            self.algebra,
            self.memo,
            &mut rows,
            lines,
            &mut handles,
        );
        let mut audit = self.audit(&table, setting)?;
        let right = audit.is_lay_right(lines, &handles, told)?;
        Ok(audit.outcome(right).right)
    }

    // Compares the netlists on a new table of so many places.
    fn try_compare(&mut self, netlists: &NetlistPair, room: usize) -> Result<Outcome, AllocError> {
        let setting = Setting::enough(netlists.inputs, room);
        let first = netlists.first.as_slice();
        let second = netlists.second.as_slice();
        let heap = self.heap;
        let mut table = Table::new(heap, room)?;
        let mut rows = vec![in heap; Row::default(); setting.rows]?;
        let mut handles = vec![in heap; UNANSWERED; first.len().saturating_add(second.len())]?;
        let mut found = vec![in heap; UNCHECKED; count_outs(first)]?;
        let _ = table.start(self.memo, setting.inputs);
        let told = compare(
            &mut table,
            self.algebra,
            self.memo,
            &mut rows,
            first,
            second,
            &mut handles,
            &mut found,
        );
        let mut audit = self.audit(&table, setting)?;
        let right = audit.is_compare_right(first, second, &handles, &found, told)?;
        Ok(audit.outcome(right))
    }

    // Compares two netlists on three tables: one of any size, one of as many places as were then in use, and one of a place
    // less. Whether all comes out right.
    fn try_compares(&mut self, netlists: &NetlistPair) -> Result<bool, AllocError> {
        let room = self.any_room();
        let any = self.try_compare(netlists, room)?;
        let tight = self.try_compare(netlists, any.places)?;
        let short = self.try_compare(netlists, any.places.saturating_sub(1))?;
        Ok(any.right && tight.right && short.right)
    }

    // Makes two netlists, and lays and compares them.
    pub(crate) fn try_netlists(&mut self) -> anyhow::Result<()> {
        let netlists = self.any_pair()?;
        self.score.counts.netlists.add(1);
        let laid = self.try_lay(&netlists)?;
        let compared = self.try_compares(&netlists)?;
        if !laid || !compared {
            self.score.counts.different.add(1);
            let inputs = netlists.inputs;
            println!(self.rt; "{inputs} inputs, laid right: {laid}, compared right: {compared}")?;
            println!(self.rt; "{}", PrintedLines(&netlists.first))?;
            println!(self.rt; "{}", PrintedLines(&netlists.second))?;
        }
        Ok(())
    }
}
