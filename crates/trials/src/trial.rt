// What each trial is made with.
use crate::audit::{Audit, Setting};
use crate::dice::Dice;
use crate::making::{Frame, Maker};
use crate::score::Score;
use algebra::Algebra;
use comparison::Checked;
use diagram::Table;
use netlist::Finding;
use std::alloc::{AllocError, Global};

// Places enough for most netlists.
const AMPLE: u32 = 4096;

// What lists of handles hold before a call writes them: a handle that no call answers.
pub(crate) const UNANSWERED: u32 = u32::MAX;

// What rows for findings hold before a call writes them: the same handle, and no finding.
pub(crate) const UNCHECKED: Checked = Checked {
    handle: UNANSWERED,
    finding: Finding::Clean,
};

// Trials under one algebra, with one memo.
#[derive(Drop)]
pub(crate) struct Trial<'a, G, M> {
    pub rt: &'a HostRuntime,
    pub heap: Global,
    pub score: &'a mut Score,
    pub dice: &'a mut Dice,
    pub algebra: &'a G,
    pub memo: &'a mut M,
}

impl<'a, G: Algebra, M> Trial<'a, G, M> {
    pub(crate) fn new(
        rt: &'a HostRuntime,
        score: &'a mut Score,
        dice: &'a mut Dice,
        algebra: &'a G,
        memo: &'a mut M,
    ) -> Trial<'a, G, M> {
        Trial {
            rt,
            heap: rt.alloc(),
            score,
            dice,
            algebra,
            memo,
        }
    }

    // What makes netlists of so many inputs.
    pub(crate) fn maker(&mut self, inputs: u8) -> Maker<'_> {
        let frame = Frame::of(self.algebra, inputs);
        let heap = self.heap;
        let dice = &mut *self.dice;
        Maker { dice, heap, frame }
    }

    // The number of places of a table: too few for many netlists, or enough.
    pub(crate) fn any_room(&mut self) -> usize {
        let room = match self.dice.below(4) {
            0 => self.dice.below(12),
            1 => self.dice.below(41),
            _ => AMPLE,
        };
        room as usize
    }

    // The audit of the calls on a table.
    pub(crate) fn audit<'t>(
        &'t mut self,
        table: &'t Table,
        setting: Setting,
    ) -> Result<Audit<'t, G>, AllocError> {
        let heap = self.heap;
        let algebra = self.algebra;
        let score = &mut *self.score;
        Audit::new(score, table, algebra, heap, setting)
    }
}
