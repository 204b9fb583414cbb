ghost use Rattle.std.specs.Prelude.{◌≡◌, ◌≤◌, min, [], IfOk};
ghost use Rattle.records.specs.Changes.{Grows};
ghost use Rattle.memo.specs.Memos.{NoPairs};
ghost use Rattle.records.specs.Steps.{Fits, Adds, Back};
ghost use Rattle.records.specs.Stores.{store};
ghost use Rattle.diagram.specs.Settles.{Settled};
ghost use Rattle.diagram.specs.Views.{view, room};

use super::Table;
use crate::places::Places;
use memo::Memo;
use records::{Full, Record, TableFault};
use std::alloc::{AllocError, Global};

impl Table {
    // A table with no inputs and no place in use. All its memory is asked for here.
    pub fn new(heap: Global, places: usize) -> Result<Table, AllocError>
        ensures { IfOk result (λ t. (view t ≡ store 0 []) × (room t ≡ min places 1048576)) }
    {
        let places = Places::new(heap, places)?;
        Ok(Table { inputs: 0, places })
    }

    // Empties the table and sets the number of inputs.
    pub(crate) fn restart(&mut self, inputs: u8)
        requires { inputs ≤ 60 }
        ensures empty { view self.new ≡ store inputs [] }
        ensures room { room self.new ≡ room self.old }
    {
        self.places.truncate(0);
        self.inputs = inputs;
    }

    // The place of `r`'s key, at which `r` is put if no place has the key; `None` where all places are in use then.
    pub(crate) fn add(&mut self, r: Record) -> Option<usize>
        requires { Fits (view self.old) r.input r.low r.high }
        ensures grows { Grows (view self.old) (view self.new) }
        ensures place { Adds (view self.old) (room self.old) r result (view self.new) }
        ensures room { room self.new ≡ room self.old }
    {
        self.places.add(r)
    }

    // Back to the first `used` places.
    pub(crate) fn truncate(&mut self, used: usize)
        requires { used ≤ (view self.old).used }
        ensures back { Back (view self.old) used (view self.new) }
        ensures room { room self.new ≡ room self.old }
    {
        self.places.truncate(used);
    }

    // Back to the first `used` places; the memo forgets, since its pairs may name places that are gone.
    pub(crate) fn cut_back<M: Memo>(&mut self, memo: &mut M, used: usize)
        requires { used ≤ (view self.old).used }
        ensures back { Back (view self.old) used (view self.new) }
        ensures memo { NoPairs (M.recalls memo.new) }
        ensures room { room self.new ≡ room self.old }
    {
        self.truncate(used);
        memo.clear();
    }

    // The handle that was made, or, where the table was found full, back to the first `used` places.
    #[inline(always)]
    pub(crate) fn settle<M: Memo>(
        &mut self,
        memo: &mut M,
        used: usize,
        made: Result<u32, Full>,
    ) -> Result<u32, TableFault>
        requires { used ≤ (view self.old).used }
        ensures outcome { Settled (view self.old) used (view self.new) (M.recalls memo.old) (M.recalls memo.new) made result }
        ensures room { room self.new ≡ room self.old }
    {
        if made.is_err() {
            self.cut_back(memo, used);
        }
        Ok(made?)
    }
}
