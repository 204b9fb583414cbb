ghost use Rattle.std.specs.Prelude.{◌≡◌, ◌<◌, ◌-◌, ◌^◌, min, IfOk};
ghost use Rattle.memo.specs.Buckets.{bucket_of};
ghost use Rattle.memo.specs.Memos.{NoPairs};
ghost use Rattle.memo.specs.Recalls.{recalled, row_count};

use super::{Row, RowMemo};
use crate::hash::bucket;
use crate::key::Key;
use crate::memo::Memo;
use std::alloc::{AllocError, Global};

// The most bits of a row's number.
const MOST_BITS: u8 = 22;

impl RowMemo {
    // A memo of 2 ^ `bits` rows, at most 2 ^ 22, with no pair.
    pub fn new(heap: Global, bits: u8) -> Result<RowMemo, AllocError>
        ensures { IfOk result (λ m. (row_count m ≡ 2 ^ min bits 22) × NoPairs (recalled m)) }
    {
        let count = 1usize << bits.min(MOST_BITS);
        let rows = vec![in heap; Row::default(); count]?;
        Ok(RowMemo { rows, epoch: 1 })
    }

    // The number of a key's row.
    fn row_of(&self, key: Key) -> usize
        ensures value { result ≡ bucket_of (row_count self.now - 1) key.op key.x key.y }
        ensures within { result < row_count self.now }
    {
        bucket(self.rows.len() - 1, key.op, key.x, key.y)
    }

    // Forgets what every row holds, and begins the epochs anew.
    fn sweep(&mut self)
        ensures { NoPairs (recalled self.new) }
    {
        self.rows.fill(Row::default());
        self.epoch = 1;
    }
}

impl Memo for RowMemo {
    ghost recalls = { recalled };

    fn get(&self, key: Key) -> Option<u32> {
        let row = self.rows[self.row_of(key)];
        (row.epoch == self.epoch && row.key == key).then_some(row.h)
    }

    fn put(&mut self, key: Key, h: u32) {
        let i = self.row_of(key);
        self.rows[i] = Row {
            key,
            h,
            epoch: self.epoch,
        };
    }

    fn clear(&mut self) {
        if self.epoch == u32::MAX {
            self.sweep();
        } else {
            self.epoch += 1;
        }
    }
}
