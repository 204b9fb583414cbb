ghost use Rattle.std.specs.Prelude.{◌≡◌, ◌<◌, ◌-◌, length, vec_len, MatchOption};
ghost use Rattle.memo.specs.Buckets.{bucket_of};
ghost use Rattle.records.specs.Keys.{record_at, Absent, Present};
ghost use Rattle.diagram.specs.Uses.{in_use, room_for};

use super::Places;
use memo::bucket;
use records::Record;

impl Places {
    pub(crate) fn len(&self) -> usize
        ensures { result ≡ length (in_use self.now) }
    {
        self.nodes.len()
    }

    pub(crate) fn room(&self) -> usize
        ensures { result ≡ room_for self.now }
    {
        self.room
    }

    pub(crate) fn get(&self, p: usize) -> Record
        requires { p < length (in_use self.now) }
        ensures { result ≡ record_at (in_use self.now) p }
    {
        self.nodes[p].record
    }

    // The chain of `r`'s key.
    pub(super) fn chain_of(&self, r: Record) -> usize
        ensures chain { result ≡ bucket_of (vec_len self.now.heads - 1) r.input r.low r.high }
        ensures within { result < vec_len self.now.heads }
    {
        bucket(self.heads.len() - 1, r.input, r.low, r.high)
    }

    // The place that has `r`'s key, if one has it.
    pub(super) fn seek(&self, r: Record) -> Option<usize>
        ensures { MatchOption result
            (Absent (in_use self.now) r.input r.low r.high)
            (λ p. Present (in_use self.now) r.input r.low r.high p) }
    {
        let mut link = self.heads[self.chain_of(r)];
        while let Some(p) = link.place() {
            let node = self.nodes[p];
            let s = node.record;
            // by its parts, since a record has its reach beside its key
            if s.input == r.input && s.low == r.low && s.high == r.high {
                return Some(p);
            }
            link = node.next;
        }
        None
    }
}
