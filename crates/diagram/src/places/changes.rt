ghost use Rattle.std.specs.Prelude.{◌≡◌, ◌-◌, ◌<◌, ◌≤◌, min, [], length, take, IfOk};
ghost use Rattle.records.specs.Keys.{Absent, Added};
ghost use Rattle.diagram.specs.Uses.{in_use, room_for};

use super::link::Link;
use super::{Node, Places};
use records::Record;
use std::alloc::{AllocError, Global};

// The most places that there can be.
const MOST: usize = 1048576;

impl Places {
    // No records, and room for `capacity` of them or for the most that there can be. Nothing after this allocates.
    pub(crate) fn new(heap: Global, capacity: usize) -> Result<Places, AllocError>
        ensures { IfOk result (λ t. (in_use t ≡ []) × (room_for t ≡ min capacity 1048576)) }
    {
        let room = capacity.min(MOST);
        let nodes = Vec::with_capacity(heap, room)?;
        let heads = vec![in heap; Link::default(); room.next_power_of_two()]?;
        Ok(Places { nodes, heads, room })
    }

    // Puts `r`, whose key no record has, at the next place, if there is one.
    fn put(&mut self, r: Record) -> Option<usize>
        requires { Absent (in_use self.old) r.input r.low r.high }
        ensures place { Added (in_use self.old) (room_for self.old) r result (in_use self.new) }
        ensures room { room_for self.new ≡ room_for self.old }
    {
        let p = self.nodes.len();
        if p == self.room {
            return None;
        }
        let b = self.chain_of(r);
        let node = Node {
            record: r,
            next: self.heads[b],
        };
        self.heads[b] = Link::to(p);
        self.nodes.push_reserved(node);
        Some(p)
    }

    // The place of `r`'s key, at which `r` is put if no place has the key; `None` where all places are in use then.
    pub(crate) fn add(&mut self, r: Record) -> Option<usize>
        ensures place { Added (in_use self.old) (room_for self.old) r result (in_use self.new) }
        ensures room { room_for self.new ≡ room_for self.old }
    {
        // a closure for `or_else` would have to say what it does to the places, as `put` says it
        match self.seek(r) {
            Some(p) => Some(p),
            None => self.put(r),
        }
    }

    // Takes the last record out. It is the first of its chain, which is looked up while the index is whole: so no `pop`.
    fn drop_last(&mut self)
        requires { 0 < length (in_use self.old) }
        ensures list { in_use self.new ≡ take (length (in_use self.old) - 1) (in_use self.old) }
        ensures room { room_for self.new ≡ room_for self.old }
    {
        let p = self.nodes.len() - 1;
        let node = self.nodes[p];
        let b = self.chain_of(node.record);
        self.heads[b] = node.next;
        self.nodes.truncate(p);
    }

    // Back to the first `n` records.
    pub(crate) fn truncate(&mut self, n: usize)
        requires { n ≤ length (in_use self.old) }
        ensures list { in_use self.new ≡ take n (in_use self.old) }
        ensures room { room_for self.new ≡ room_for self.old }
    {
        for _ in n..self.nodes.len() {
            self.drop_last();
        }
    }
}
