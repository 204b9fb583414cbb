ghost use Rattle.std.specs.Prelude.{◌<◌, ◌-◌, ◌≤◌, map, vec_len, vec_capacity};
ghost use Rattle.diagram.specs.Chains.{records_of, links_of, rank, Chained};

use link::Link;
use records::Record;

mod changes;
mod link;
mod reads;

// A place in use: its record, and the next place of its chain.
#[derive(Clone, Copy)]
struct Node {
    record: Record,
    next: Link,
}

// The records in use, each key at most once, with an index by key (a unique table): a chain of places for each hash, from
// its head down. A chain goes by number, since the places lie in one list. All room is reserved when the places are made;
// it stands beside the list, since a list may reserve more than was asked for. Nothing outside of this module sees the
// index.
#[derive(Drop)]
pub(crate) struct Places {
    nodes: Vec<Node>,
    heads: Vec<Link>,
    room: usize,
    ghost small: { room ≤ 1048576 },
    ghost reserved: { room ≤ vec_capacity nodes },
    ghost within: { vec_len nodes ≤ room },
    ghost some: { 0 < vec_len heads },
    ghost chained: { ∥ Chained (vec_len heads - 1) (records_of nodes.items) (map rank heads.items) (links_of nodes.items) ∥₁ },
}
