// The different parts of signals, from their values on all patterns alone: a part is what is left of a signal with its
// first bits fixed. Parts that are constant take no place.
use crate::signals::{Signal, turned};
use algebra::Algebra;
use std::alloc::{AllocError, Global};
use std::collections::HashSet;

// Parts, with all parts of each.
pub(crate) type Parts = HashSet<Signal>;

// The parts of a signal that are missing from those that are known.
#[derive(Drop)]
struct Missing<'a, G> {
    heap: Global,
    algebra: &'a G,
    known: &'a Parts,
    parts: Parts,
}

impl<'a, G: Algebra> Missing<'a, G> {
    // Whether a part is one with its NOT, and its NOT is kept for both.
    fn is_turned(&self, part: &[u8]) -> bool {
        let changed = part
            .iter()
            .find(|value| self.algebra.turn(**value) != **value);
        part.iter().all(|value| self.algebra.is_settled(*value))
            && changed.is_some_and(|value| self.algebra.turn(*value) < *value)
    }

    // The values that are kept for a part.
    fn kept(&self, part: &[u8]) -> Result<Signal, AllocError> {
        if self.is_turned(part) {
            turned(self.heap, self.algebra, part)
        } else {
            part.to_vec(self.heap)
        }
    }

    // Adds the parts of a block of values: itself, if it depends on its first bit, and those of its halves.
    fn add(&mut self, block: &[u8]) -> Result<(), AllocError> {
        if block.len() < 2 {
            return Ok(());
        }
        let (low, high) = block.split_at(block.len() / 2);
        if low == high {
            return self.add(low);
        }
        let part = self.kept(block)?;
        if self.known.contains(&part) || !self.parts.insert(part)? {
            return Ok(());
        }
        self.add(low)?;
        self.add(high)
    }
}

// The parts of a signal that are missing from those that are known.
pub(crate) fn missing_parts<G: Algebra>(
    heap: Global,
    algebra: &G,
    known: &Parts,
    signal: &[u8],
) -> Result<Parts, AllocError> {
    let mut missing = Missing {
        heap,
        algebra,
        known,
        parts: HashSet::new(heap),
    };
    missing.add(signal)?;
    let Missing { parts, .. } = missing;
    Ok(parts)
}
