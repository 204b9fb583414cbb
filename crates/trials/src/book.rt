// The book of a list of calls: the signals that were answered with handles, and their parts.
use crate::parts::Parts;
use crate::signals::Signal;
use std::alloc::{AllocError, Global};
use std::collections::{HashMap, HashSet};

#[derive(Drop)]
pub(crate) struct Book {
    heap: Global,
    parts: Parts,
    signals: HashMap<u32, Signal>,
    handles: HashMap<Signal, u32>,
}

impl Book {
    pub(crate) fn new(heap: Global) -> Book {
        Book {
            heap,
            parts: HashSet::new(heap),
            signals: HashMap::new(heap),
            handles: HashMap::new(heap),
        }
    }

    // The number of places that are to be in use.
    pub(crate) fn places(&self) -> usize {
        self.parts.len()
    }

    // The parts of the signals that were booked.
    pub(crate) fn parts(&self) -> &Parts {
        &self.parts
    }

    // The signal that was booked for a handle.
    pub(crate) fn signal(&self, handle: u32) -> Option<&Signal> {
        self.signals.get(&handle)
    }

    // The handle that was booked for a signal.
    pub(crate) fn handle(&self, signal: &[u8]) -> Option<u32> {
        self.handles.get(signal).copied()
    }

    // Books a signal that has no handle, with those of its parts that were missing. Whether the handle was booked for no
    // other signal.
    pub(crate) fn enter(
        &mut self,
        handle: u32,
        signal: &[u8],
        parts: Parts,
    ) -> Result<bool, AllocError> {
        self.parts.extend(parts)?;
        self.handles.insert(signal.to_vec(self.heap)?, handle)?;
        let other = self.signals.insert(handle, signal.to_vec(self.heap)?)?;
        Ok(other.is_none())
    }
}
