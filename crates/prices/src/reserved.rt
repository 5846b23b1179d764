// Lists made with room for all that they may hold, so that adding to one never wants memory.
ghost use Rattle.std.specs.Prelude.{◌≡◌, ◌<◌, ◌≤◌, [], ◌∷◌, ◌++◌, length, Ok, Err, nat_lt, vec_items, vec_len, vec_capacity};
ghost use Rattle.measures.specs.declared.fault.Cause.TheVariants.{OutOfMemory};
ghost use Rattle.prices.specs.Refusals.{price_fault};

use crate::faults::price_fault;
use measures::fault::{Cause, Fault};
use std::alloc::Global;

// A list of at most `MOST` items.
#[derive(Drop)]
pub struct Reserved<T, const MOST: usize> {
    items: Vec<T>,
    ghost few: { vec_len items ≤ MOST },
    ghost room: { MOST ≤ vec_capacity items },
}

impl<T, const MOST: usize> Reserved<T, MOST> {
    // An empty list; refused only for want of memory.
    pub fn new(heap: Global) -> Result<Reserved<T, MOST>, Fault>
        ensures { elim result [ Ok list ↦ vec_items list.items ≡ [] | Err f ↦ f ≡ price_fault OutOfMemory None ] }
    {
        let no_memory = price_fault(Cause::OutOfMemory, None);
        let items = Vec::with_capacity(heap, MOST).map_err(|_| no_memory)?;
        Ok(Reserved { items })
    }

    pub(crate) fn as_slice(&self) -> &[T]
        ensures { result.now ≡ vec_items self.now.items }
    {
        self.items.as_slice()
    }

    pub(crate) fn has_room(&self) -> bool
        ensures { result ≡ nat_lt (length (vec_items self.now.items)) MOST }
    {
        self.items.len() < MOST
    }

    pub(crate) fn push(&mut self, item: T)
        requires { length (vec_items self.old.items) < MOST }
        ensures { vec_items self.new.items ≡ vec_items self.old.items ++ item ∷ [] }
    {
        self.items.push_reserved(item);
    }
}
