//! A list that is read on for, where memory for it is refused.

ghost use Rattle.std.specs.Prelude.{◌≡◌, ◌∷◌, ◌++◌, [], false, true, IfOk, OnErr};

use std::alloc::{AllocError, Global};

/// What was read so far, or that memory was refused for it. Reading goes on to the end of the text all the same, so
/// that a fault of the text comes before out of memory.
#[derive(Drop)]
pub(crate) struct Kept<T> {
    pub(crate) items: Vec<T>,
    pub(crate) is_refused: bool,
}

impl<T: Drop> Kept<T> {
    pub(crate) fn new(alloc: Global) -> Kept<T>
        ensures items { result.items.items ≡ [] }
        ensures kept { result.is_refused ≡ false }
    {
        Kept {
            items: Vec::new(alloc),
            is_refused: false,
        }
    }

    pub(crate) fn keep(&mut self, item: T)
        ensures items { self.new.is_refused ≡ false → self.new.items.items ≡ self.old.items.items ++ item ∷ [] }
        ensures before { self.new.is_refused ≡ false → self.old.is_refused ≡ false }
    {
        if !self.is_refused && self.items.push(item).is_err() {
            self.is_refused = true;
        }
    }

    /// Memory was refused for the next item.
    pub(crate) fn refuse(&mut self)
        ensures { self.new.is_refused ≡ true }
    {
        self.is_refused = true;
    }

    /// The whole list, where no memory was refused.
    pub(crate) fn finish(self) -> Result<Vec<T>, AllocError>
        ensures kept { IfOk result (λ items. (self.is_refused ≡ false) × (items ≡ self.items)) }
        ensures refused { OnErr result (self.is_refused ≡ true) }
    {
        if self.is_refused {
            return Err(AllocError);
        }
        Ok(self.items)
    }
}
