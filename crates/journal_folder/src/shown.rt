//! What was asked of a file, for contracts alone.

ghost use Rattle.std.specs.Prelude.{◌≡◌, []};
ghost use Rattle.journal_folder.specs.FileCalls.{FileCalls, calls_coded, with_sync, with_write};
ghost use base.Fml.{ftrue};

use std::marker::Model;

/// The calls on a file of zeros, in which each write goes behind those before. It takes no byte: contracts alone see
/// it.
#[derive(Drop)]
pub(crate) struct Shown {
    ghost calls: { FileCalls } by { calls_coded },
}

impl Model for Shown {
    ghost also_owns = { λ _. ftrue };
}

impl Shown {
    /// None was made yet.
    pub(crate) fn new() -> Shown
        ensures { result.calls ≡ [] }
    {
        Shown {}
    }

    /// These bytes are being written behind the others.
    pub(crate) fn writing(&self, _bytes: &[u8]) -> Shown
        ensures { result.calls ≡ with_write _bytes.now self.now.calls }
    {
        Shown {}
    }

    /// All is on the disk.
    pub(crate) fn synced(&self) -> Shown
        ensures { result.calls ≡ with_sync self.now.calls }
    {
        Shown {}
    }
}

unsafe impl Send for Shown {}
