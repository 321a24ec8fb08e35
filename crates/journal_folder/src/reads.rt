//! What was found of the journals in a folder, for contracts alone.

ghost use Rattle.std.specs.Prelude.{◌≡◌, List, []};
ghost use Rattle.journal_folder.specs.Reads.{ReadAs, reads_coded, with_read};
ghost use base.Fml.{ftrue};

use crate::found::Found;
use std::marker::Model;

/// What was found of a folder's journals so far, each by its name. It takes no byte: contracts alone see it.
#[derive(Drop)]
pub struct FolderReads {
    pub ghost journals: { List ReadAs } by { reads_coded },
}

impl Model for FolderReads {
    ghost also_owns = { λ _. ftrue };
}

impl FolderReads {
    /// None was read yet.
    pub(crate) fn new() -> FolderReads
        ensures { result.journals ≡ [] }
    {
        FolderReads {}
    }

    /// This was found of the journal of this name.
    pub(crate) fn with(&self, _name: &[u8], _found: &Found) -> FolderReads
        ensures { result.journals ≡ with_read _name.now _found.now self.now.journals }
    {
        FolderReads {}
    }
}
