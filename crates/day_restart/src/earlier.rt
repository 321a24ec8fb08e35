//! The lines that counted before a life, for contracts alone.

ghost use Rattle.std.specs.Prelude.{◌≡◌, List, ℕ};
ghost use Rattle.day_restart.specs.Earlier.{lines_coded};
ghost use base.Fml.{ftrue};

use journal_folder::Found;
use std::marker::Model;

/// The lines that counted before a life. It takes no byte: contracts alone see it.
#[derive(Drop)]
pub struct Earlier {
    pub ghost lines: { List (List ℕ) } by { lines_coded },
}

impl Model for Earlier {
    ghost also_owns = { λ _. ftrue };
}

impl Earlier {
    /// Those that were found.
    pub fn of(_found: &Found) -> Earlier
        ensures { result.lines ≡ _found.now.lines }
    {
        Earlier {}
    }
}

unsafe impl Send for Earlier {}
