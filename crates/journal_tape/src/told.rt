//! The lines of a journal, for contracts alone.

ghost use Rattle.std.specs.Prelude.{◌≡◌};
ghost use Rattle.journal_tape.specs.Told.{LinesTold, all_kept, no_lines, told_coded, with_line};
ghost use base.Fml.{ftrue};

use std::marker::Model;

/// Which lines were told, and which of them are kept. It takes no byte: contracts alone see it.
#[derive(Drop)]
pub struct Told {
    pub ghost lines: { LinesTold } by { told_coded },
}

impl Model for Told {
    ghost also_owns = { λ _. ftrue };
}

impl Told {
    /// No line was told.
    pub fn new() -> Told
        ensures { result.lines ≡ no_lines }
    {
        Told {}
    }

    /// This line was told too.
    pub fn with(&self, _line: &[u8]) -> Told
        ensures { result.lines ≡ with_line _line.now self.now.lines }
    {
        Told {}
    }

    /// All of them are kept.
    pub fn all_kept(&self) -> Told
        ensures { result.lines ≡ all_kept self.now.lines }
    {
        Told {}
    }
}

unsafe impl Send for Told {}
