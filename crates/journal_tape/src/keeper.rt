//! What keeps lines for a later life.

ghost use Rattle.std.specs.Prelude.{◌≡◌, ◌++◌, ◌∷◌, [], true, OnErr, OnOk};

use thiserror::Error;

/// Why lines aren't known to be kept.
#[derive(Clone, Copy, Debug, PartialEq, Eq, Error)]
pub enum JournalFault {
    #[error("a line with a NUL or an end of line in it")]
    NotALine,
    #[error("out of memory")]
    OutOfMemory,
    #[error("the journal can't be written")]
    NotWritten,
}

/// A journal: lines are told to it, and kept by a later call. It can't be learnt from anything else that they are.
pub trait Journal: Drop {
    ghost use Rattle.std.specs.Prelude.{List, ℕ};

    // the lines that a later life finds, in order
    ghost kept: { Self → List (List ℕ) };

    // those that were told since
    ghost unkept: { Self → List (List ℕ) };

    /// Tells a line, which isn't kept by that.
    fn tell(&mut self, line: &[u8]) -> Result<(), JournalFault>
        ensures told { OnOk result (unkept self.new ≡ unkept self.old ++ line.now ∷ []) }
        ensures same { OnErr result (unkept self.new ≡ unkept self.old) }
        ensures kept { kept self.new ≡ kept self.old };

    /// Keeps all lines that were told. At `Err` they stay told, and may be kept by a later call.
    fn keep(&mut self) -> Result<(), JournalFault>
        ensures kept { OnOk result (kept self.new ≡ kept self.old ++ unkept self.old) }
        ensures none_left { OnOk result (unkept self.new ≡ []) }
        ensures same { OnErr result (kept self.new ≡ kept self.old) }
        ensures still_told { OnErr result (unkept self.new ≡ unkept self.old) };

    /// Whether there is nothing to keep.
    fn is_kept(&self) -> bool
        ensures { result ≡ true → unkept self.now ≡ [] };
}
