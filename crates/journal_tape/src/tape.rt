//! A file of a fixed length, as a journal sees it.

ghost use Rattle.std.specs.Prelude.{◌≡◌, ◌++◌, ◌+◌, ◌≤◌, List, ℕ, length, take, drop, OnOk};
ghost use Rattle.journal_tape.specs.Tape.{Elapses, Follows, MixesAt, Only};

use thiserror::Error;

/// Why a tape didn't take bytes. After either nothing more is written to it.
#[derive(Clone, Copy, Debug, PartialEq, Eq, Error)]
pub enum TapeFault {
    #[error("the file can't be written")]
    Failed,
    #[error("the file is full")]
    Full,
}

/// A file whose length stays as it is. After a crash each byte that was being written is the old one or the new one.
pub trait Tape: Drop {
    // the bytes that a read gives
    ghost seen: { Self → List ℕ };

    // what a crash at this moment may leave
    ghost may_leave: { Self → List ℕ → Type 0 };

    // a number that doesn't fall
    ghost moment: { Self → ℕ };

    // what a crash at some moment from that one on might have left, during a call or between two
    ghost left_since: { Self → ℕ → List ℕ → Type 0 };

    /// Writes over what is there.
    fn write_at(&mut self, at: usize, bytes: &[u8]) -> Result<(), TapeFault>
        requires { at + length bytes.now ≤ length (seen self.old) }
        ensures written { OnOk result (seen self.new
            ≡ take at (seen self.old) ++ bytes.now ++ drop (at + length bytes.now) (seen self.old)) }
        ensures crash { Follows (MixesAt at bytes.now) (may_leave self.old) (may_leave self.new) }
        ensures time { Elapses (moment self.old) (moment self.new) (left_since self.old) (left_since self.new)
            (may_leave self.new) };

    /// After it, a crash leaves what a read gives.
    fn sync(&mut self) -> Result<(), TapeFault>
        ensures durable { OnOk result (Only (seen self.old) (may_leave self.new)) }
        ensures seen { seen self.new ≡ seen self.old }
        ensures crash { (c : List ℕ) → may_leave self.new c → may_leave self.old c }
        ensures time { Elapses (moment self.old) (moment self.new) (left_since self.old) (left_since self.new)
            (may_leave self.new) };

    // this moment is one of those since an earlier one
    ghost counts_now: { (tape : Self) (t : ℕ) (c : List ℕ) → t ≤ moment tape → may_leave tape c
        → left_since tape t c };

    // since this moment there is no other
    ghost only_now: { (tape : Self) (c : List ℕ) → left_since tape (moment tape) c → may_leave tape c };
}
