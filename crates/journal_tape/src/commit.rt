//! A text on a tape goes on.

ghost use Rattle.std.specs.Prelude.{◌≡◌, ◌++◌, ◌+◌, true, length, List, ℕ, OnOk};
ghost use Rattle.journal_tape.specs.Tape.{IsBetween, IsSettled, LeavesOnly, has_no_nul, text};

use crate::tape::{Tape, TapeFault};

/// Writes a text behind the one that is kept, and keeps it.
pub(crate) fn commit<T: Tape>(
    tape: &mut T,
    end: usize,
    room: usize,
    more: &[u8],
) -> Result<(), TapeFault>
    requires settled { IsSettled (T.seen tape.old) (T.may_leave tape.old) end room }
    requires clean { has_no_nul more.now ≡ true }
    ensures settled { OnOk result (IsSettled (T.seen tape.new) (T.may_leave tape.new) (end + length more.now) room) }
    ensures kept { OnOk result (text (T.seen tape.new) ≡ text (T.seen tape.old) ++ more.now) }

    // whatever a crash leaves now, it has the text from before the call, with a beginning of the new one behind it
    ensures crash { (c : List ℕ) → T.may_leave tape.new c → IsBetween (text (T.seen tape.old)) more.now (text c) }

    // and whatever it might have left at each moment of the call
    ensures any_moment { LeavesOnly T.moment T.left_since tape.old tape.new
        (λ c. IsBetween (text (T.seen tape.old)) more.now (text c)) }
{
    if more.len() > room - end {
        return Err(TapeFault::Full);
    }
    tape.write_at(end, more)?;
    tape.sync()?;
    Ok(())
}
