//! Frames are kept.

ghost use Rattle.std.specs.Prelude.{◌≡◌, ◌++◌, OnOk, OnErr};
ghost use Rattle.venue_replay.specs.AtVenue.{written_in};

use crate::frame::Frame;
use std::alloc::AllocError;

/// Keeps the frames that were written into a connection, behind those that are kept already. Out of memory leaves
/// these as they were.
pub fn keep(kept: &mut Vec<Frame>, connection: u64, written: Vec<Vec<u8>>) -> Result<(), AllocError>
    ensures ok { OnOk result (kept.new.items ≡ kept.old.items ++ written_in connection written.items) }
    ensures err { OnErr result (kept.new.items ≡ kept.old.items) }
{
    kept.reserve(written.len())?;
    for bytes in written {
        kept.push_reserved(Frame { connection, bytes });
    }
    Ok(())
}
