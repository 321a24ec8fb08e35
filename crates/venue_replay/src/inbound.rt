//! What a frame that a session received tells.

use dialect::Note;
use session_core::{Ended, LegIds};

/// What a frame that a session received tells.
#[derive(Debug, Drop)]
pub struct Inbound {
    /// The note on a leg, if there is one. It is to be confirmed once the book has it.
    pub note: Option<Note>,
    /// The legs that are now withdrawn, before the note is taken.
    pub withdrawn: LegIds,
    /// Why the connection ended, if it did.
    pub ended: Option<Ended>,
}
