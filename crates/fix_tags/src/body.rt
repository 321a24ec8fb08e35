//! What a message says.

use crate::app_fields::AppFields;
use crate::session_body::SessionBody;
use crate::text_ref::TextRef;

/// The body of a message: one of the session's, or an application message. `F` holds an application message's fields:
/// `Fields` where it is written, `AppFields` where it was read. `write_envelope` says which values can be written.
#[derive(Debug, Drop)]
pub enum Body<'a, F> {
    Session(SessionBody<'a>),
    /// Any other kind (35), with its fields in order but for those of the header and the trailer.
    App { kind: TextRef<'a>, fields: F },
}

/// The body of a message that was read, lent from its frame.
pub type BodyRef<'a> = Body<'a, AppFields<'a>>;
