//! Messages of a session, in words.

use case_fields::flag_text;
use case_text::shown;
use fix_tags::SessionBody;
use std::alloc::{AllocError, Global};

/// The words of a message about numbers, or of one that says no more than its kind.
fn number_text(alloc: Global, says: &SessionBody<'_>) -> Result<String, AllocError> {
    match says {
        SessionBody::ResendRequest { begin, last } => {
            format!(in alloc; "resend_request begin={begin} last={last}")
        }
        SessionBody::GapFill { new_number } => format!(in alloc; "gap_fill new={new_number}"),
        SessionBody::Reset { new_number } => format!(in alloc; "reset new={new_number}"),
        SessionBody::Reject { number } => format!(in alloc; "reject number={number}"),
        SessionBody::BusinessReject { number: None } => format!(in alloc; "business_reject"),
        SessionBody::BusinessReject {
            number: Some(number),
        } => format!(in alloc; "business_reject number={number}"),
        _ => format!(in alloc; "logout"),
    }
}

/// The words of a message of the session.
pub fn session_text(alloc: Global, says: &SessionBody<'_>) -> Result<String, AllocError> {
    match says {
        SessionBody::Logon { heart, reset, next } => {
            let reset = flag_text(*reset);
            let mut text = format!(in alloc; "logon heart={heart} reset={reset}")?;
            if let Some(next) = next {
                write!(text, " next={next}")?;
            }
            Ok(text)
        }
        SessionBody::Heartbeat { id: None } => format!(in alloc; "heartbeat"),
        SessionBody::Heartbeat { id: Some(id) } => {
            format!(in alloc; "heartbeat id={}", shown(alloc, id.as_bytes())?)
        }
        SessionBody::TestRequest { id } => {
            format!(in alloc; "test_request id={}", shown(alloc, id.as_bytes())?)
        }
        _ => number_text(alloc, says),
    }
}
