//! A body from its words, as `logon heart=30 reset=N next=1`.

use case_fields::{fields_in, flag_of, number_of, text_of};
use case_text::PlayFault;
use fix_tags::{Body, SessionBody, TextRef};
use fix_text::Fields;
use std::alloc::Global;

/// A message of the session about numbers.
fn number_body<'a>(words: &[&str]) -> Result<SessionBody<'a>, PlayFault> {
    match words {
        ["resend_request", begin, last] => Ok(SessionBody::ResendRequest {
            begin: number_of(begin, "begin")?,
            last: number_of(last, "last")?,
        }),
        ["gap_fill", new] => Ok(SessionBody::GapFill {
            new_number: number_of(new, "new")?,
        }),
        ["reset", new] => Ok(SessionBody::Reset {
            new_number: number_of(new, "new")?,
        }),
        ["reject", number] => Ok(SessionBody::Reject {
            number: number_of(number, "number")?,
        }),
        ["business_reject"] => Ok(SessionBody::BusinessReject { number: None }),
        ["business_reject", number] => Ok(SessionBody::BusinessReject {
            number: Some(number_of(number, "number")?),
        }),
        _ => Err(PlayFault::NotUnderstood),
    }
}

/// A message of the session. Its text is put into `room`, which lends it.
fn session_body<'a>(
    alloc: Global,
    words: &[&str],
    room: &'a mut Vec<u8>,
) -> Result<SessionBody<'a>, PlayFault> {
    match words {
        ["logon", heart, reset] => Ok(SessionBody::Logon {
            heart: number_of(heart, "heart")?,
            reset: flag_of(reset, "reset")?,
            next: None,
        }),
        ["logon", heart, reset, next] => Ok(SessionBody::Logon {
            heart: number_of(heart, "heart")?,
            reset: flag_of(reset, "reset")?,
            next: Some(number_of(next, "next")?),
        }),
        ["heartbeat"] => Ok(SessionBody::Heartbeat { id: None }),
        ["heartbeat", id] => {
            *room = text_of(alloc, id, "id")?;
            Ok(SessionBody::Heartbeat {
                id: Some(TextRef::new(room.as_slice())),
            })
        }
        ["test_request", id] => {
            *room = text_of(alloc, id, "id")?;
            Ok(SessionBody::TestRequest {
                id: TextRef::new(room.as_slice()),
            })
        }
        ["logout"] => Ok(SessionBody::Logout),
        _ => number_body(words),
    }
}

/// An application message. Its kind is put into `room`, which lends it.
fn app_body<'a>(
    alloc: Global,
    kind: &str,
    fields: &str,
    room: &'a mut Vec<u8>,
) -> Result<Body<'a, Fields>, PlayFault> {
    *room = text_of(alloc, kind, "kind")?;
    Ok(Body::App {
        kind: TextRef::new(room.as_slice()),
        fields: Fields::new(fields_in(alloc, fields)?),
    })
}

/// The body that the words say. Its text is put into `room`, which lends it.
pub fn body_in<'a>(
    alloc: Global,
    words: &[&str],
    room: &'a mut Vec<u8>,
) -> Result<Body<'a, Fields>, PlayFault> {
    match words {
        ["app", kind] => app_body(alloc, kind, "", room),
        ["app", kind, fields] => app_body(alloc, kind, fields, room),
        _ => Ok(Body::Session(session_body(alloc, words, room)?)),
    }
}
