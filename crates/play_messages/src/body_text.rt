//! A body in the words that `body_in` reads.

use case_text::{PlayFault, shown};
use case_words::session_text;
use fix_tags::{AppFields, Body, BodyRef};
use fix_text::Frame;
use std::alloc::{AllocError, Global};

/// The words of an application message: its kind, and the fields of its frame that are among its own.
fn app_text(
    alloc: Global,
    frame: &Frame<'_>,
    kind: &[u8],
    fields: &AppFields<'_>,
) -> Result<String, AllocError> {
    let mut own = String::new(alloc);
    for field in frame.iter() {
        if fields.get(field.tag()).is_some() {
            let value = shown(alloc, field.value())?;
            write!(own, "{}={value}|", field.tag())?;
        }
    }
    let kind = shown(alloc, kind)?;
    if own.is_empty() {
        format!(in alloc; "app kind={kind}")
    } else {
        format!(in alloc; "app kind={kind} {own}")
    }
}

/// The words of a body that was read from this frame.
pub fn body_text(
    alloc: Global,
    frame: &Frame<'_>,
    body: &BodyRef<'_>,
) -> Result<String, PlayFault> {
    let text = match body {
        Body::Session(says) => session_text(alloc, says)?,
        Body::App { kind, fields } => app_text(alloc, frame, kind.as_bytes(), fields)?,
    };
    Ok(text)
}
