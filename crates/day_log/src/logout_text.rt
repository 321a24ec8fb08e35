//! What a venue said as it logged out.

use crate::frame_head::has_type;
use desk_words::{Printable, shown};
use std::sync::atomic::{AtomicBool, Ordering};
use std::sync::{Mutex, Wait};

/// What ends a field.
const SOH: u8 = 1;

/// MsgType (35) of a Logout.
pub(crate) const LOGOUT: &[u8; 5] = b"35=5\x01";

/// The most bytes of a text that are kept.
const MAX_TEXT: usize = 200;

/// The Text (58) of the last message that came, if that is a Logout, as it is shown: no more of it than 200 characters.
#[derive(Drop)]
pub struct LogoutText {
    // Whether there is a text: so a message that is no Logout seldom takes the lock.
    is_some: AtomicBool,
    text: Mutex<Option<Printable<MAX_TEXT>>>,
}

/// The value of a message's first Text (58), if it has one.
fn text_of(message: &[u8]) -> Option<&[u8]> {
    let field = message
        .split(|byte| *byte == SOH)
        .find(|field| field.starts_with(b"58="))?;
    field.get(3..)
}

/// What a message says, as it is shown, if it is a Logout with a text.
fn said_by(message: &[u8]) -> Option<Printable<MAX_TEXT>> {
    if !has_type(message, LOGOUT) {
        return None;
    }
    let text = text_of(message)?;
    Some(shown(text))
}

impl LogoutText {
    /// No message came.
    pub fn new() -> LogoutText {
        LogoutText {
            is_some: AtomicBool::new(false),
            text: Mutex::new(None),
        }
    }

    /// A message came.
    pub(crate) fn hear(&self, rt: &impl Wait, message: &[u8]) {
        let text = said_by(message);
        if text.is_none() && !self.is_some.load(Ordering::SeqCst) {
            return;
        }
        self.is_some.store(text.is_some(), Ordering::SeqCst);
        *self.text.lock(rt) = text;
    }

    /// What the last message said, if it is a Logout with a text. It may wait for a lock.
    pub fn now(&self, rt: &impl Wait) -> Option<Printable<MAX_TEXT>> {
        match &*self.text.lock(rt) {
            Some(text) => Some(text.clone().unwrap()),
            None => None,
        }
    }
}
