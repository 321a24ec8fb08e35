//! An envelope from its words, as `A B 2 dup heartbeat id=F2`.

use crate::body_in::body_in;
use case_text::{PlayFault, bytes_of, number};
use fix_tags::{CompId, Envelope, Stamp};
use std::alloc::Global;

/// When each message is sent: 2024-01-02 14:30:00.000.
pub fn moment() -> Result<Stamp, PlayFault> {
    Stamp::new(2024, 1, 2, 14, 30, 0, 0).ok_or(PlayFault::NotUnderstood)
}

/// The name of a firm.
pub fn firm(alloc: Global, word: &str) -> Result<CompId, PlayFault> {
    CompId::new(&bytes_of(alloc, word)?).ok_or(PlayFault::NotUnderstood)
}

/// Whether a mark stands first, and the words behind it.
fn mark<'a, 'b>(words: &'a [&'b str], mark: &str) -> (bool, &'a [&'b str]) {
    match words {
        [first, rest @ ..] if *first == mark => (true, rest),
        _ => (false, words),
    }
}

/// The message that the words say: sender, target, number, `dup`, `resend` and the body. The body's text is put into
/// `room`, which lends it.
pub fn envelope_in<'a>(
    alloc: Global,
    words: &[&str],
    room: &'a mut Vec<u8>,
) -> Result<Envelope<'a>, PlayFault> {
    let [sender, target, number_word, rest @ ..] = words else {
        return Err(PlayFault::NotUnderstood);
    };
    let (poss_dup, rest) = mark(rest, "dup");
    let (poss_resend, rest) = mark(rest, "resend");
    Ok(Envelope {
        sender: firm(alloc, sender)?,
        target: firm(alloc, target)?,
        number: number(number_word)?,
        poss_dup,
        poss_resend,
        body: body_in(alloc, rest, room)?,
    })
}
