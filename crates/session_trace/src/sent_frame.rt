//! What a frame that was sent asks of a session.

use crate::difference::Difference;
use dialect::{Content, Dialect, decode};
use fix_tags::{
    Body, CompId, Config, MAX_MESSAGE_NUMBER, SessionBody, Stamp, read_envelope, read_stamp,
};
use fix_text::{Frame, FrameReader};
use leg::Leg;
use std::alloc::Global;

/// SendingTime (52).
const SENDING_TIME: u32 = 52;

/// The call that wrote a frame, as far as the frame tells.
#[derive(Debug, Drop)]
pub(crate) enum Origin {
    /// `connect`.
    Logon,
    /// `send_leg`.
    Order(Leg),
    /// `quiet`, or the message before the last one.
    Heartbeat,
    /// `silent` or `close`.
    Test,
    /// The answer to the exchange's, or to a fence's answer where the close was asked.
    Logout,
    /// The answer to a message.
    Answer,
}

/// A frame that was sent: its number (34), its moment (52), and the call that wrote it.
#[derive(Debug, Drop)]
pub(crate) struct SentFrame {
    pub number: u64,
    pub stamp: Stamp,
    pub origin: Origin,
}

/// The call that wrote a message of the session.
fn origin_of(says: &SessionBody<'_>) -> Origin {
    match says {
        SessionBody::Logon { .. } => Origin::Logon,
        SessionBody::Heartbeat { id: None } => Origin::Heartbeat,
        SessionBody::TestRequest { .. } => Origin::Test,
        SessionBody::Logout => Origin::Logout,
        _ => Origin::Answer,
    }
}

/// The call that wrote a message which says this; none where no session writes it.
fn origin_in(content: Content<'_>) -> Option<Origin> {
    match content {
        Content::Session(says) => Some(origin_of(&says)),
        Content::Order(Ok(leg)) => Some(Origin::Order(leg)),
        Content::Order(Err(_)) => None,
        Content::ExecutionReport(_) => None,
        Content::Other => None,
    }
}

/// What a frame asks; none where no session writes it.
fn sent_in<D: Dialect>(dialect: &D, frame: &Frame<'_>) -> Option<SentFrame> {
    let stamp = read_stamp(frame.get(SENDING_TIME)?)?;
    let Ok(envelope) = read_envelope(frame) else {
        return None;
    };
    let number = envelope.number();
    let origin = origin_in(decode(dialect, &envelope).content)?;
    Some(SentFrame {
        number,
        stamp,
        origin,
    })
}

/// What the first frame in these bytes asks; none where there is no message of a session in them.
pub(crate) fn sent_frame<D: Dialect>(
    alloc: Global,
    dialect: &D,
    bytes: &[u8],
) -> Result<Option<SentFrame>, Difference> {
    let mut reader = FrameReader::new(alloc);
    if reader.feed(bytes).is_err() {
        return Err(Difference::OutOfMemory);
    }
    match reader.next() {
        Ok(Some(frame)) => Ok(sent_in(dialect, &frame)),
        Ok(None) => Ok(None),
        Err(_) => Err(Difference::OutOfMemory),
    }
}

/// What the Logon of a session says of its configuration.
fn config_said(frame: &Frame<'_>) -> Option<Config> {
    let Ok(envelope) = read_envelope(frame) else {
        return None;
    };
    let Body::Session(SessionBody::Logon { heart, next, .. }) = envelope.body() else {
        return None;
    };
    let me = CompId::new(envelope.sender())?;
    let peer = CompId::new(envelope.target())?;
    let config = Config::new(me, peer, *heart, MAX_MESSAGE_NUMBER + 1)?;
    if next.is_some() {
        return Some(config.with_next());
    }
    Some(config)
}

/// What a session is configured with whose Logon is the first frame in these bytes; none where that is no Logon.
pub(crate) fn config_in(alloc: Global, bytes: &[u8]) -> Result<Option<Config>, Difference> {
    let mut reader = FrameReader::new(alloc);
    if reader.feed(bytes).is_err() {
        return Err(Difference::OutOfMemory);
    }
    match reader.next() {
        Ok(Some(frame)) => Ok(config_said(&frame)),
        Ok(None) => Ok(None),
        Err(_) => Err(Difference::OutOfMemory),
    }
}
