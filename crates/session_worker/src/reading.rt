//! What came over a link is handed to a session.

ghost use Rattle.std.specs.Prelude.{◌≡◌};
ghost use Rattle.fix_text.specs.FrameFields.{fields_in};
ghost use Rattle.link.specs.Traffic.{Tells, Stays};
ghost use Rattle.session_worker.specs.Linking.{HeardGives, HeardTold, StandsBehind, is_logged_on, is_logout};
ghost use Rattle.session_worker.specs.Saying.{words_by, HeardSays};

use crate::telling::tell_heard;
use dialect::Dialect;
use fix_tags::{Body, BodyRef, SessionBody, Stamp, read_envelope};
use fix_text::{Frame, FrameReader};
use kept_link::{Door, Telling};
use link::Link;
use report_words::{ReportWords, read_words};
use session_core::{Phase, Session, Step};
use std::sync::Wait;

/// What came of the next message.
#[derive(Drop)]
pub(crate) enum Heard {
    /// More bytes are needed.
    Nothing,
    /// The session received it, and this is to be done. Where it has a note, these are the words of the message.
    Step(Step, ReportWords),
    /// The frame was no message, and the session ended the connection.
    Malformed,
    /// The exchange logged out first. The session hasn't received the message, and the connection is to end.
    Parted,
    /// The frame or the session wanted memory, and the session hasn't received the message.
    OutOfMemory,
}

/// The words of a frame whose message gave a step, if that has a note.
pub(crate) fn words_by(frame: &Frame<'_>, step: &Step) -> ReportWords
    ensures { result ≡ words_by step.now.note (fields_in frame.now) }
{
    match &step.note {
        Some(_) => read_words(frame),
        None => ReportWords::none(),
    }
}

/// Whether both have logged on, and the session hasn't logged out.
fn is_logged_on(phase: Phase) -> bool
    ensures { result ≡ is_logged_on phase }
{
    match phase {
        Phase::Settling => true,
        Phase::Up => true,
        Phase::Closing => true,
        Phase::Down => false,
        Phase::LoggingOn => false,
        Phase::LoggedOut => false,
        Phase::Closed => false,
    }
}

/// Whether a message is a Logout.
fn is_logout(body: &BodyRef<'_>) -> bool
    ensures { result ≡ is_logout body.now }
{
    match body {
        Body::Session(SessionBody::Logout) => true,
        _ => false,
    }
}

/// Hands the next message that was read to a session, and tells the journal that it came. Where the venue reopens, a
/// Logout with which the exchange parts isn't handed to it.
pub(crate) fn hear<D: Dialect, K: Link, J: Telling>(
    rt: &impl Wait,
    dialect: &D,
    reopens: bool,
    reader: &mut FrameReader,
    session: &mut Session,
    stamp: &Stamp,
    door: &mut Door<K>,
    journal: &mut J,
) -> Heard
    ensures heard { HeardGives (D.wording dialect.now) session.old reader.old result session.new }
    ensures said { HeardSays reader.old result }
    ensures reader { StandsBehind result reader.old reader.new }
    ensures told { HeardTold reader.old result (J.told journal.old) (J.told journal.new) }
    ensures wire { Tells door.old.wire door.new.wire Stays }
{
    let frame = match reader.next() {
        Ok(Some(frame)) => frame,
        Ok(None) => return Heard::Nothing,
        Err(_) => return Heard::OutOfMemory,
    };
    match read_envelope(&frame) {
        Ok(envelope) if reopens && is_logged_on(session.phase()) && is_logout(envelope.body()) => {
            Heard::Parted
        }
        Ok(envelope) => match session.receive(dialect, &envelope, stamp) {
            Ok(step) => {
                tell_heard(rt, door, journal, stamp, &frame);
                let words = words_by(&frame, &step);
                Heard::Step(step, words)
            }
            Err(_) => Heard::OutOfMemory,
        },
        Err(_) => {
            let _ = session.malformed();
            tell_heard(rt, door, journal, stamp, &frame);
            Heard::Malformed
        }
    }
}
