//! A message of a log.

ghost use Rattle.std.specs.Prelude.{◌≡◌};
ghost use Rattle.log_rules.specs.Entry.{entry_of};

use crate::moment::Moment;
use crate::said::said_by;
use crate::says::Says;
use fix_tags::EnvelopeRef;
use log_text::LogLine;
use message_log::Direction;

/// A message of a log, as far as the rules look at it.
#[derive(Debug, Drop)]
pub struct Entry<'a> {
    pub direction: Direction,
    pub moment: Moment,
    /// MsgSeqNum (34).
    pub number: u64,
    /// PossDupFlag (43).
    pub poss_dup: bool,
    /// PossResend (97).
    pub poss_resend: bool,
    pub says: Says<'a>,
}

impl<'a> Entry<'a> {
    /// The message of a line.
    pub fn new(line: &LogLine, message: &EnvelopeRef<'a>) -> Entry<'a>
        ensures { result ≡ entry_of line.now message.now }
    {
        Entry {
            direction: line.direction,
            moment: Moment::of(&line.stamp),
            number: message.number(),
            poss_dup: message.poss_dup(),
            poss_resend: message.poss_resend(),
            says: said_by(message.body()),
        }
    }
}
