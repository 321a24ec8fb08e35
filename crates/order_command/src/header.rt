//! The header of an order.
ghost use Rattle.std.specs.Prelude.{◌≡◌, ◌≤◌, false};
ghost use Rattle.order_command.specs.Header.{IsHeader};

use fix_tags::{Body, CompId, Envelope, MAX_MESSAGE_NUMBER, Stamp};
use fix_text::Fields;
use std::marker::Model;

/// What the header of an order says: who sends it to whom, under which number, and when.
#[derive(Debug, Drop)]
pub struct Header {
    from: CompId,
    to: CompId,
    number: u64,
    at: Stamp,
}

impl Model for Header {
    ghost use Rattle.order_command.specs.Header.{HeaderParts, IsHeader};

    ghost Value = { HeaderParts };

    ghost view = { λ h. record { from = h.from; to = h.to; number = h.number; at = h.at } };

    ghost invariant = { λ h. IsHeader (record { from = h.from; to = h.to; number = h.number; at = h.at }) };
}

impl Header {
    /// The header of these parts, with MsgSeqNum (34) from 1 to 999,999,998.
    pub fn new(from: CompId, to: CompId, number: u64, at: Stamp) -> Header
        requires low { 1 ≤ number }
        requires high { number ≤ MAX_MESSAGE_NUMBER }
        ensures { result ≡ record { from = from; to = to; number = number; at = at } }
    {
        Header {
            from,
            to,
            number,
            at,
        }
    }

    /// The sending time.
    pub fn at(&self) -> Stamp
        ensures value { result ≡ self.now.at }
        ensures in_range { IsHeader self.now }
    {
        self.at
    }

    /// The message of this body, sent once.
    pub fn message<'a>(self, body: Body<'a, Fields>) -> Envelope<'a>
        ensures { result ≡ record {
          sender = self.from;
          target = self.to;
          number = self.number;
          poss_dup = false;
          poss_resend = false;
          body = body.entry;
        } }
    {
        let Header {
            from,
            to,
            number,
            ..
        } = self;
        Envelope {
            sender: from,
            target: to,
            number,
            poss_dup: false,
            poss_resend: false,
            body,
        }
    }
}
