//! A message with its header, written or read. Contracts see both as one `Envelope`.
ghost use Rattle.std.specs.Prelude.{◌≡◌, ◌≤◌};

use crate::body::{Body, BodyRef};
use crate::comp_id::CompId;
use fix_text::Fields;
use std::marker::Model;

/// A message that is written, but for its sending time (FIX 4.4 Volume 2, "Standard Message Header").
#[derive(Debug, Drop)]
pub struct Envelope<'a> {
    /// SenderCompID (49).
    pub sender: CompId,
    /// TargetCompID (56).
    pub target: CompId,
    /// MsgSeqNum (34), 1 to 999,999,998.
    pub number: u64,
    /// PossDupFlag (43): the message may have been sent before, under this number.
    pub poss_dup: bool,
    /// PossResend (97): the message may have been sent before, under another number.
    pub poss_resend: bool,
    /// What the message says, which gives its MsgType (35).
    pub body: Body<'a, Fields>,
}

/// A message that was read, with its texts and fields lent from its frame.
#[derive(Debug, Drop)]
pub struct EnvelopeRef<'a> {
    sender: &'a [u8],
    target: &'a [u8],
    number: u64,
    poss_dup: bool,
    poss_resend: bool,
    body: BodyRef<'a>,
}

impl<'a> Model for EnvelopeRef<'a> {
    ghost use Rattle.fix_tags.specs.declared.envelope.Envelope.{Envelope};

    ghost Value = { Envelope };

    ghost use Rattle.fix_tags.specs.Readable.{IsRead};

    ghost view = { λ e. record {
      sender = e.sender.now;
      target = e.target.now;
      number = e.number;
      poss_dup = e.poss_dup;
      poss_resend = e.poss_resend;
      body = e.body;
    } };

    ghost invariant = { λ e. IsRead (record {
      sender = e.sender.now;
      target = e.target.now;
      number = e.number;
      poss_dup = e.poss_dup;
      poss_resend = e.poss_resend;
      body = e.body;
    }) };
}

impl<'a> EnvelopeRef<'a> {
    ghost use Rattle.fix_tags.specs.Readable.{IsRead};

    /// The message of these parts, as they were read from a frame.
    pub(crate) fn new(
        sender: &'a [u8],
        target: &'a [u8],
        number: u64,
        poss_dup: bool,
        poss_resend: bool,
        body: BodyRef<'a>,
    ) -> EnvelopeRef<'a>
        requires { IsRead (record {
          sender = sender.now;
          target = target.now;
          number = number;
          poss_dup = poss_dup;
          poss_resend = poss_resend;
          body = body;
        }) }
        ensures { result ≡ record {
          sender = sender.entry.now;
          target = target.entry.now;
          number = number;
          poss_dup = poss_dup;
          poss_resend = poss_resend;
          body = body.entry;
        } }
    {
        EnvelopeRef {
            sender,
            target,
            number,
            poss_dup,
            poss_resend,
            body,
        }
    }

    /// SenderCompID (49), 1 to 16 printable bytes.
    pub fn sender(&self) -> &'a [u8]
        ensures { result.now ≡ self.now.sender }
    {
        self.sender
    }

    /// TargetCompID (56), 1 to 16 printable bytes.
    pub fn target(&self) -> &'a [u8]
        ensures { result.now ≡ self.now.target }
    {
        self.target
    }

    /// MsgSeqNum (34), 1 to 999,999,998.
    pub fn number(&self) -> u64
        ensures { result ≡ self.now.number }
    {
        self.number
    }

    /// PossDupFlag (43).
    pub fn poss_dup(&self) -> bool
        ensures { result ≡ self.now.poss_dup }
    {
        self.poss_dup
    }

    /// PossResend (97).
    pub fn poss_resend(&self) -> bool
        ensures { result ≡ self.now.poss_resend }
    {
        self.poss_resend
    }

    /// What the message says, which its MsgType (35) gave.
    pub fn body(&self) -> &BodyRef<'a>
        ensures value { result.now ≡ self.now.body }
        ensures in_range { IsRead self.now }
    {
        &self.body
    }
}
