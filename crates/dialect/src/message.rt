//! A message as a session and an exchange understand it.

ghost use Rattle.std.specs.Prelude.{◌≡◌};
ghost use Rattle.dialect.specs.Addressed.{message_of};

use crate::content::Content;
use fix_tags::{Config, TextRef};

/// A message whose application fields a dialect has read: its header (FIX 4.4 Volume 2, "Standard Message Header"), and
/// what it says.
#[derive(Clone, Debug, Drop)]
pub struct Message<'a> {
    /// SenderCompID (49).
    pub from: TextRef<'a>,
    /// TargetCompID (56).
    pub to: TextRef<'a>,
    /// MsgSeqNum (34).
    pub number: u64,
    /// PossDupFlag (43): the message may have been sent before, under this number.
    pub poss_dup: bool,
    pub content: Content<'a>,
}

impl<'a> Message<'a> {
    /// A message from one end of a session to its peer, under a number; the mark says that the peer may have seen it
    /// before (43=Y).
    pub fn to_peer(
        config: &'a Config,
        number: u64,
        poss_dup: bool,
        content: Content<'a>,
    ) -> Message<'a>
        ensures { result ≡ message_of config.entry.now number poss_dup content.entry }
    {
        Message {
            from: TextRef::new(config.me().as_bytes()),
            to: TextRef::new(config.peer().as_bytes()),
            number,
            poss_dup,
            content,
        }
    }
}
