//! What a session is configured with.
ghost use Rattle.std.specs.Prelude.{true, ◌≡◌};
ghost use Rattle.fix_tags.specs.Config.{IsConfig, config_of};

use crate::comp_id::CompId;
use crate::limits::MAX_MESSAGE_NUMBER;
use std::marker::Model;

/// The longest heartbeat interval, in seconds: an hour.
const MAX_INTERVAL: u64 = 3_600;

/// The least number that the numbers of a session may end before.
const MIN_NUMBER_LIMIT: u64 = 16;

/// The greatest one.
const MAX_NUMBER_LIMIT: u64 = MAX_MESSAGE_NUMBER + 1;

/// The two ends of a session, how often it is heard from, and how far its numbers go (FIX 4.4 Volume 2).
#[derive(Debug, Drop)]
pub struct Config {
    me: CompId,
    peer: CompId,
    heart: u64,
    max_number: u64,
    has_next: bool,
}

impl Model for Config {
    ghost use Rattle.fix_tags.specs.Config.{ConfigParts, IsConfig};

    ghost Value = { ConfigParts };

    ghost view = { λ c. record {
      me = c.me;
      peer = c.peer;
      heart = c.heart;
      max_number = c.max_number;
      has_next = c.has_next;
    } };

    ghost invariant = { λ c. IsConfig (record
        { me = c.me; peer = c.peer; heart = c.heart; max_number = c.max_number; has_next = c.has_next }) };
}

impl Config {
    /// The configuration of a session between these names, or none unless the heartbeat interval is 1 to
    /// 3,600 seconds and `max_number`, which no message has as its number, is 16 to 999,999,999.
    pub fn new(me: CompId, peer: CompId, heart: u64, max_number: u64) -> Option<Config>
        ensures { result ≡ config_of me peer heart max_number }
    {
        if heart < 1 || heart > MAX_INTERVAL {
            return None;
        }
        if max_number < MIN_NUMBER_LIMIT || max_number > MAX_NUMBER_LIMIT {
            return None;
        }
        // That a name is in range is known of one that was read.
        let _ = me.as_bytes();
        let _ = peer.as_bytes();
        Some(Config {
            me,
            peer,
            heart,
            max_number,
            has_next: false,
        })
    }

    /// The same, with a NextExpectedMsgSeqNum (789) in each Logon (FIX 4.4 Volume 2, "Logon").
    pub fn with_next(self) -> Config
        ensures { result ≡ record self { has_next = true } }
    {
        Config {
            has_next: true,
            ..self
        }
    }

    /// The name that this end sends as (49).
    #[inline]
    pub fn me(&self) -> &CompId
        ensures value { result.now ≡ self.now.me }
        ensures within { IsConfig self.now }
    {
        &self.me
    }

    /// The name that it sends to (56).
    #[inline]
    pub fn peer(&self) -> &CompId
        ensures value { result.now ≡ self.now.peer }
        ensures within { IsConfig self.now }
    {
        &self.peer
    }

    /// HeartBtInt (108), 1 to 3,600 seconds.
    #[inline]
    pub fn heart(&self) -> u64
        ensures value { result ≡ self.now.heart }
        ensures within { IsConfig self.now }
    {
        self.heart
    }

    /// The number that none of the session's messages has or goes past, 16 to 999,999,999.
    #[inline]
    pub fn max_number(&self) -> u64
        ensures value { result ≡ self.now.max_number }
        ensures within { IsConfig self.now }
    {
        self.max_number
    }

    /// Whether each Logon says which number it expects next (789).
    #[inline]
    pub fn has_next(&self) -> bool
        ensures value { result ≡ self.now.has_next }
        ensures within { IsConfig self.now }
    {
        self.has_next
    }
}
