//! The two ends of a session.

use crate::TrialFault;
use fix_tags::{CompId, Config};

/// The number that none of a session's messages has, where its numbers go as far as may be.
pub const MAX_NUMBER: u64 = 999_999_999;

/// The heartbeat interval (108), in seconds.
const HEART: u64 = 30;

fn end(me: &[u8], peer: &[u8], max_number: u64) -> Option<Config> {
    Config::new(CompId::new(me)?, CompId::new(peer)?, HEART, max_number)
}

/// The dispatcher's end: A, whose peer is B.
pub fn near_end(max_number: u64) -> Result<Config, TrialFault> {
    end(b"A", b"B", max_number).ok_or(TrialFault::Missing)
}

/// The exchange's end: B, whose peer is A.
pub fn far_end(max_number: u64) -> Result<Config, TrialFault> {
    end(b"B", b"A", max_number).ok_or(TrialFault::Missing)
}
