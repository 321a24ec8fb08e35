//! A new exchange, as a case file configures it.

use case_text::{PlayFault, number};
use exchange_core::Exchange;
use fix_tags::{CompId, Config};
use std::alloc::Global;

/// The heartbeat interval of the configuration, which an exchange doesn't look at: it answers each Logon with the
/// Logon's own.
const HEART: u64 = 30;

fn comp_id(word: &str) -> Result<CompId, PlayFault> {
    CompId::new(word.as_bytes()).ok_or(PlayFault::NotUnderstood)
}

/// The exchange of these words, as `B A max 1000`, or none where its numbers aren't in range.
pub fn new_exchange(alloc: Global, words: &[&str]) -> Result<Option<Exchange>, PlayFault> {
    match words {
        [me, peer, "max", max] => {
            let max_number = number(max)?;
            let me = comp_id(me)?;
            let peer = comp_id(peer)?;
            let config = Config::new(me, peer, HEART, max_number);
            Ok(config.map(|config| Exchange::new(alloc, config)))
        }
        _ => Err(PlayFault::NotUnderstood),
    }
}
