//! The two ends of a venue's connection.

ghost use Rattle.std.specs.Prelude.{◌≡◌, ◌≤◌};
ghost use Rattle.schedule.specs.World.{session_config, exchange_config};

use fix_tags::{CompId, Config};

/// The heartbeat interval of both ends, in seconds.
const HEART: u64 = 30;

/// The number that no message of an exchange has.
const EXCHANGE_MAX_NUMBER: u64 = 999_999_999;

/// The session's end. `max_number`, which no message of it has, is 16 to 999,999,999; `next` says whether its Logons
/// say which number it expects next (789).
pub fn session_end(max_number: u64, next: bool) -> Config
    requires low { 16 ≤ max_number }
    requires high { max_number ≤ 999999999 }
    ensures { result ≡ session_config max_number next }
{
    let me = CompId::new(b"A").unwrap();
    let peer = CompId::new(b"B").unwrap();
    let config = Config::new(me, peer, HEART, max_number).unwrap();
    if next { config.with_next() } else { config }
}

/// The exchange's end.
pub fn exchange_end() -> Config
    ensures { result ≡ exchange_config }
{
    let me = CompId::new(b"B").unwrap();
    let peer = CompId::new(b"A").unwrap();
    Config::new(me, peer, HEART, EXCHANGE_MAX_NUMBER).unwrap()
}
