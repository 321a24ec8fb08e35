//! What a caller asks for, with its time.

ghost use Rattle.std.specs.Prelude.{◌≡◌, Some, option_map};

use clock::{Clock, UtcClock};
use order_limits::OrderLimits;
use release_lock::Asked;
use std::time;

/// This line, which came now, under these limits.
pub(crate) fn asked_now<'l, R: time::Clock>(
    rt: &R,
    line: &'l [u8],
    limits: &'l OrderLimits,
) -> Asked<'l>
    ensures line { result.line.now ≡ line.now }
    ensures limits { option_map (λ l. l.now) result.limits ≡ Some limits.now }
{
    let mut clock = UtcClock::new(rt);
    Asked {
        stamp: clock.now(),
        line,
        limits: Some(limits),
    }
}
