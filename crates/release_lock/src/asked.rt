//! What a caller asked for.

ghost use Rattle.std.specs.Prelude.{◌≡◌, None};

use fix_tags::Stamp;
use order_limits::OrderLimits;

/// The line of a caller that asks for a sweep, and when it came. The desk's journal has it so. The sweep is judged by
/// the limits, if there are any.
#[derive(Clone, Copy, Debug)]
pub struct Asked<'a> {
    pub stamp: Stamp,
    pub line: &'a [u8],
    pub limits: Option<&'a OrderLimits>,
}

impl Asked<'_> {
    /// No line, of a day without a journal and without limits.
    pub fn nothing() -> Asked<'static>
        ensures { result.limits ≡ None }
    {
        Asked {
            stamp: Stamp::new(1970, 1, 1, 0, 0, 0, 0).unwrap(),
            line: b"",
            limits: None,
        }
    }
}
