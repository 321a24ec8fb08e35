//! The stamp of an instant.

ghost use Rattle.clock.specs.StampAt.{IsStampAt};

use fix_tags::Stamp;
use jiff::Timestamp;
use jiff::tz::Offset;

/// The date and the time of day in UTC at an instant, cut to whole milliseconds. A stamp has no year below 0, so there
/// is none before 0000-01-01.
pub fn stamp_at(moment: Timestamp) -> Option<Stamp>
    ensures { IsStampAt moment.nanosecond result }
{
    let at = Offset::UTC.to_datetime(moment).to_plain();
    if at.date.year < 0 {
        return None;
    }
    Stamp::new(
        at.date.year as u16,
        at.date.month,
        at.date.day,
        at.time.hour,
        at.time.minute,
        at.time.second,
        (at.time.subsec_nanosecond / 1_000_000) as u16,
    )
}
