//! The legs that stay in doubt.

ghost use Rattle.std.specs.Prelude.{◌≡◌, ◌++◌, IfOk, OnOk, codes, string_bytes};
ghost use Rattle.leg.specs.LegId.{leg_id_text};
ghost use Rattle.desk_news.specs.Doubt.{doubt_text};

use desk_words::VenueName;
use leg::LegId;
use std::alloc::{AllocError, Global};

/// Appends a leg behind a space.
fn write_leg(line: &mut String, leg: &LegId) -> Result<(), AllocError>
    ensures { OnOk result (string_bytes line.new ≡ string_bytes line.old ++ codes " " ++ leg_id_text leg.now) }
{
    write!(line, " {leg}")
}

/// The line of a venue's legs that are in doubt at the end of the day: `doubt ARCA S3L1 S4L2`. The only refusal is want
/// of memory.
pub fn doubt_line(alloc: Global, venue: &VenueName, legs: &[LegId]) -> Result<String, AllocError>
    ensures { IfOk result (λ line. string_bytes line ≡ doubt_text venue.now legs.now) }
{
    let mut line = format!(in alloc; "doubt {venue}")?;
    for leg in legs {
        write_leg(&mut line, leg)?;
    }
    Ok(line)
}
