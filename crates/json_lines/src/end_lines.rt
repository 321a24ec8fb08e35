//! The end of a day, in JSON.

ghost use Rattle.std.specs.Prelude.{◌≡◌, [], ◌++◌, IfOk, OnOk, codes, string_bytes};
ghost use Rattle.desk_json.specs.Parted.{parted};
ghost use Rattle.json_lines.specs.Lines.{doubt_json, leg_json, totals_json};

use desk_json::day_json;
use desk_news::DayTotals;
use desk_words::VenueName;
use leg::LegId;
use std::alloc::{AllocError, Global};

/// That the audit found nothing wrong.
pub const AUDIT_JSON: &str = "{\"audit\":\"ok\"}";

/// Appends a leg behind a mark.
fn write_leg(text: &mut String, mark: &str, leg: &LegId) -> Result<(), AllocError>
    ensures { OnOk result (string_bytes text.new ≡ string_bytes text.old ++ mark.now ++ leg_json leg.now) }
{
    write!(text, "{mark}\"{leg}\"")
}

/// Appends legs, parted by commas.
fn write_legs(text: &mut String, legs: &[LegId]) -> Result<(), AllocError>
    ensures { OnOk result (string_bytes text.new ≡ string_bytes text.old ++ parted leg_json [] legs.now) }
{
    let mut mark = "";
    for leg in legs {
        write_leg(text, mark, leg)?;
        mark = ",";
    }
    Ok(())
}

/// The legs of a venue that stay in doubt at the end of the day. The only refusal is out of memory.
pub fn doubt_json(alloc: Global, venue: &VenueName, legs: &[LegId]) -> Result<String, AllocError>
    ensures { IfOk result (λ text. string_bytes text ≡ doubt_json venue.now legs.now) }
{
    let mut text = format!(in alloc; "{{\"doubt\":\"{venue}\",\"legs\":[")?;
    write_legs(&mut text, legs)?;
    text.push_str("]}")?;
    Ok(text)
}

/// The shares of a day. The only refusal is out of memory.
pub fn totals_json(alloc: Global, totals: &DayTotals) -> Result<String, AllocError>
    ensures { IfOk result (λ text. string_bytes text ≡ totals_json totals.now) }
{
    let totals = day_json(alloc, totals)?;
    format!(in alloc; "{{\"day\":{totals}}}")
}
