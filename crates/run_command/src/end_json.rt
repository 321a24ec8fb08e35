//! What `dispatch run --json` prints at the end of a day.
ghost use Rattle.std.specs.Prelude.{◌≡◌, ◌++◌, IfOk, OnOk, string_bytes};
ghost use Rattle.std.specs.List.{flat_map};
ghost use Rattle.run_command.specs.JsonText.{booked_json, doubt_line, json_text, sweep_line, totals_lines, unbooked_line};

use crate::text::totals_of;
use desk_day::{DeskDay, VenueDoubt};
use desk_executions::Execution;
use desk_json::{execution_json, sweep_json};
use desk_news::PaidSweep;
use json_lines::{AUDIT_JSON, doubt_json, totals_json};
use session_worker::DayReport;
use std::alloc::{AllocError, Global};

/// The text of a day in JSON, an object a line: each sweep, each execution that the book didn't take, each venue with
/// legs that stay in doubt, the shares of the day, and that the audit found nothing wrong. The only refusal is out of
/// memory.
pub fn json_text(alloc: Global, day: &DeskDay) -> Result<Vec<u8>, AllocError>
    ensures { IfOk result (λ text. text.items ≡ json_text day.now) }
{
    let mut text = booked_json(alloc, day)?;
    write_totals(alloc, &mut text, day.report)?;
    Ok(text.into_bytes())
}

/// Each sweep, each execution that the book didn't take, and each venue with legs that stay in doubt.
fn booked_json(alloc: Global, day: &DeskDay) -> Result<String, AllocError>
    ensures { IfOk result (λ text. string_bytes text ≡ booked_json day.now) }
{
    let mut text = String::new(alloc);
    write_sweeps(alloc, &mut text, day.sweeps.as_slice())?;
    write_unbooked(alloc, &mut text, day.unbooked.as_slice())?;
    write_doubts(alloc, &mut text, day.doubts.as_slice())?;
    Ok(text)
}

/// Appends the shares of a day, and that the audit found nothing wrong.
fn write_totals(alloc: Global, text: &mut String, report: DayReport) -> Result<(), AllocError>
    ensures { OnOk result (string_bytes text.new ≡ string_bytes text.old ++ totals_lines report) }
{
    let totals = totals_json(alloc, &totals_of(report))?;
    write!(text, "{totals}\n{AUDIT_JSON}\n")
}

/// Appends sweeps, a line each.
fn write_sweeps(alloc: Global, text: &mut String, sweeps: &[PaidSweep]) -> Result<(), AllocError>
    ensures { OnOk result (string_bytes text.new ≡ string_bytes text.old ++ flat_map sweep_line sweeps.now) }
{
    for sweep in sweeps {
        let line = sweep_json(alloc, sweep)?;
        write!(text, "{line}\n")?;
    }
    Ok(())
}

/// Appends what the book didn't take, a line each.
fn write_unbooked(
    alloc: Global,
    text: &mut String,
    executions: &[Execution],
) -> Result<(), AllocError>
    ensures { OnOk result (string_bytes text.new ≡ string_bytes text.old ++ flat_map unbooked_line executions.now) }
{
    for execution in executions {
        let line = execution_json(alloc, execution)?;
        write!(text, "{line}\n")?;
    }
    Ok(())
}

/// Appends the legs that stay in doubt, a line for each venue.
fn write_doubts(alloc: Global, text: &mut String, doubts: &[VenueDoubt]) -> Result<(), AllocError>
    ensures { OnOk result (string_bytes text.new ≡ string_bytes text.old ++ flat_map doubt_line doubts.now) }
{
    for doubt in doubts {
        let line = doubt_json(alloc, &doubt.venue, doubt.legs.as_slice())?;
        write!(text, "{line}\n")?;
    }
    Ok(())
}
