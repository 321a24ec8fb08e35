//! What `dispatch run` prints at the end of a day.
ghost use Rattle.std.specs.Prelude.{◌≡◌, ◌++◌, IfOk, OnOk, string_bytes};
ghost use Rattle.std.specs.List.{flat_map};
ghost use Rattle.run_command.specs.Text.{booked_text, day_text, doubt_line, sweep_line, totals_lines, totals_of, unbooked_line};

use desk_day::{DeskDay, VenueDoubt};
use desk_executions::Execution;
use desk_news::{DayTotals, PaidSweep, doubt_line};
use session_worker::DayReport;
use std::alloc::{AllocError, Global};

/// The text of a day: a line for each sweep, one for each execution that the book didn't take, one for each venue with
/// legs that stay in doubt, the shares of the day, and that the audit found nothing wrong. The only refusal is out of
/// memory.
pub fn day_text(alloc: Global, day: &DeskDay) -> Result<Vec<u8>, AllocError>
    ensures { IfOk result (λ text. text.items ≡ day_text day.now) }
{
    let mut text = booked_text(alloc, day)?;
    write_totals(&mut text, day.report)?;
    Ok(text.into_bytes())
}

/// A line for each sweep, one for each execution that the book didn't take, and one for each venue with legs that stay
/// in doubt.
fn booked_text(alloc: Global, day: &DeskDay) -> Result<String, AllocError>
    ensures { IfOk result (λ text. string_bytes text ≡ booked_text day.now) }
{
    let mut text = String::new(alloc);
    write_sweeps(&mut text, day.sweeps.as_slice())?;
    write_unbooked(&mut text, day.unbooked.as_slice())?;
    write_doubts(alloc, &mut text, day.doubts.as_slice())?;
    Ok(text)
}

/// Appends the shares of a day, and that the audit found nothing wrong.
fn write_totals(text: &mut String, report: DayReport) -> Result<(), AllocError>
    ensures { OnOk result (string_bytes text.new ≡ string_bytes text.old ++ totals_lines report) }
{
    let totals = totals_of(report);
    write!(text, "{totals}\naudit ok\n")?;
    Ok(())
}

/// The shares of a day.
pub(crate) fn totals_of(report: DayReport) -> DayTotals
    ensures { result ≡ totals_of report }
{
    DayTotals {
        placed: report.placed,
        resolved: report.resolved,
        still_open: report.still_open,
    }
}

/// Appends the lines of sweeps.
fn write_sweeps(text: &mut String, sweeps: &[PaidSweep]) -> Result<(), AllocError>
    ensures { OnOk result (string_bytes text.new ≡ string_bytes text.old ++ flat_map sweep_line sweeps.now) }
{
    for sweep in sweeps {
        write!(text, "{sweep}\n")?;
    }
    Ok(())
}

/// Appends the lines of what the book didn't take.
fn write_unbooked(text: &mut String, executions: &[Execution]) -> Result<(), AllocError>
    ensures { OnOk result (string_bytes text.new ≡ string_bytes text.old ++ flat_map unbooked_line executions.now) }
{
    for execution in executions {
        write!(text, "{execution}\n")?;
    }
    Ok(())
}

/// Appends the lines of legs that stay in doubt.
fn write_doubts(alloc: Global, text: &mut String, doubts: &[VenueDoubt]) -> Result<(), AllocError>
    ensures { OnOk result (string_bytes text.new ≡ string_bytes text.old ++ flat_map doubt_line doubts.now) }
{
    for doubt in doubts {
        let line = doubt_line(alloc, &doubt.venue, doubt.legs.as_slice())?;
        write!(text, "{line}\n")?;
    }
    Ok(())
}
