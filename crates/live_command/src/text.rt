//! What `dispatch live` prints.
ghost use Rattle.std.specs.Prelude.{◌≡◌, ◌++◌, IfOk, OnOk, string_bytes};
ghost use Rattle.live_command.specs.LiveText.{day_text, report_line, sweep_lines, venue_line, venue_lines};

use desk_news::PaidSweep;
use live_load::{LiveDay, LiveVenue};
use session_worker::DayReport;
use std::alloc::{AllocError, Global};
use world_text::write_sweep_line;

/// The text of a day: a line for each sweep and for each venue, how many sweeps were given up, the shares of all, and
/// that the audit found nothing wrong. The only refusal is out of memory.
pub fn day_text(alloc: Global, day: &LiveDay) -> Result<Vec<u8>, AllocError>
    ensures { IfOk result (λ text. text.items ≡ day_text day.now) }
{
    let mut text = String::new(alloc);
    write_sweeps(&mut text, day.sweeps.as_slice())?;
    write_venues(&mut text, day.venues.as_slice())?;
    let unplaced = day.unplaced;
    write!(text, "unplaced {unplaced}\n")?;
    write_report(&mut text, &day.report)?;
    write!(text, "audit ok\n")?;
    Ok(text.into_bytes())
}

/// Appends the lines of sweeps.
fn write_sweeps(text: &mut String, sweeps: &[PaidSweep]) -> Result<(), AllocError>
    ensures { OnOk result (string_bytes text.new ≡ string_bytes text.old ++ sweep_lines sweeps.now) }
{
    for sweep in sweeps {
        let parts = sweep.parts;
        write_sweep_line(text, parts.sweep, parts.shares, Some(parts.totals))?;
    }
    Ok(())
}

/// Appends the lines of venues.
fn write_venues(text: &mut String, venues: &[LiveVenue]) -> Result<(), AllocError>
    ensures { OnOk result (string_bytes text.new ≡ string_bytes text.old ++ venue_lines venues.now) }
{
    for venue in venues {
        write_venue(text, *venue)?;
    }
    Ok(())
}

/// Appends the line of a venue.
fn write_venue(text: &mut String, venue: LiveVenue) -> Result<(), AllocError>
    ensures { OnOk result (string_bytes text.new ≡ string_bytes text.old ++ venue_line venue) }
{
    let LiveVenue {
        number,
        connections,
        doubts,
        lost,
    } = venue;
    write!(
        text,
        "venue {number} connections {connections} doubt {doubts} lost {lost}\n"
    )
}

/// Appends the line of the shares of a day.
fn write_report(text: &mut String, report: &DayReport) -> Result<(), AllocError>
    ensures { OnOk result (string_bytes text.new ≡ string_bytes text.old ++ report_line report.now) }
{
    let DayReport {
        placed,
        resolved,
        still_open,
    } = *report;
    write!(
        text,
        "day placed {placed} resolved {resolved} open {still_open}\n"
    )
}
