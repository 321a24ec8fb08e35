//! What a start tells of the day that it goes on with.

ghost use Rattle.std.specs.Prelude.{◌≡◌, ◌++◌, [], None, OnOk, string_bytes};
ghost use Rattle.desk_json.specs.Parted.{parted};
ghost use Rattle.day_restart.specs.Told.{counts_json, restored_json, venue_json, withdrawn_json};

use desk_words::VenueName;
use json_lines::Line;
use std::alloc::{AllocError, Global};
use std::fmt;

/// How a venue's session stands at a start: the number of its next message, the one that it expects next, and how many
/// of its legs are in doubt.
#[derive(Debug, Drop)]
pub struct VenueRestored {
    pub venue: VenueName,
    pub next_out: u64,
    pub next_in: u64,
    pub doubt: u64,
}

/// What a start goes on with.
#[derive(Debug, Drop)]
pub struct Restored {
    pub sweeps: u64,
    pub legs: u64,
    /// How many notes were booked.
    pub executions: u64,
    /// The venues, in order.
    pub venues: Vec<VenueRestored>,
    /// How many legs were placed and never taken: their workers drop them before they dial.
    pub withdrawn: u64,
}

impl fmt::Display for Restored {
    ghost output = { λ _. None };

    fn fmt<W: fmt::Write>(&self, f: &mut fmt::Formatter<W>) -> fmt::Result {
        let Restored {
            sweeps,
            legs,
            executions,
            venues,
            withdrawn,
        } = self;
        write!(
            f,
            "restored sweeps {sweeps} legs {legs} executions {executions}"
        )?;
        for VenueRestored {
            venue,
            next_out,
            next_in,
            doubt,
        } in venues.iter() {
            write!(f, "; {venue} out {next_out} in {next_in} doubt {doubt}")?;
        }
        write!(f, "; withdrawn {withdrawn}")
    }
}

/// Appends how the session of a venue stands, behind a mark.
fn write_venue(text: &mut String, mark: &str, row: &VenueRestored) -> Result<(), AllocError>
    ensures { OnOk result (string_bytes text.new ≡ string_bytes text.old ++ mark.now ++ venue_json row.now) }
{
    let VenueRestored {
        venue,
        next_out,
        next_in,
        doubt,
    } = row;
    write!(
        text,
        "{mark}{{\"venue\":\"{venue}\",\"out\":{next_out},\"in\":{next_in},\"doubt\":{doubt}}}"
    )
}

/// Appends those of several, parted by commas.
fn write_venues(text: &mut String, rows: &[VenueRestored]) -> Result<(), AllocError>
    ensures { OnOk result (string_bytes text.new ≡ string_bytes text.old ++ parted venue_json [] rows.now) }
{
    let mut mark = "";
    for row in rows {
        write_venue(text, mark, row)?;
        mark = ",";
    }
    Ok(())
}

/// Appends the counts, up to the venues.
fn write_counts(text: &mut String, told: &Restored) -> Result<(), AllocError>
    ensures { OnOk result (string_bytes text.new ≡ string_bytes text.old ++ counts_json told.now) }
{
    let Restored {
        sweeps,
        legs,
        executions,
        venues: _,
        withdrawn: _,
    } = told;
    write!(
        text,
        "{{\"restored\":{{\"sweeps\":{sweeps},\"legs\":{legs},\"executions\":{executions},\"venues\":["
    )
}

/// Appends how many legs were withdrawn, behind the venues.
fn write_withdrawn(text: &mut String, withdrawn: u64) -> Result<(), AllocError>
    ensures { OnOk result (string_bytes text.new ≡ string_bytes text.old ++ withdrawn_json withdrawn) }
{
    write!(text, "],\"withdrawn\":{withdrawn}}}}}")
}

impl Line for Restored {
    ghost json = { restored_json };

    fn json(&self, alloc: Global) -> Result<String, AllocError> {
        let mut text = String::new(alloc);
        write_counts(&mut text, self)?;
        write_venues(&mut text, self.venues.as_slice())?;
        write_withdrawn(&mut text, self.withdrawn)?;
        Ok(text)
    }
}
