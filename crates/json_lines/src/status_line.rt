//! A line of what `status` is answered, in JSON.

ghost use Rattle.std.specs.Prelude.{◌≡◌, IfOk, string_bytes};
ghost use Rattle.json_lines.specs.Lines.{counts_json, status_json, venue_status_json};

use crate::line::Line;
use crate::state::state_json;
use desk_json::sweep_json;
use desk_news::{Status, VenueStatus};
use std::alloc::{AllocError, Global};

/// The counts of a venue: its legs, the lines that its log lost, and its contradictions.
fn counts_json(alloc: Global, row: &VenueStatus) -> Result<String, AllocError>
    ensures { IfOk result (λ text. string_bytes text ≡ counts_json row.now) }
{
    let VenueStatus {
        venue: _,
        unsent,
        doubt,
        lost,
        contradicted,
        state: _,
    } = row;
    format!(in alloc;
        "\"unsent\":{unsent},\"doubt\":{doubt},\"lost\":{lost},\"contradicted\":{contradicted}"
    )
}

/// How a venue stands.
fn venue_status_json(alloc: Global, row: &VenueStatus) -> Result<String, AllocError>
    ensures { IfOk result (λ text. string_bytes text ≡ venue_status_json row.now) }
{
    let venue = &row.venue;
    let counts = counts_json(alloc, row)?;
    let state = state_json(alloc, &row.state)?;
    format!(in alloc; "{{\"status\":{{\"venue\":\"{venue}\",{counts},{state}}}}}")
}

impl Line for Status {
    ghost json = { status_json };

    fn json(&self, alloc: Global) -> Result<String, AllocError> {
        match self {
            Status::Venue(row) => venue_status_json(alloc, row),
            Status::Sweep(parts) => {
                let parts = sweep_json(alloc, parts)?;
                format!(in alloc; "{{\"status\":{parts}}}")
            }
        }
    }
}
