//! A change, in JSON.

ghost use Rattle.std.specs.Prelude.{◌≡◌, IfOk, string_bytes};
ghost use Rattle.json_lines.specs.Lines.{contradicted_json, news_json, venue_json};

use crate::line::Line;
use crate::state::state_json;
use desk_json::sweep_json;
use desk_news::{News, VenueState};
use desk_words::VenueName;
use std::alloc::{AllocError, Global};

/// How a venue stands.
fn venue_json(alloc: Global, venue: &VenueName, state: &VenueState) -> Result<String, AllocError>
    ensures { IfOk result (λ text. string_bytes text ≡ venue_json venue.now state.now) }
{
    let state = state_json(alloc, state)?;
    format!(in alloc; "{{\"venue\":\"{venue}\",{state}}}")
}

/// That an exchange contradicted itself.
fn contradicted_json(alloc: Global, venue: &VenueName, legs: u64) -> Result<String, AllocError>
    ensures { IfOk result (λ text. string_bytes text ≡ contradicted_json venue.now legs) }
{
    format!(in alloc; "{{\"contradicted\":\"{venue}\",\"legs\":{legs}}}")
}

impl Line for News {
    ghost json = { news_json };

    fn json(&self, alloc: Global) -> Result<String, AllocError> {
        match self {
            News::Sweep(parts) => sweep_json(alloc, parts),
            News::Venue { venue, state } => venue_json(alloc, venue, state),
            News::Contradicted { venue, legs } => contradicted_json(alloc, venue, *legs),
        }
    }
}
