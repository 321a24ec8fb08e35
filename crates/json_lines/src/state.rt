//! How a venue stands, in JSON.

ghost use Rattle.std.specs.Prelude.{◌≡◌, IfOk, string_bytes};
ghost use Rattle.json_lines.specs.Lines.{ended_json, state_json, unreachable_json};

use crate::quoted::quoted;
use desk_news::{Cause, Told, VenueState};
use std::alloc::{AllocError, Global};

/// Why a connection ended.
fn ended_json(alloc: Global, word: &str, cause: &Cause) -> Result<String, AllocError>
    ensures { IfOk result (λ text. string_bytes text ≡ ended_json word.now cause.now) }
{
    let why = quoted(alloc, cause)?;
    format!(in alloc; "\"state\":\"{word}\",\"why\":{why}")
}

/// Why a dial failed, and in how many seconds the next one is tried.
fn unreachable_json(alloc: Global, why: &Told, seconds: u64) -> Result<String, AllocError>
    ensures { IfOk result (λ text. string_bytes text ≡ unreachable_json why.now seconds) }
{
    let why = quoted(alloc, why)?;
    format!(in alloc; "\"state\":\"unreachable\",\"why\":{why},\"next_s\":{seconds}")
}

/// How a venue stands, as it stands in an object.
pub(crate) fn state_json(alloc: Global, state: &VenueState) -> Result<String, AllocError>
    ensures { IfOk result (λ text. string_bytes text ≡ state_json state.now) }
{
    match state {
        VenueState::Dialled => String::from_str(alloc, "\"state\":\"dialled\""),
        VenueState::Up => String::from_str(alloc, "\"state\":\"up\""),
        VenueState::Down(cause) => ended_json(alloc, "down", cause),
        VenueState::Unreachable { why, seconds } => unreachable_json(alloc, why, *seconds),
        VenueState::Closed(cause) => ended_json(alloc, "closed", cause),
    }
}
