//! The legs of a sweep, written.

ghost use Rattle.std.specs.Prelude.{◌≡◌, [], ◌++◌, IfOk, OnOk, codes, string_bytes};
ghost use Rattle.desk_json.specs.Legs.{leg_json, legs_json, state_text, terms_json};
ghost use Rattle.desk_json.specs.Parted.{parted};

use crate::price_words::price_text;
use crate::standing::{LegRow, SweepLegs};
use crate::sweeps_written::write_shares;
use fix_tags::price_short_text;
use leg::{LegState, Terms};
use std::alloc::{AllocError, Global};

fn state_text(state: LegState) -> &'static str
    ensures { result.now ≡ state_text state }
{
    match state {
        LegState::Queued => "queued",
        LegState::Doubt => "doubt",
        LegState::Taken => "taken",
        LegState::Withdrawn => "withdrawn",
    }
}

/// Appends what a leg buys or sells, with its price in dollars.
fn write_terms(text: &mut String, terms: &Terms) -> Result<(), AllocError>
    ensures { OnOk result (string_bytes text.new ≡ string_bytes text.old ++ terms_json terms.now) }
{
    let symbol = terms.symbol();
    let side = terms.side();
    let shares = terms.shares();
    let dollars = price_short_text(terms.price());
    let price = price_text(&dollars, terms.price());
    write!(
        text,
        "\"symbol\":\"{symbol}\",\"side\":\"{side}\",\"shares\":{shares},\"price\":\"{price}\","
    )
}

/// Appends a leg behind a mark.
fn write_leg(text: &mut String, mark: &str, leg: &LegRow) -> Result<(), AllocError>
    ensures { OnOk result (string_bytes text.new ≡ string_bytes text.old ++ mark.now ++ leg_json leg.now) }
{
    let LegRow {
        id,
        venue,
        terms,
        totals,
        paid,
        state,
    } = leg;
    let state = state_text(*state);
    write!(text, "{mark}{{\"leg\":\"{id}\",\"venue\":\"{venue}\",")?;
    write_terms(text, terms)?;
    write_shares(text, totals, paid)?;
    write!(text, ",\"state\":\"{state}\"}}")
}

/// Appends legs, parted by commas.
fn write_legs(text: &mut String, legs: &[LegRow]) -> Result<(), AllocError>
    ensures { OnOk result (string_bytes text.new ≡ string_bytes text.old ++ parted leg_json [] legs.now) }
{
    let mut mark = "";
    for leg in legs {
        write_leg(text, mark, leg)?;
        mark = ",";
    }
    Ok(())
}

/// The legs of a sweep, as `{"sweep":12,"legs":[..]}`. The only refusal is out of memory.
pub fn legs_json(alloc: Global, sweep: &SweepLegs) -> Result<String, AllocError>
    ensures { IfOk result (λ text. string_bytes text ≡ legs_json sweep.now) }
{
    let number = sweep.sweep;
    let mut text = format!(in alloc; "{{\"sweep\":{number},\"legs\":[")?;
    write_legs(&mut text, sweep.legs.as_slice())?;
    text.push_str("]}")?;
    Ok(text)
}
