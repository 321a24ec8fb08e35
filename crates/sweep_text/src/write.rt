//! A sweep, written as the line that asks for it.

ghost use Rattle.std.specs.Prelude.{◌≡◌, ◌<◌, ◌++◌, ◌^◌, IfOk, OnOk, codes, string_bytes};
ghost use Rattle.std.specs.Option.{option_map};
ghost use Rattle.std.specs.Str.{IsUtf8};
ghost use Rattle.fix_tags.specs.Price.{price_short};
ghost use Rattle.sweep_text.specs.Written.{leg_text, name_of, ref_text, sweep_line, terms_text};

use desk_words::VenueName;
use fix_tags::{PriceText, price_short_text};
use leg::{Routed, Terms, VenueId};
use std::alloc::{AllocError, Global};
use std::str;
use sweep_refs::SweepRef;

/// What a venue is called; `?` where it has no name.
fn name_of(names: &[VenueName], venue: VenueId) -> &str
    ensures { result.now ≡ name_of names.now venue }
{
    match names.get(usize::from(venue.number())) {
        Some(name) => name.as_str(),
        None => "?",
    }
}

fn text_of(bytes: &[u8]) -> &str
    requires { IsUtf8 bytes.now }
    ensures { result.now ≡ bytes.now }
{
    str::from_utf8(bytes).unwrap()
}

/// A price as text, which is digits and a point.
fn price_text(text: &PriceText, price: u64) -> &str
    requires { text.now.items ≡ price_short price }
    ensures { result.now ≡ price_short price }
{
    text_of(text.as_slice())
}

/// Appends terms, with the price in dollars: `BRK.B buy 100 10.25`.
fn write_terms(text: &mut String, terms: &Terms) -> Result<(), AllocError>
    ensures { OnOk result (string_bytes text.new ≡ string_bytes text.old ++ terms_text terms.now) }
{
    let symbol = terms.symbol();
    let side = terms.side();
    let shares = terms.shares();
    let dollars = price_short_text(terms.price());
    let price = price_text(&dollars, terms.price());
    write!(text, "{symbol} {side} {shares} {price}")
}

/// Appends a leg behind a mark: ` NYSE BRK.B buy 100 10.25`.
fn write_leg(
    text: &mut String,
    mark: &str,
    names: &[VenueName],
    leg: &Routed,
) -> Result<(), AllocError>
    ensures { OnOk result (string_bytes text.new ≡ string_bytes text.old ++ mark.now ++ leg_text names.now leg.now) }
{
    let name = name_of(names, leg.venue);
    write!(text, "{mark}{name} ")?;
    write_terms(text, &leg.terms)
}

/// The beginning of the line that asks for a sweep: `sweep`, or `sweep ref=P7-3`.
fn sweep_head(alloc: Global, reference: Option<&SweepRef>) -> Result<String, AllocError>
    ensures { IfOk result (λ text. string_bytes text
        ≡ codes "sweep" ++ ref_text (option_map (λ r. r.now) reference.entry)) }
{
    match reference {
        Some(reference) => format!(in alloc; "sweep ref={reference}"),
        None => String::from_str(alloc, "sweep"),
    }
}

/// The line that asks for these legs, under a reference if there is one: `sweep ref=P7-3 NYSE BRK.B buy 100 10.25 +
/// ARCA IBM sell 50 100`. A venue that has no name is written `?`.
pub fn write_sweep(
    alloc: Global,
    names: &[VenueName],
    reference: Option<&SweepRef>,
    legs: &[Routed],
) -> Result<String, AllocError>
    ensures { IfOk result (λ text. string_bytes text
        ≡ sweep_line names.now (option_map (λ r. r.now) reference.entry) legs.now) }
{
    let mut text = sweep_head(alloc, reference)?;
    let mut mark = " ";
    for leg in legs {
        write_leg(&mut text, mark, names, leg)?;
        mark = " + ";
    }
    Ok(text)
}
