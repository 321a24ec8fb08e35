//! The orders of a venue's log against the legs that were released to it.

ghost use Rattle.std.specs.Prelude.{◌≡◌, ◌∷◌, ◌++◌, length, map, IfOk, OnOk};
ghost use Rattle.std.specs.Option.{option_map};
ghost use Rattle.log_legs.specs.Fate.{leg_said};
ghost use Rattle.log_legs.specs.LegLine.{terms_shown};
ghost use Rattle.sweep_text.specs.Written.{terms_text};
ghost use Rattle.day_rules.specs.Orders.{ends_by, fails_at, first_failing, follows, has_fate, has_terms, id_before, id_said, in_order_at, is_behind, is_cut_off, is_doubt, is_in_order, is_released, is_released_as, is_settled_at, is_taken, pointed, released_leg, taken_upto};

use crate::desk_day::DeskDay;
use crate::venue_day::VenueDay;
use fix_tags::price_short_text;
use leg::{LegId, Legs, Routed, Terms};
use log_legs::{Fate, LegSaid, Watch, append_terms, leg_id_in};
use log_rules::Moment;
use std::alloc::{AllocError, Global};

/// How many milliseconds a line of the desk's log may lie behind an order whose sweep it lacks: other callers go on
/// while one is answered.
const SLACK: u64 = 1000;

/// The leg of an id among the sweeps that were placed.
fn released_leg<'a>(sweeps: &'a [Legs], id: &LegId) -> Option<&'a Routed>
    ensures { option_map (λ leg. leg.now) result ≡ released_leg sweeps.now id.now }
{
    let legs = sweeps.get((id.sweep() - 1) as usize)?;
    legs.as_slice().get(usize::from(id.place() - 1))
}

/// Appends terms as a desk's line has them: `BRK.B buy 100 10.25`.
fn append_leg_terms(alloc: Global, text: &mut Vec<u8>, terms: &Terms) -> Result<(), AllocError>
    ensures { OnOk result (text.new.items ≡ text.old.items ++ terms_text terms.now) }
{
    let symbol = terms.symbol();
    let side = terms.side();
    let shares = terms.shares();
    let head = format!(in alloc; "{symbol} {side} {shares} ")?;
    text.extend_from_slice(head.as_bytes())?;
    text.extend_from_slice(price_short_text(terms.price()).as_slice())
}

/// A text with points for slashes.
fn pointed(alloc: Global, text: &[u8]) -> Result<Vec<u8>, AllocError>
    ensures { IfOk result (λ pointed_text. pointed_text.items ≡ pointed text.now) }
{
    let mut pointed = Vec::new(alloc);
    for byte in text {
        pointed.push(if *byte == b'/' { b'.' } else { *byte })?;
    }
    Ok(pointed)
}

/// Whether an order has a leg's terms. One venue spells a symbol's suffix behind a slash.
fn has_terms(alloc: Global, said: &LegSaid<'_>, leg: &Routed) -> Result<bool, AllocError>
    ensures { IfOk result (λ has. has ≡ has_terms said.now leg.now) }
{
    let mut shown = Vec::new(alloc);
    append_terms(&mut shown, said)?;
    let shown = pointed(alloc, &shown)?;
    let mut wanted = Vec::new(alloc);
    append_leg_terms(alloc, &mut wanted, &leg.terms)?;
    Ok(shown.as_slice() == wanted.as_slice())
}

/// Whether a leg was released to the venue at a place among the logs, and an order has its terms.
fn is_released_as(
    alloc: Global,
    venue: usize,
    said: &LegSaid<'_>,
    leg: Option<&Routed>,
) -> Result<bool, AllocError>
    ensures { IfOk result (λ is_it. is_it ≡ is_released_as venue said.now (option_map (λ l. l.now) leg.entry)) }
{
    match leg {
        Some(leg) if usize::from(leg.venue.number()) == venue => has_terms(alloc, said, leg),
        _ => Ok(false),
    }
}

/// Whether a leg was released behind another.
fn is_behind(before: Option<LegId>, id: &LegId) -> bool
    ensures { result ≡ is_behind before id.now }
{
    match before {
        Some(before) => {
            before.sweep() < id.sweep()
                || (before.sweep() == id.sweep() && before.place() < id.place())
        }
        None => true,
    }
}

/// The leg of the order before a place.
fn id_before(watch: &Watch, place: usize) -> Option<LegId>
    ensures { result ≡ id_before watch.now place }
{
    if place == 0 {
        return None;
    }
    let said = watch.leg(place - 1)?;
    leg_id_in(said.id.as_bytes())
}

/// Whether the desk's log has no line of more than a second behind a moment.
fn ends_by(last: Option<Moment>, moment: Option<Moment>) -> bool
    ensures { result ≡ ends_by last moment }
{
    match (last, moment) {
        (None, _) => true,
        (Some(_), None) => false,
        (Some(last), Some(moment)) => moment.until(last) <= SLACK,
    }
}

/// Whether the order at a place is of a sweep that the desk's log may lack, as where the program was killed.
fn is_cut_off(desk: &DeskDay, day: &VenueDay, place: usize, id: &LegId) -> bool
    ensures { result ≡ is_cut_off desk.now day.now place id.now }
{
    (desk.sweeps().len() as u64) < id.sweep()
        && !day.watch().close().is_over()
        && ends_by(desk.last(), day.order_moment(place))
}

/// Whether the order at a place is a leg that was released to the venue, or may be one.
fn is_released(
    alloc: Global,
    desk: &DeskDay,
    venue: usize,
    day: &VenueDay,
    place: usize,
    said: &LegSaid<'_>,
    id: &LegId,
) -> Result<bool, AllocError>
    ensures { IfOk result (λ is_it. is_it ≡ is_released desk.now venue day.now place said.now id.now) }
{
    let is_it = is_released_as(alloc, venue, said, released_leg(desk.sweeps(), id))?;
    Ok(is_it || is_cut_off(desk, day, place, id))
}

/// Order: whether the order at a place is a leg that was released to the venue, with its terms, behind the leg of the
/// order before it.
fn is_in_order_at(
    alloc: Global,
    desk: &DeskDay,
    venue: usize,
    day: &VenueDay,
    place: usize,
) -> Result<bool, AllocError>
    ensures { IfOk result (λ is_it. is_it ≡ in_order_at desk.now venue day.now place) }
{
    let watch = day.watch();
    let Some(said) = watch.leg(place) else {
        return Ok(true);
    };
    match leg_id_in(said.id.as_bytes()) {
        Some(id) if is_behind(id_before(watch, place), &id) => {
            is_released(alloc, desk, venue, day, place, &said, &id)
        }
        _ => Ok(false),
    }
}

/// The first failing place of two: the one that was found, or else this one where its test failed.
pub(crate) fn fails_at(found: Option<usize>, passes: bool, place: usize) -> Option<usize>
    ensures { result ≡ fails_at found passes place }
{
    match found {
        Some(found) => Some(found),
        None if passes => None,
        None => Some(place),
    }
}

/// The place of the first order that breaks the release order of the venue's legs.
#[tactic(auto, using(crate::proofs::OneMore::one_test_more))]
pub(crate) fn first_out_of_order(
    alloc: Global,
    desk: &DeskDay,
    venue: usize,
    day: &VenueDay,
) -> Result<Option<usize>, AllocError>
    ensures { IfOk result (λ found. found
        ≡ first_failing (in_order_at desk.now venue day.now) (length day.now.watch.checker.ledger.orders)) }
{
    let mut found = None;
    for place in 0..day.watch().leg_count() {
        let is_in_order = is_in_order_at(alloc, desk, venue, day, place)?;
        found = fails_at(found, is_in_order, place);
    }
    Ok(found)
}

/// Whether the order at a place was taken.
fn is_taken_at(watch: &Watch, place: usize) -> bool
    ensures { result ≡ has_fate is_taken (leg_said watch.now place) }
{
    match watch.leg(place) {
        Some(said) => said.fate == Fate::Taken,
        None => false,
    }
}

/// Whether the order at a place isn't in doubt.
fn is_settled_at(watch: &Watch, place: usize) -> bool
    ensures { result ≡ is_settled_at watch.now place }
{
    match watch.leg(place) {
        Some(said) => said.fate != Fate::Doubt,
        None => true,
    }
}

/// How many orders there are up to the last one that was taken, with it.
#[tactic(auto, using(crate::proofs::OneMore::one_fate_more))]
fn taken_upto(watch: &Watch) -> usize
    ensures { result ≡ taken_upto watch.now (length watch.now.checker.ledger.orders) }
{
    let mut count = 0;
    for place in 0..watch.leg_count() {
        if is_taken_at(watch, place) {
            count = place + 1;
        }
    }
    count
}

/// The place of the first of so many orders that is in doubt.
#[tactic(auto, using(crate::proofs::OneMore::one_test_more))]
fn first_doubt_of(watch: &Watch, count: usize) -> Option<usize>
    ensures { result ≡ first_failing (is_settled_at watch.now) count }
{
    let mut found = None;
    for place in 0..count {
        found = fails_at(found, is_settled_at(watch, place), place);
    }
    found
}

/// Gaps: the place of the first order in doubt before one that was taken.
pub(crate) fn first_gap(watch: &Watch) -> Option<usize>
    ensures { result ≡ first_failing (is_settled_at watch.now)
        (taken_upto watch.now (length watch.now.checker.ledger.orders)) }
{
    first_doubt_of(watch, taken_upto(watch))
}

/// Settled: the place of the first order in doubt.
pub(crate) fn first_doubt(watch: &Watch) -> Option<usize>
    ensures { result ≡ first_failing (is_settled_at watch.now) (length watch.now.checker.ledger.orders) }
{
    first_doubt_of(watch, watch.leg_count())
}
