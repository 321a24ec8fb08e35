//! What became of the shares of the sweeps that were placed.

ghost use Rattle.std.specs.Prelude.{◌≡◌, ◌≤◌, ◌<◌, ◌^◌, length, slice_get};
ghost use Rattle.std.specs.Option.{option_map};
ghost use Rattle.day_rules.specs.Orders.{first_failing};
ghost use Rattle.day_rules.specs.Sweeps.{adds_up, id_at, is_ended, is_even_at, leg_totals, order_place, sweep_sums, sweep_totals, totals_at, unsent, with_leg};

use crate::order_rules::fails_at;
use crate::venue_day::VenueDay;
use dialect::{Coded, Plain, Spelling, Split4};
use leg::{LegId, Legs, MAX_PLACE, MAX_SWEEP, Routed, Totals};
use log_legs::{Close, SweepTotals, Watch};

/// The order of a leg, by its place in the log, in any spelling of its id.
fn order_place(watch: &Watch, id: &LegId) -> Option<usize>
    ensures { result ≡ order_place watch.now.checker.ledger.orders id.now }
{
    if let Some(place) = watch.place_of(Plain.id_text(id).as_slice()) {
        return Some(place);
    }
    match watch.place_of(Split4.id_text(id).as_slice()) {
        Some(place) => Some(place),
        None => watch.place_of(Coded.id_text(id).as_slice()),
    }
}

/// Whether both sides logged out.
pub(crate) fn is_ended(close: Close) -> bool
    ensures { result ≡ is_ended close }
{
    close == Close::Closed
}

/// A leg that was never sent: withdrawn once the session of its venue logged out, and open before.
fn unsent(is_over: bool, shares: u64) -> Totals
    ensures { result ≡ unsent is_over shares }
{
    let (withdrawn, still_open) = if is_over { (shares, 0) } else { (0, shares) };
    Totals {
        filled: 0,
        busted: 0,
        cancelled: 0,
        withdrawn,
        still_open,
    }
}

/// What became of an order's shares, which stands at this place, if it was sent.
fn totals_at(watch: &Watch, shares: u64, place: Option<usize>) -> Totals
    ensures { result ≡ totals_at watch.now shares place }
{
    let is_over = watch.close().is_over();
    let Some(place) = place else {
        return unsent(is_over, shares);
    };
    match watch.leg(place) {
        Some(said) => said.totals,
        None => unsent(is_over, shares),
    }
}

/// What became of a leg's shares, by its venue's log. Of a venue without one nothing is known.
fn leg_totals(day: Option<&VenueDay>, id: &LegId, shares: u64) -> Totals
    ensures { result ≡ leg_totals (option_map (λ d. d.now) day.entry) id.now shares }
{
    match day {
        Some(day) => totals_at(day.watch(), shares, order_place(day.watch(), id)),
        None => unsent(false, shares),
    }
}

/// The number of a leg, if there is one.
fn id_at(sweep: u64, place: usize) -> Option<LegId>
    requires sweep { 1 ≤ sweep }
    requires place { 1 ≤ place }
    ensures { result ≡ id_at sweep place }
{
    if sweep <= MAX_SWEEP && place <= usize::from(MAX_PLACE) {
        return Some(LegId::new(sweep, place as u8));
    }
    None
}

/// The sums of a sweep with one more leg, which stands at this place in it.
fn with_leg(
    venues: &[VenueDay],
    sweep: u64,
    place: usize,
    leg: &Routed,
    sums: &SweepTotals,
) -> SweepTotals
    requires sweep { 1 ≤ sweep }
    requires place { 1 ≤ place }
    ensures { result ≡ with_leg venues.now sweep place leg.now sums.now }
{
    let shares = leg.terms.shares();
    let totals = match id_at(sweep, place) {
        Some(id) => leg_totals(venues.get(usize::from(leg.venue.number())), &id, shares),
        None => unsent(false, shares),
    };
    sums.with(shares, &totals)
}

/// What became of the shares of the sweep of a number, with these legs, by the logs of the venues.
fn sweep_totals(venues: &[VenueDay], sweep: u64, legs: &[Routed]) -> SweepTotals
    requires { 1 ≤ sweep }
    ensures { result ≡ sweep_totals venues.now sweep legs.now }
{
    let mut sums = SweepTotals::none();
    for place in 0..legs.len() {
        sums = with_leg(venues, sweep, place + 1, &legs[place], &sums);
    }
    sums
}

/// What became of the shares of the sweep at a place among those that were placed, by the logs of the venues. Of a leg
/// whose venue has no log, or that was never sent to a session that hasn't ended, all shares are open.
pub fn sweep_sums(venues: &[VenueDay], sweeps: &[Legs], place: usize) -> Option<SweepTotals>
    ensures { result ≡ sweep_sums venues.now sweeps.now place }
{
    if place >= sweeps.len() {
        return None;
    }
    Some(sweep_totals(venues, place as u64 + 1, sweeps[place].as_slice()))
}

/// A count of shares, of which some may be added.
fn wide(shares: u64) -> u128
    ensures value { result ≡ shares }
    ensures small { result < 2 ^ 64 }
{
    u128::from(shares)
}

/// Shares: whether the five parts of a sweep add up to its legs.
fn adds_up(sums: &SweepTotals) -> bool
    ensures { result ≡ adds_up sums.now }
{
    let totals = &sums.totals;
    let traded = wide(totals.filled) + wide(totals.busted);
    let gone = wide(totals.cancelled) + wide(totals.withdrawn);
    wide(sums.shares) == traded + gone + wide(totals.still_open)
}

/// Whether those of the sweep at a place do.
fn is_even_at(venues: &[VenueDay], sweeps: &[Legs], place: usize) -> bool
    ensures { result ≡ is_even_at venues.now sweeps.now place }
{
    match sweep_sums(venues, sweeps, place) {
        Some(sums) => adds_up(&sums),
        None => true,
    }
}

/// The place of the first sweep whose parts don't add up to its legs.
#[tactic(auto, using(crate::proofs::OneMore::one_test_more))]
pub(crate) fn first_uneven(venues: &[VenueDay], sweeps: &[Legs]) -> Option<usize>
    ensures { result ≡ first_failing (is_even_at venues.now sweeps.now) (length sweeps.now) }
{
    let mut found = None;
    for place in 0..sweeps.len() {
        found = fails_at(found, is_even_at(venues, sweeps, place), place);
    }
    found
}
