//! The orders of a log.

ghost use Rattle.std.specs.Prelude.{◌≡◌, ◌<◌, length, vec_capacity, nat_lt, slice_get, OnOk};
ghost use Rattle.std.specs.Option.{option_map};
ghost use Rattle.log_legs.specs.KeptLeg.{reported, sent_again};
ghost use Rattle.log_legs.specs.Legs.{applied, leg_changed, legs_parts, no_legs};

use crate::kept_leg::KeptLeg;
use crate::leg_heard::LegHeard;
use crate::share_move::Move;
use std::alloc::{AllocError, Global};

/// The orders of a log, in the order in which they were first sent.
#[derive(Debug, Drop)]
pub(crate) struct LegList {
    items: Vec<KeptLeg>,
    /// How many of them were sent before the last Logon that reset the numbers.
    begun: usize,
}

/// The order at a place is sent once more.
fn send_again_at(legs: &mut [KeptLeg], place: usize)
    requires { place < length legs.old }
    ensures { legs.new ≡ leg_changed sent_again place legs.old }
{
    legs[place].send_again();
}

#[tactic(auto, using(crate::proofs::ChangedAt::none_changed))]
fn send_again(legs: &mut [KeptLeg], place: usize)
    ensures { legs.new ≡ leg_changed sent_again place legs.old }
{
    if place < legs.len() {
        send_again_at(legs, place);
    }
}

/// A report on the order at a place is counted.
fn report_at(legs: &mut [KeptLeg], place: usize, is_withdrawn: bool, change: Move)
    requires { place < length legs.old }
    ensures { legs.new ≡ leg_changed (reported is_withdrawn change) place legs.old }
{
    legs[place].report(is_withdrawn, change);
}

#[tactic(auto, using(crate::proofs::ChangedAt::none_changed))]
fn report(legs: &mut [KeptLeg], place: usize, is_withdrawn: bool, change: Move)
    ensures { legs.new ≡ leg_changed (reported is_withdrawn change) place legs.old }
{
    if place < legs.len() {
        report_at(legs, place, is_withdrawn, change);
    }
}

impl LegList {
    pub(crate) fn new(alloc: Global) -> LegList
        ensures { legs_parts result ≡ no_legs }
    {
        LegList {
            items: Vec::new(alloc),
            begun: 0,
        }
    }

    /// Makes room for one more order.
    pub(crate) fn reserve(&mut self) -> Result<(), AllocError>
        ensures same { legs_parts self.new ≡ legs_parts self.old }
        ensures ok { OnOk result (length self.new.items.items < vec_capacity self.new.items) }
    {
        self.items.reserve(1)
    }

    /// Goes on behind a message that does this.
    pub(crate) fn apply(&mut self, heard: LegHeard)
        requires { length self.old.items.items < vec_capacity self.old.items }
        ensures { legs_parts self.new ≡ applied heard (legs_parts self.old) }
    {
        match heard {
            LegHeard::Nothing => {}
            LegHeard::Reset => self.begun = self.items.len(),
            LegHeard::First(leg) => self.items.push_reserved(leg),
            LegHeard::Again(place) => send_again(&mut self.items, place),
            LegHeard::Moves(place, is_withdrawn, change) => {
                report(&mut self.items, place, is_withdrawn, change);
            }
        }
    }

    /// The order at a place.
    pub(crate) fn get(&self, place: usize) -> Option<&KeptLeg>
        ensures { option_map (λ leg. leg.now) result ≡ slice_get self.now.items.items place }
    {
        self.items.get(place)
    }

    /// Whether the order at a place was sent before the last Logon that reset the numbers.
    pub(crate) fn is_old(&self, place: usize) -> bool
        ensures { result ≡ nat_lt place self.now.begun }
    {
        place < self.begun
    }
}
