//! Examples of the desk's rules, worked out: each is the contract of a function that does nothing.

ghost use Rattle.std.specs.Prelude.{◌≡◌, List, [], ◌∷◌};
ghost use Rattle.share_ledger.specs.Rows.{order, leg};
ghost use Rattle.sweep_release.specs.Desk.{release, placed, gate_up, gate_down, shut, take};
ghost use Rattle.sweep_release.specs.Place.{place};
ghost use Rattle.sweep_release.specs.Rows.{two_venues, orders, greatest, after_shares, full, after_drops};
ghost use Rattle.sweep_release.specs.Rows.{placed_numbers, with_wrong_book, with_own_book};

use crate::{GateFault, ReleaseFault};

/// A sweep with a leg to a venue whose gate is down is refused, and its leg to the other one isn't placed either.
pub fn one_gate_down_refuses_the_whole_sweep()
    ensures refused { (release two_venues (order 0 10 ∷ order 1 10 ∷ [])).0 ≡ Err (ReleaseFault.GateShut 1) }
    ensures nothing { placed ((release two_venues (order 0 10 ∷ order 1 10 ∷ [])).1) 0 ≡ 0 }
{}

/// No leg, 33 legs, and a venue that the desk hasn't got.
pub fn sweeps_that_are_refused_as_they_are()
    ensures empty { (release two_venues []).0 ≡ Err ReleaseFault.Empty }
    ensures too_many { (release two_venues (orders 33)).0 ≡ Err ReleaseFault.TooManyLegs }
    ensures unknown { (release two_venues (order 2 10 ∷ [])).0 ≡ Err (ReleaseFault.UnknownVenue 2) }
{}

/// Eight sweeps of 32 legs are placed, and not one leg more.
pub fn a_backlog_is_full_at_256()
    ensures placed { placed full 0 ≡ 256 }
    ensures refused { (release full (orders 1)).0 ≡ Err (ReleaseFault.BacklogFull 0) }
{}

/// A gate that was put down is put up again once the 256 legs were dropped.
pub fn a_gate_goes_up_once_drained()
    ensures too_early { (gate_up (gate_down full 0) 0).0 ≡ Err GateFault.NotDrained }
    ensures drained { (gate_up (after_drops 256 (gate_down full 0)) 0).0 ≡ Ok tt }
{}

/// A gate that was shut stays shut.
pub fn a_shut_gate_stays_shut()
    ensures { (gate_up (shut (after_drops 256 (gate_down full 0)) 0) 0).0 ≡ Err GateFault.Closed }
{}

/// Legs are taken in the order of their places, each with its ordinal, from 1.
pub fn legs_are_taken_in_order()
    ensures first { (take ((release two_venues (orders 2)).1) 0).0
        ≡ Some (record { ordinal = 1; leg = record { id = leg 1; terms = (order 0 10).terms } }) }
    ensures second { (take (take ((release two_venues (orders 2)).1) 0).1 0).0
        ≡ Some (record { ordinal = 2; leg = record { id = leg 2; terms = (order 0 10).terms } }) }
{}

/// A sweep is placed only in the book that has the desk's other sweeps.
pub fn a_sweep_is_placed_in_its_own_book()
    ensures wrong { (place with_wrong_book (orders 1)).0 ≡ Err ReleaseFault.WrongBook }
    ensures own { placed_numbers (place with_own_book (orders 1)) ≡ Some (2, 2, 2) }
{}

/// The greatest sweep is released where it makes 10^18 shares in all, and not where it would make one more; after it no
/// share is.
pub fn a_day_of_shares_is_spent()
    ensures last { (release (after_shares 999999999968000000) greatest).0
        ≡ Ok (record { number = 2; shares = 32000000 }) }
    ensures one_more { (release (after_shares 999999999968000001) greatest).0 ≡ Err ReleaseFault.SweepsSpent }
    ensures spent { (release (release (after_shares 999999999968000000) greatest).1 (order 0 1 ∷ [])).0
        ≡ Err ReleaseFault.SweepsSpent }
{}
