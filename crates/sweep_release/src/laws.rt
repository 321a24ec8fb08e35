//! What follows from the desk's rules: each law is the contract of a function that does nothing.

ghost use Rattle.std.specs.Prelude.{◌≡◌, ◌≢◌, ◌+◌, ◌<◌, ℕ, List, [], ◌∷◌, ◌++◌, length, ◌↔◌, IfOk, IfSome, IfNone};
ghost use Rattle.std.specs.Prelude.{OnOk, OnErr, IsOk};
ghost use Rattle.leg.specs.declared.sweep.Routed.{Routed};
ghost use Rattle.share_ledger.specs.Entries.{sweep_shares};
ghost use Rattle.share_ledger.specs.Book.{open_sweep};
ghost use Rattle.sweep_release.specs.declared.desk_entry.DeskEntry.{DeskEntry as AnEntry};
ghost use Rattle.sweep_release.specs.Released.{legs_to, released};
ghost use Rattle.sweep_release.specs.Desk.{DeskParts, new_desk, gate_of, placed, placed_shares, next_number};
ghost use Rattle.sweep_release.specs.Desk.{with_sweep, release, ready, gate_up, gate_down, shut, take, drop_next};
ghost use Rattle.sweep_release.specs.History.{replay, release_entries, gate_up_entries, gate_down_entries};
ghost use Rattle.sweep_release.specs.History.{shut_entries, take_entries, drop_next_entries, history};
ghost use Rattle.sweep_release.specs.Place.{DeskAndBook, place};
ghost use Rattle.sweep_release.specs.Laws.{ChangesOnly, OnlyAppends, IsCounted, LeavesFirst, IsPlaced};

use crate::{Gate, ReleaseFault};

/// A gate that isn't put up, and a call that gives no leg, leave the desk as it was.
pub fn what_is_refused_changes_nothing()
    ensures release { (desk : DeskParts) (legs : List Routed) →
        OnErr (release desk legs).0 ((release desk legs).1 ≡ desk) }
    ensures ready { (desk : DeskParts) (legs : List Routed) → (ready desk legs).1 ≡ desk }
    ensures gate_up { (desk : DeskParts) (venue : ℕ) →
        OnErr (gate_up desk venue).0 ((gate_up desk venue).1 ≡ desk) }
    ensures take { (desk : DeskParts) (venue : ℕ) →
        (take desk venue).0 ≡ None → (take desk venue).1 ≡ desk }
    ensures drop_next { (desk : DeskParts) (venue : ℕ) →
        (drop_next desk venue).0 ≡ None → (drop_next desk venue).1 ≡ desk }
{}

/// A release adds its sweep behind the others, under the next number, and changes no gate and no count.
pub fn a_release_only_appends()
    ensures desk { (desk : DeskParts) (legs : List Routed) →
        OnOk (release desk legs).0 ((release desk legs).1 ≡ with_sweep legs desk) }
    ensures number { (desk : DeskParts) (legs : List Routed) →
        IfOk (release desk legs).0 (λ receipt. receipt.number ≡ length desk.sweeps + 1) }
    ensures shares { (desk : DeskParts) (legs : List Routed) →
        IfOk (release desk legs).0 (λ receipt. receipt.shares ≡ sweep_shares legs) }
    ensures legs { (desk : DeskParts) (legs : List Routed) (venue : ℕ) →
        IfOk (release desk legs).0 (λ receipt.
        released venue (release desk legs).1.sweeps
        ≡ released venue desk.sweeps ++ legs_to venue receipt.number 1 legs) }
    ensures placed_shares { (desk : DeskParts) (legs : List Routed) →
        IfOk (release desk legs).0 (λ receipt.
        placed_shares (release desk legs).1 ≡ placed_shares desk + receipt.shares) }
{}

/// A sweep is ready exactly where its release isn't refused, and for the same reason.
pub fn a_ready_sweep_is_released()
    ensures ok { (desk : DeskParts) (legs : List Routed) →
        IsOk (ready desk legs).0 ↔ IsOk (release desk legs).0 }
    ensures fault { (desk : DeskParts) (legs : List Routed) (fault : ReleaseFault) →
        (ready desk legs).0 ≡ Err fault → (release desk legs).0 ≡ Err fault }
{}

/// Whatever the calls are, a released leg stays where it is among the released legs of its venue.
pub fn released_legs_stay()
    ensures { (desk : DeskParts) (entries : List AnEntry) (venue : ℕ) → OnlyAppends venue desk (replay desk entries) }
{}

/// Whatever the calls were, each leg released to a venue is placed there or has left, and at most 256 are placed.
pub fn released_legs_are_placed_or_left()
    ensures { (venues : ℕ) (entries : List AnEntry) (venue : ℕ) → IsCounted (replay (new_desk venues) entries) venue }
{}

/// Whatever the calls are, a gate that is shut stays shut.
pub fn shut_gates_stay_shut()
    ensures { (desk : DeskParts) (entries : List AnEntry) (venue : ℕ) →
        gate_of desk venue ≡ Gate.Shut → gate_of (replay desk entries) venue ≡ Gate.Shut }
{}

/// A call at one venue leaves the sweeps and the other venues as they were.
pub fn other_venues_stay()
    ensures gate_up { (desk : DeskParts) (venue : ℕ) → ChangesOnly venue desk (gate_up desk venue).1 }
    ensures gate_down { (desk : DeskParts) (venue : ℕ) → ChangesOnly venue desk (gate_down desk venue) }
    ensures shut { (desk : DeskParts) (venue : ℕ) → ChangesOnly venue desk (shut desk venue) }
    ensures take { (desk : DeskParts) (venue : ℕ) → ChangesOnly venue desk (take desk venue).1 }
    ensures drop_next { (desk : DeskParts) (venue : ℕ) → ChangesOnly venue desk (drop_next desk venue).1 }
{}

/// The leg that leaves is the first of those placed, and its ordinal is its place among those released.
pub fn the_first_leg_leaves()
    ensures take { (desk : DeskParts) (venue : ℕ) → venue < length desk.venues →
        IfSome (take desk venue).0 (LeavesFirst venue desk (take desk venue).1) }
    ensures drop_next { (desk : DeskParts) (venue : ℕ) → venue < length desk.venues →
        IfSome (drop_next desk venue).0 (LeavesFirst venue desk (drop_next desk venue).1) }
{}

/// What a call adds to the history leads from the desk before it to the desk after it.
pub fn each_entry_leads_on()
    ensures release { (desk : DeskParts) (legs : List Routed) →
        replay desk (release_entries legs (release desk legs).0) ≡ (release desk legs).1 }
    ensures gate_up { (desk : DeskParts) (venue : ℕ) →
        replay desk (gate_up_entries desk venue) ≡ (gate_up desk venue).1 }
    ensures gate_down { (desk : DeskParts) (venue : ℕ) →
        replay desk (gate_down_entries desk venue) ≡ gate_down desk venue }
    ensures shut { (desk : DeskParts) (venue : ℕ) → replay desk (shut_entries desk venue) ≡ shut desk venue }
    ensures take { (desk : DeskParts) (venue : ℕ) → replay desk (take_entries desk venue) ≡ (take desk venue).1 }
    ensures drop_next { (desk : DeskParts) (venue : ℕ) →
        replay desk (drop_next_entries desk venue) ≡ (drop_next desk venue).1 }
{}

/// A sweep that is placed is in the desk and in the book, under one number, and nothing else changed.
pub fn a_placed_sweep_is_in_both()
    ensures { (before : DeskAndBook) (legs : List Routed) →
        IfOk (place before legs).0 (IsPlaced before legs (place before legs).1) }
{}

/// The refusals of a release come first; where only the book refuses, it is the wrong one. A refused sweep is in
/// neither.
pub fn a_sweep_is_placed_unless_one_refuses()
    ensures desk { (before : DeskAndBook) (legs : List Routed) (fault : ReleaseFault) →
        (release before.desk legs).0 ≡ Err fault → (place before legs).0 ≡ Err fault }
    ensures book { (before : DeskAndBook) (legs : List Routed) → IsOk (release before.desk legs).0 →
        OnErr (open_sweep before.book (next_number before.desk) legs).0
        ((place before legs).0 ≡ Err ReleaseFault.WrongBook) }
    ensures neither { (before : DeskAndBook) (legs : List Routed) → IsOk (release before.desk legs).0 →
        IsOk (open_sweep before.book (next_number before.desk) legs).0 → IsOk (place before legs).0 }
    ensures refused { (before : DeskAndBook) (legs : List Routed) →
        OnErr (place before legs).0 ((place before legs).1 ≡ before) }
{}

/// The history of a list of calls, which has those alone that changed the desk, leads to the desk after all of them.
pub fn the_history_leads_to_the_desk()
    ensures { (desk : DeskParts) (calls : List AnEntry) → replay desk (history desk calls) ≡ replay desk calls }
{}
