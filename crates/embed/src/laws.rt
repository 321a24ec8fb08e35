//! What follows from the definitions: each law is the contract of a function that does nothing.

ghost use Rattle.std.specs.Prelude.{◌≡◌, ◌≢◌, ◌<◌, ℕ, [], length};
ghost use Rattle.session_core.specs.declared.phase.Phase.{Phase as APhase};
ghost use Rattle.share_ledger.specs.Book.{BookParts};
ghost use Rattle.sweep_release.specs.Desk.{DeskParts, placed_legs};
ghost use Rattle.embed.specs.Keeping.{placed_ids, withdraw_each, follow_in};

use session_core::Phase;

/// Where a venue's session isn't up, each leg that was placed there is withdrawn, in order, and none stays placed.
pub fn no_leg_waits_for_a_session()
    ensures ids { (phase : APhase) (venue : ℕ) (desk : DeskParts) (book : BookParts) →
        phase ≢ Phase.Up → venue < length desk.venues →
        (follow_in phase venue desk book).ids ≡ placed_ids desk venue }
    ensures book { (phase : APhase) (venue : ℕ) (desk : DeskParts) (book : BookParts) →
        phase ≢ Phase.Up → venue < length desk.venues →
        (follow_in phase venue desk book).book ≡ withdraw_each (placed_ids desk venue) book }
    ensures none { (phase : APhase) (venue : ℕ) (desk : DeskParts) (book : BookParts) →
        phase ≢ Phase.Up → venue < length desk.venues →
        placed_legs (follow_in phase venue desk book).desk venue ≡ [] }
{}
