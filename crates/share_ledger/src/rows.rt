//! Examples of the book's rules, worked out: each is the contract of a function that does nothing.

ghost use Rattle.std.specs.Prelude.{◌≡◌, List, [], ◌∷◌, Some, None, Ok, codes};
ghost use Rattle.dialect.specs.declared.fault.DialectFault.TheVariants.{NotMarked};
ghost use Rattle.dialect.specs.declared.note.Note.TheVariants as note;
ghost use Rattle.dialect.specs.declared.report.ReportKind.TheVariants.{New, Canceled, Rejected, Expired};
ghost use Rattle.share_ledger.specs.Book.{open_sweep, withdraw, apply, totals, venue_resolved};
ghost use Rattle.share_ledger.specs.Rows.{order, leg, report, trade, bust, applied_all, after_all, two_legs, trades_on_two_legs, opened_with, one_leg, greatest, a_bust};

use crate::{Applied, BookFault};

/// A trade moves shares, the same report again doesn't, nor does one of more shares than are open, nor one on a leg
/// that was withdrawn.
pub fn trades_that_move_and_that_do_not()
    ensures answers { applied_all two_legs trades_on_two_legs
        ≡ Applied.Moved ∷ Applied.Duplicate ∷ Applied.Overfill ∷ Applied.Moved ∷ Applied.Stray ∷ [] }
    ensures totals { totals (after_all two_legs trades_on_two_legs) 1
        ≡ Some (record { filled = 100; busted = 0; cancelled = 0; withdrawn = 50; still_open = 0 }) }
{}

/// A number that isn't the next, a venue that isn't there, and a leg that was traded.
pub fn refusals_after_trades()
    ensures not_next { (open_sweep (after_all two_legs trades_on_two_legs) 3 (order 0 10 ∷ [])).0 ≡ Err BookFault.NotNext }
    ensures unfit { (open_sweep (after_all two_legs trades_on_two_legs) 2 (order 1 10 ∷ [])).0 ≡ Err BookFault.Unfit }
    ensures moved { (withdraw (after_all two_legs trades_on_two_legs) (leg 1)).0 ≡ Err BookFault.AlreadyMoved }
{}

/// The shares of a busted trade are never open again, and a trade is busted once.
pub fn busted_shares_stay_busted()
    ensures answers { applied_all one_leg a_bust
        ≡ Applied.Moved ∷ Applied.Moved ∷ Applied.Stray ∷ Applied.Stray ∷ Applied.Overfill ∷ [] }
    ensures moved { (withdraw (after_all one_leg a_bust) (leg 1)).0 ≡ Err BookFault.AlreadyMoved }
    ensures totals { totals (after_all one_leg a_bust) 1
        ≡ Some (record { filled = 0; busted = 60; cancelled = 0; withdrawn = 0; still_open = 40 }) }
{}

/// What ends a leg cancels what is open of it, and what can't be read or is on another venue's leg does nothing.
pub fn ends_of_a_leg()
    ensures expired { applied_all one_leg (report 1 (codes "E1") New ∷ trade 1 (codes "E2") 30 ∷ report 1 (codes "E3") Expired ∷ [])
        ≡ Applied.Moved ∷ Applied.Moved ∷ Applied.Moved ∷ [] }
    ensures rest { totals (after_all one_leg (report 1 (codes "E1") New ∷ trade 1 (codes "E2") 30 ∷ report 1 (codes "E3") Expired ∷ [])) 1
        ≡ Some (record { filled = 30; busted = 0; cancelled = 70; withdrawn = 0; still_open = 0 }) }
    ensures rejected { totals (after_all one_leg (report 1 (codes "E1") Rejected ∷ [])) 1
        ≡ Some (record { filled = 0; busted = 0; cancelled = 100; withdrawn = 0; still_open = 0 }) }
    ensures refused { totals (after_all one_leg (note.Refused (leg 1) ∷ report 1 (codes "E1") Canceled ∷ [])) 1
        ≡ Some (record { filled = 0; busted = 0; cancelled = 100; withdrawn = 0; still_open = 0 }) }
    ensures unread { applied_all one_leg (note.Unread NotMarked ∷ []) ≡ Applied.Stray ∷ [] }
    ensures elsewhere { (apply one_leg 1 (trade 1 (codes "E1") 10)).0 ≡ Ok Applied.Stray }
    ensures unknown { applied_all one_leg (trade 2 (codes "E1") 10 ∷ []) ≡ Applied.Stray ∷ [] }
    ensures resolved { venue_resolved (after_all one_leg (trade 1 (codes "E1") 30 ∷ bust 1 (codes "E2") (codes "E1") ∷ [])) 0 ≡ 30 }
{}

/// A sweep of no legs, and one whose shares would pass 10^18 in all.
pub fn sweeps_that_are_not_opened()
    ensures empty { (open_sweep one_leg 2 []).0 ≡ Err BookFault.Unfit }
    ensures too_many_shares { (open_sweep one_leg 2 (order 0 1000000000000000000 ∷ [])).0 ≡ Err BookFault.Unfit }
    ensures unknown_leg { (withdraw one_leg (leg 2)).0 ≡ Err BookFault.AlreadyMoved }
    ensures unknown_sweep { totals one_leg 2 ≡ None }
{}

/// The greatest sweep is opened where it makes 10^18 shares in all, and not where it would make one more.
pub fn a_day_of_shares_is_opened()
    ensures last { (open_sweep (opened_with 999999999968000000) 2 greatest).0 ≡ Ok tt }
    ensures one_more { (open_sweep (opened_with 999999999968000001) 2 greatest).0 ≡ Err BookFault.Unfit }
{}
