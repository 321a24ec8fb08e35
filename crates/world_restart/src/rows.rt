//! The worked day, computed from the definitions: each is the contract of a function that does nothing.

ghost use Rattle.std.specs.Prelude.{◌≡◌, ◌++◌, codes, true, false};
ghost use Rattle.schedule.specs.Example.{line};
ghost use Rattle.schedule.specs.Printed.{printed};
ghost use Rattle.world_restart.specs.Start.{may_lose};
ghost use Rattle.world_restart.specs.Example.{before, lost, crash, another_sweep, connected, answered, day_after, day};

/// Before the crash: the fill is booked, and the third leg is placed and not sent.
pub fn before_a_crash()
    ensures { printed (day before) ≡ line (codes "venue 0 accepted [S1L1] withdrawn [] doubt [S1L1 S1L2] phase up closed no") ++ line (codes "sweep 1 legs 600 filled 60 busted 0 cancelled 0 withdrawn 0 open 540") }
{}

/// The line of the fill is lost: the book has it no more, and the leg that wasn't sent is withdrawn.
pub fn a_line_is_lost()
    ensures { printed (day (before ++ crash 0 1)) ≡ line (codes "venue 0 accepted [S1L1] withdrawn [S1L3] doubt [S1L1 S1L2] phase down closed no") ++ line (codes "sweep 1 legs 600 filled 0 busted 0 cancelled 0 withdrawn 300 open 300") }
{}

/// The order that never came to the exchange is withdrawn, and the other one taken.
pub fn a_leg_in_doubt_is_settled_after_a_crash()
    ensures { printed (day (before ++ crash 0 1 ++ connected)) ≡ line (codes "venue 0 accepted [S1L1] withdrawn [S1L2 S1L3] doubt [] phase settling closed no") ++ line (codes "sweep 1 legs 600 filled 0 busted 0 cancelled 0 withdrawn 500 open 100") }
{}

/// The fill comes again, and is booked.
pub fn a_fill_comes_again()
    ensures { printed (day (before ++ crash 0 1 ++ connected ++ answered)) ≡ line (codes "venue 0 accepted [S1L1] withdrawn [S1L2 S1L3] doubt [] phase up closed no") ++ line (codes "sweep 1 legs 600 filled 60 busted 0 cancelled 0 withdrawn 500 open 40") }
{}

/// An order that was lost with its line never was on the wire: its leg is withdrawn at the start.
pub fn an_order_is_lost_with_its_line()
    ensures { printed (day (before ++ crash 0 3)) ≡ line (codes "venue 0 accepted [S1L1] withdrawn [S1L2 S1L3] doubt [S1L1] phase down closed no") ++ line (codes "sweep 1 legs 600 filled 0 busted 0 cancelled 0 withdrawn 500 open 100") }
{}

/// The line of an order that came to the exchange can't be lost, nor the sweep of a leg that left the desk; the line of
/// one that didn't come can.
pub fn what_reached_the_exchange_is_kept()
    ensures wire { may_lose (day_after before) (lost 0 4) ≡ false }
    ensures release { may_lose (day_after before) (lost 1 1) ≡ false }
    ensures other { may_lose (day_after before) (lost 0 3) ≡ true }
{}

/// The line of a start that withdrew a leg can't be lost in the next crash.
pub fn a_withdrawal_is_kept()
    ensures { may_lose (day_after (before ++ crash 0 1)) (lost 0 1) ≡ false }
{}

/// A sweep of which no leg has left the desk may be lost: it is as if it had never been placed.
pub fn a_sweep_is_forgotten()
    ensures { printed (day (before ++ another_sweep ++ crash 1 1)) ≡ line (codes "venue 0 accepted [S1L1] withdrawn [S1L3] doubt [S1L1 S1L2] phase down closed no") ++ line (codes "sweep 1 legs 600 filled 0 busted 0 cancelled 0 withdrawn 300 open 300") }
{}
