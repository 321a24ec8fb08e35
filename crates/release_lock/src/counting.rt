//! Compares what the seats count with what was placed.

ghost use Rattle.std.specs.Prelude.{◌≡◌, ◌↔◌, IfOk, IsOk};
ghost use Rattle.exec_collector.specs.Seats.{parts_of, shares_of};
ghost use Rattle.sweep_release.specs.Desk.{placed_shares};
ghost use Rattle.release_lock.specs.Seats.{shares_placed, AreAllPlaced};

use crate::{CallerSeat, LockedDesk, Run};
use kept_link::Telling;

/// The seats don't add up to the shares placed.
#[derive(Clone, Copy, Debug, PartialEq, Eq)]
pub struct Miscounted;

/// The shares of these seats, where they are those of all sweeps released. The seats of all callers always are. In
/// either case they are those of the sweeps on the seats. Those of all callers are the sweeps released, each once.
#[tactic(auto, using(crate::proofs::Shares::shares_append))]
pub fn check_placed<L: Run, J: Telling>(
    locked: &mut LockedDesk<L, J>,
    seats: Vec<CallerSeat<L>>,
) -> Result<u64, Miscounted>
    ensures exact { IsOk result ↔ (shares_of seats.items ≡ placed_shares locked.old.desk) }
    ensures shares { IfOk result (λ shares. shares ≡ placed_shares locked.old.desk) }
    ensures whole { parts_of seats.items ≡ 1024 → IsOk result }
    ensures all_placed { parts_of seats.items ≡ 1024 → AreAllPlaced seats.items locked.old.desk.sweeps }
    ensures placed { shares_placed seats.items ≡ shares_of seats.items }
    ensures same { locked.new ≡ locked.old }
{
    let mut seats = seats;
    let placed = locked.desk.placed_shares();
    let mut shares = 0;
    if let Some(mut all) = seats.pop() {
        while let Some(seat) = seats.pop() {
            all.join(seat);
        }
        locked.total.audit(&mut all.share);
        locked.book.compare(&mut all.slips);
        shares = all.shares;
    }
    if shares == placed {
        Ok(shares)
    } else {
        Err(Miscounted)
    }
}
