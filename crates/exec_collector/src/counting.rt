//! Compares what the seats count with what the book has resolved.

ghost use Rattle.std.specs.Prelude.{◌≡◌, ◌<◌, ◌↔◌, IfOk, IsOk};
ghost use Rattle.std.specs.List.{All};
ghost use Rattle.exec_collector.specs.Booked.{IsKept};
ghost use Rattle.exec_collector.specs.Resolved.{Replays, resolved};
ghost use Rattle.exec_collector.specs.Seats.{parts_of, shares_of};
ghost use Rattle.exec_collector.specs.Unbooked.{IsListOf, WereUnbooked};

use crate::{Accounts, CountedBook, WorkerSeat};

/// The seats don't add up to what the venues have resolved.
#[derive(Clone, Copy, Debug, PartialEq, Eq)]
pub struct Miscounted;

/// The shares of these seats, where they are those that the venues have resolved. The seats of all workers always are.
/// In either case what stands on each seat is what the book took of its venue, and what it didn't take.
pub fn check_count<M: Accounts>(
    counted: &mut CountedBook<M>,
    seats: Vec<WorkerSeat<M>>,
) -> Result<u64, Miscounted>
    ensures exact { IsOk result ↔ (shares_of seats.items ≡ resolved counted.old.book) }
    ensures shares { IfOk result (λ shares. shares ≡ resolved counted.old.book) }
    ensures whole { parts_of seats.items ≡ M.parts → 0 < M.parts → IsOk result }
    ensures kept { All (IsKept counted.old.book) seats.items }
    ensures unbooked { All (WereUnbooked counted.old.unbooked) seats.items }
    ensures replays { Replays counted.old.book }
    ensures list { IsListOf counted.old.book counted.old.unbooked }
    ensures same { counted.new ≡ counted.old }
{
    let mut seats = seats;
    let resolved = counted.resolved();
    let mut shares = 0;
    if let Some(mut all) = seats.pop() {
        counted.compare(&mut all);
        while let Some(mut seat) = seats.pop() {
            counted.compare(&mut seat);
            all.join(seat);
        }
        counted.total.audit(&mut all.share);
        shares = all.shares;
    }
    if shares == resolved {
        Ok(shares)
    } else {
        Err(Miscounted)
    }
}
