//! What callers share when they release sweeps: the desk behind a lock, with the ends of the rings to the venues'
//! workers, and the seats on which each caller counts the shares that it placed.
//!
//! Promises:
//! - What lies under the lock, `LockedDesk`, replays from its own history, its seats add up to the shares of all
//!   sweeps released, and what was pushed to a venue's ring is the first of the legs released to it, just as many as
//!   left the desk, each time the lock is got (its invariant).
//! - The desk's journal is under the lock too. Each time the lock is got its lines are kept, and they say of each sweep
//!   released, in order and once, that it was placed under its number (`IsNoted`, of a journal that says what it was
//!   told). So a leg goes into a ring only once its sweep's line is kept. `Untold` is no journal.
//! - A sweep that is asked for under limits is judged first, by what the desk's own sweeps come to at that moment. Over
//!   a limit it is declined, and nothing changes. A day on which it is placed then comes to what was judged, so never
//!   to more than its limit (`ReleasesWithin`). The sum of the day is kept beside the desk, exactly (`IsDeskDollars`).
//! - Within them `release` is `place` under both locks, with its answers. The seat gains exactly this sweep, under the
//!   number of the receipt, and its shares, and by a refusal nothing. Then each venue of the sweep's legs is pumped, by
//!   a refusal none.
//! - A seat's shares are those of its sweeps (`CallerSeat::shares`); a seat that is split off has none, and one that is
//!   joined hands its own on. The sweeps of all seats are the desk's, each once and under its number (clause
//!   `all_placed` of `check_placed`): a sweep that is placed is on one seat, once.
//! - `pump` moves placed legs into the ring, in order, and stops only where none is placed or the ring was full;
//!   `raise` puts a gate up, and answers G01 until every released leg was popped.
//! - `with` takes closures that only put gates down or shut them; no gate of a held venue is up (`HeldDesk`, private).
//! - `check_placed` is `Ok` exactly where the seats add up to the shares placed, and always is with all 1,024 parts. In
//!   either case what the seats count are the shares of their sweeps.
//! - `check_queues` is `Ok` exactly where each worker took the first legs released to the venue at its place, names
//!   the first that didn't, and always is `Ok` with the ends in order.
//! - `is_shut` and `is_behind` tell without the lock what the last call that had it noted of a venue; that the note
//!   is right is tested by the days of the trials, and promised nowhere.
//! - That a lock is ever got, or a leg ever pumped, is claimed nowhere.
//!
//! See `docs/locks.md`.
#![tactic(auto)]

mod asked;
mod blank_desk;
mod caller_seat;
mod checking;
mod comparing;
mod counting;
mod declined;
mod held_desk;
mod holds;
mod journaled;
mod locked_desk;
mod lowering;
mod new_desk;
mod noting;
mod pumping;
mod release_lock;
mod run;
mod sweep_venues;
mod venue_drain;
mod venue_end;
mod venue_note;
mod venue_rings;

pub use asked::Asked;
pub use blank_desk::BlankDesk;
pub use caller_seat::CallerSeat;
pub use checking::{WrongQueue, check_queues};
pub use comparing::compare_sweeps;
pub use counting::{Miscounted, check_placed};
pub use declined::Declined;
pub use locked_desk::LockedDesk;
pub use lowering::let_down;
pub use new_desk::OpenedDesk;
pub use release_lock::{Opened, ReleaseLock};
pub use run::Run;
pub use venue_drain::VenueDrain;
pub use venue_end::VenueEnd;
pub use venue_rings::rings;
