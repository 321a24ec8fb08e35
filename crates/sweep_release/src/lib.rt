//! Sweeps placed together or not at all: the desk of released legs and the gates of the venues.
//!
//! Promises:
//! - `Desk` releases a whole sweep or nothing, with the first refusal in order (R01 to R06); gates go up, down and
//!   shut; legs are taken or dropped in release order. Each call is an equation with its definition, the history
//!   included (`next_leg` tells which leg leaves next); out of memory changes nothing.
//! - `released` lends the legs that were released to a venue, in the order of their ordinals, none where the desk
//!   hasn't got it, and takes no memory. After an Ok of `ready`, `release` of that sweep with no call between
//!   answers as its definition does, outright (their clauses `reserved`); so does `ready` itself where the room is
//!   there, and changes nothing (`there`, `still`).
//! - `gate_up` on an open gate is Ok outright and changes nothing (`open`, `still`).
//! - `place` takes a sweep at desk and book together, under one number, or at neither, out of memory included:
//!   `PlaceAnswers` of `place_kept`; where the desk has the room, R07 comes only for a sweep that would be placed
//!   (`there`).
//! - Not said: that `Desk::new`, a gate that goes up, or a release without room is refused memory only where a
//!   growth was refused, since no contract sees that; `cases/desk` and the days of `checks/built/refusals` try it.
#![tactic(auto)]

mod desk;
mod desk_entry;
mod enqueue;
mod gate;
mod gate_fault;
pub mod laws;
mod placement;
mod receipt;
mod refusing;
mod release_fault;
mod reserve;
pub mod rows;
mod venue;

pub use desk::Desk;
pub use desk_entry::DeskEntry;
pub use gate::Gate;
pub use gate_fault::GateFault;
pub use placement::place;
pub use receipt::Receipt;
pub use release_fault::ReleaseFault;
