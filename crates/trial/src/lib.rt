//! What the programs that try the lower layers, or measure them, have in common: their faults, their orders, the ends
//! of their sessions, a clock that stands still, and a floor: a lock and a collector of a run of its own.
#![tactic(auto)]

mod command_line;
mod end_fault;
mod ends;
mod envelope;
mod fault;
mod floor;
mod moment;
mod number;
mod order;
mod room;
mod running;
mod seats;
mod shown;
mod site;

pub use command_line::words;
pub use end_fault::{EndFault, status_of};
pub use ends::{MAX_NUMBER, far_end, near_end};
pub use envelope::envelope_in;
pub use fault::TrialFault;
pub use floor::{Floor, Post};
pub use moment::{stamp, stopped_clock};
pub use number::number_to;
pub use order::{Order, TEN, sweep_each, sweep_of};
pub use room::{room_for, room_for_text};
pub use running::{Trial, on_floor};
pub use seats::seats_of;
pub use shown::{Parts, gate_name};
pub use site::Site;
