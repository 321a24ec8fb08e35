//! The texts of the interface for programs, in JSON: a sweep that is handed in is read, and what the desk answers is
//! written.
//!
//! Promises:
//! - `read_sweep` gives exactly the sweep that a body asks for, with its reference (`sweep_in` of the JSON that it is),
//!   or the first fault with its leg and key, or says that it is no JSON in UTF-8, or that an object of it has a key
//!   twice (`BodySays`). Where in a body that is no JSON the reader stood isn't said.
//! - Each text that is written is the stated one, over the values that it is written of: `outcome_json`,
//!   `body_fault_json`, `sweeps_json`, `legs_json`, `executions_json`, `venues_json`, `event_text`. Texts of others
//!   stand in them as strings of JSON (`quoted`). That a whole text is JSON is only tested.
//! - Each call refuses for lack of memory alone; that memory was wanted isn't said.
//!
//! See `docs/api.md`.
#![tactic(auto)]

mod event;
mod executions_written;
mod fault_written;
mod key;
mod key_fault;
mod leg_in;
mod legs_written;
mod outcome;
mod paid_written;
mod price_words;
mod quoted;
mod standing;
mod sweep_fault;
mod sweep_in;
mod sweeps_written;
mod twice;
mod venues_written;
mod words_written;

pub use event::{Audit, Event, event_text};
pub use executions_written::{execution_json, executions_json, unbooked_json};
pub use fault_written::{body_fault_json, said_json};
pub use key::Key;
pub use key_fault::KeyFault;
pub use legs_written::legs_json;
pub use outcome::{Outcome, outcome_json, refusal_json};
pub use standing::{
    ExecutionsPage, LegRow, OrderWaits, SweepLegs, SweepsPage, VenueRow, WaitCount,
};
pub use sweep_fault::{BodyFault, SweepFault};
pub use sweep_in::read_sweep;
pub use sweeps_written::{day_json, sweep_json, sweeps_json};
pub use venues_written::{venue_json, venues_json};
