//! What a worker knows of the time: the moment as a stamp in UTC, and how many milliseconds pass.
//!
//! Promises:
//! - `stamp_at` of an instant is the stamp of the civil time in UTC at that instant, cut to whole milliseconds, and
//!   none exactly where its year is below 0; no other answer meets the clause (`instants_have_one_stamp`).
//! - `UtcClock` tells that stamp, or the last one again where there is none or the system's clock can't be read;
//!   that `now` reads the clock is only tested, and of `millis` no clause says anything.
//!
//! See `docs/worker.md`.
#![tactic(auto)]

mod clock;
mod instant;
pub mod laws;
mod stopped_clock;
mod utc_clock;

pub use clock::Clock;
pub use instant::stamp_at;
pub use stopped_clock::StoppedClock;
pub use utc_clock::UtcClock;
