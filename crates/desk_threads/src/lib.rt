//! The threads of a desk's day beside those of its callers: each exchange that is simulated, each server of its page,
//! what writes its logs and each worker have one of their own, and the keeper has the one that starts them.
//!
//! Promises:
//! - What the threads leave is what the workers that they were given left when they ran, each at its place, and why
//!   threads can't be run is no mismatch of the audit (`in_threads`).
//! - That all threads end once the workers have ended, or one is refused or wants memory, is only tested.
//!
//! See `docs/run.md`.
#![tactic(auto)]

mod threads;

pub use threads::in_threads;
