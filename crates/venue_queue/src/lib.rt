//! The ring of one venue: callers push its placed legs at one end, and its worker pops them at the other.
//!
//! Promises:
//! - At every step the legs popped, followed by the legs in the ring, are the legs pushed, whatever other threads do
//!   (`InOrder`, the rule that each step is proved to keep).
//! - `push` adds its leg, or gives it back and changes nothing; it comes back only where at some moment the ring was
//!   full, of the legs pushed last.
//! - `pop` gives the next leg or changes nothing; `pop_to` gives none beyond its count. Once the two ends are in one
//!   thread again, the legs popped are the first of those pushed (`agree`), and what is left is the rest, in order,
//!   with both counts (`meet`).
//! - That a `pop` of a ring which is never empty gives a leg is only tested.
//!
//! See `docs/locks.md`.
#![tactic(auto)]

mod drain;
mod feed;
mod meeting;
mod pairing;
mod rule;

pub use drain::Drain;
pub use feed::Feed;
pub use meeting::{Met, agree, meet};
pub use pairing::pair;
