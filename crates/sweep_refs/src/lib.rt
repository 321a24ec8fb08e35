//! References: what a caller calls a sweep, so that it may be submitted again after a lost answer and isn't placed
//! twice.
//!
//! Promises:
//! - A reference is 1 to 64 printable characters without a space, and nothing else makes one (`SweepRef::new`).
//! - `RefBook` has what was placed under references, in order. No two of its entries have one reference (clause
//!   `distinct` of `look`). A sweep under a reference is new, or placed already with these very legs under a number, or
//!   placed with others: exactly as the first entry of that reference says (`Finds`).
//! - Room is reserved before a sweep is placed (`reserve`); then `note` takes no memory, and adds just one entry at the
//!   end. A reference that isn't noted is free.
//!
//! See `docs/run.md`.
#![tactic(auto)]

mod placement;
mod ref_book;
mod submission;
mod sweep_ref;
mod worked;

pub use placement::{Found, Placement};
pub use ref_book::RefBook;
pub use submission::Submission;
pub use sweep_ref::{MAX_REF, SweepRef};
pub use worked::references_are_found;
