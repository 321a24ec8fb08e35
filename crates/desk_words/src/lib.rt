//! The words that a desk's file and its lines share: the names of venues, and text of others as it is shown.
#![tactic(auto)]

mod printable;
mod venue_name;

pub use printable::{Printable, byte_shown, shown};
pub use venue_name::{MAX_NAME, VenueName};
