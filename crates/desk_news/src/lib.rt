//! What a desk is told, a line each: news of sweeps and venues, how they stand, and what the day came to.
//!
//! Promises:
//! - News of sweeps and venues, how both stand, the legs of a venue that stay in doubt, and what the day came to are
//!   exactly the stated texts (`news_text`, `status_text`, `doubt_text`, `day_text`). A text of others stands in
//!   them as it is shown: printable, and no more than 200 characters of it.
//! - What was paid for a sweep, the average price of its shares and what is disputed of them stand behind its parts,
//!   exactly as stated (`paid_text`). The average is rounded to the nearest hundred-millionth, a half up.
#![tactic(auto)]

mod cause;
mod day_totals;
mod doubt;
mod ending;
mod news;
mod paid;
mod status;
mod sweep_parts;
mod venue_state;

pub use cause::{Cause, Told};
pub use day_totals::{AUDIT_OK, DayTotals};
pub use doubt::doubt_line;
pub use ending::Ending;
pub use news::News;
pub use paid::{Paid, PaidSweep};
pub use status::{Status, VenueStatus};
pub use sweep_parts::SweepParts;
pub use venue_state::VenueState;
