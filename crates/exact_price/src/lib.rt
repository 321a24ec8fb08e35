//! Prices and what is paid in all, exactly: in hundred-millionths (10^-8) of the currency's unit.
//!
//! Promises:
//! - `read_exact` reads a price as exactly `exact_of` says: units, and at most eight decimals that aren't zeros, up to
//!   9,999,999,999.99999999. Of any other text it reads none. It takes no memory.
//! - `Exact` is shown as exactly `exact_text`: with as many decimals as it takes.
//! - `average` is the average price of some shares, rounded to the nearest hundred-millionth, a half up.
//! - `rows` has examples.
#![tactic(auto)]

mod reading;
pub mod rows;
mod shown;

pub use reading::{MAX_PRICE, read_exact};
pub use shown::{Exact, average};
