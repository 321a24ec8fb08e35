//! What the messages of a log say of the rules: a day's messages are gone through once, and each rule that one of them
//! breaks is named.
//!
//! Promises:
//! - Each of the 21 rules over readable messages is a definition (`SessionRules.antt`, `ExchangeRules.antt`,
//!   `LedgerRules.antt`, `ReportRules.antt`), over how the two ends stand and over the orders and reports so far
//!   (`Standing.antt`, `Ledger.antt`).
//! - `Checker::hear` answers for a message exactly what they say of it (`verdicts`), and is then exactly what is
//!   known behind it (`heard`). Where memory is refused it is as it was.
//! - `Checker` tells how the two ends stand, the orders so far and the place of each by its ClOrdID: what it tells is
//!   what it is judged by (`standing`, `orders`, `place_of`, `place_under`, `shares_of_exec`).
//! - What follows from a break that was named is told as broken again (`again_if`, over `Chains.antt`).
//! - Where no message of a log breaks `sent-once`, no two of its orders have one ClOrdID (`orders_are_sent_once`).
//!   Where none breaks `known-order`, each report is on an order that was sent before it (`reports_follow_orders`).
//! - Not said: that memory is refused only where the system does so, and that a day of this session against an
//!   exchange that keeps the rules breaks none.
#![tactic(auto)]

mod chains;
mod checker;
mod entry;
mod exchange_rules;
mod kept_report;
pub mod laws;
mod ledger;
mod ledger_rules;
mod moment;
mod number_places;
mod order;
mod order_said;
mod orders;
mod report_rules;
mod report_said;
mod reports;
mod rule;
mod said;
mod says;
mod session_rules;
mod standing;
mod tally;
mod text_places;
mod verdict;

pub use checker::Checker;
pub use entry::Entry;
pub use moment::Moment;
pub use order::Order;
pub use order_said::OrderSaid;
pub use report_said::{Happening, ReportSaid};
pub use rule::{RULES, Rule};
pub use says::Says;
pub use standing::{Phase, Request, Standing};
pub use tally::Tally;
pub use verdict::Verdict;
