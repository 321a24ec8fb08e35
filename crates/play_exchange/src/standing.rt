//! How an exchange stands.

use case_text::{Answers, PlayFault};
use case_words::report_text;
use exchange_core::Exchange;
use leg::Leg;
use std::alloc::{AllocError, Global};

fn tell_orders(alloc: Global, legs: &[Leg], answers: &mut Answers) -> Result<(), PlayFault> {
    let mut place = 0u64;
    for leg in legs {
        place = place.saturating_add(1);
        let text = format!(in alloc; "order {place} {leg}")?;
        answers.say(&text)?;
    }
    Ok(())
}

fn tell_close(
    alloc: Global,
    orders: Option<usize>,
    answers: &mut Answers,
) -> Result<(), PlayFault> {
    match orders {
        Some(orders) => {
            let text = format!(in alloc; "orders at the Logout {orders}")?;
            answers.say(&text)
        }
        None => Ok(()),
    }
}

/// Tells the number that an exchange expects, the orders that it accepted, all reports that it made, and how many
/// orders there were at the Logout, if there was one.
pub fn tell_standing(
    alloc: Global,
    exchange: &Exchange,
    answers: &mut Answers,
) -> Result<(), PlayFault> {
    let text = format!(in alloc; "expects {}", exchange.expected())?;
    answers.say(&text)?;
    tell_orders(alloc, exchange.accepted(), answers)?;
    for report in exchange.reports() {
        answers.say(&report_text(alloc, report)?)?;
    }
    tell_close(alloc, exchange.closed_at(), answers)
}
