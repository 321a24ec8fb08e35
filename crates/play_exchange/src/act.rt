//! What an exchange does by itself.

use case_text::{PlayFault, number};
use dialect::LastPx;

/// What an exchange does by itself. An order has a place among those accepted, and a trade among those of its order,
/// both from 1.
#[derive(Debug, Drop)]
pub enum Act {
    Trade {
        order: usize,
        shares: u64,
        px: LastPx,
    },
    CancelRest(usize),
    Reject(usize),
    Bust {
        order: usize,
        trade: usize,
    },
    Test,
    Disconnect,
}

fn place_of(word: &str) -> Result<usize, PlayFault> {
    Ok(number(word)? as usize)
}

fn price_of(word: &str) -> Result<LastPx, PlayFault> {
    LastPx::new(word.as_bytes()).ok_or(PlayFault::NotUnderstood)
}

fn trade_of(order: &str, shares: &str, px: &str) -> Result<Act, PlayFault> {
    let order = place_of(order)?;
    let shares = number(shares)?;
    let px = price_of(px)?;
    Ok(Act::Trade { order, shares, px })
}

fn bust_of(order: &str, trade: &str) -> Result<Act, PlayFault> {
    let order = place_of(order)?;
    let trade = place_of(trade)?;
    Ok(Act::Bust { order, trade })
}

impl Act {
    /// The act of these words, as `trade 60 of order 1 at 10.25`.
    pub fn of(words: &[&str]) -> Result<Act, PlayFault> {
        match words {
            ["trade", shares, "of", "order", order, "at", px] => trade_of(order, shares, px),
            ["cancel", "order", order] => Ok(Act::CancelRest(place_of(order)?)),
            ["reject", "order", order] => Ok(Act::Reject(place_of(order)?)),
            ["bust", "trade", trade, "of", "order", order] => bust_of(order, trade),
            ["test"] => Ok(Act::Test),
            ["disconnect"] => Ok(Act::Disconnect),
            _ => Err(PlayFault::NotUnderstood),
        }
    }
}
