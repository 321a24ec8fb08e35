//! What a sweep is over.

ghost use Rattle.std.specs.Prelude.{◌≡◌, Some};
ghost use Rattle.order_limits.specs.Over.{over_code, over_text, symbol_word};

use crate::dollars::Dollars;
use leg::{Symbol, VenueId};
use std::fmt;

/// Which limit a sweep is over, with the figure that it has and the one that it may have. A leg is named by its symbol.
#[derive(Debug, PartialEq, Eq, Drop)]
pub enum Over {
    /// R11: a leg has too many shares.
    LegShares {
        symbol: Symbol,
        shares: u64,
        limit: u64,
    },
    /// R12: a leg comes to too many dollars.
    LegDollars {
        symbol: Symbol,
        dollars: Dollars,
        limit: Dollars,
    },
    /// R13: the sweep does.
    SweepDollars {
        dollars: Dollars,
        limit: Dollars,
    },
    /// R14: the day would.
    DayDollars {
        dollars: Dollars,
        limit: Dollars,
    },
    /// R15: a leg's symbol isn't one of those that the desk may order.
    OtherSymbol {
        symbol: Symbol,
    },
}

/// What a sweep is over, and the venue of the leg that is to blame, if one is.
#[derive(Debug, PartialEq, Eq, Drop)]
pub struct Excess {
    pub venue: Option<VenueId>,
    pub over: Over,
}

impl Over {
    /// The code of the limit.
    pub fn code(&self) -> &'static str
        ensures { result.now ≡ over_code self.now }
    {
        match self {
            Over::LegShares { .. } => "R11",
            Over::LegDollars { .. } => "R12",
            Over::SweepDollars { .. } => "R13",
            Over::DayDollars { .. } => "R14",
            Over::OtherSymbol { .. } => "R15",
        }
    }

    /// The same once more.
    pub fn copied(&self) -> Over
        ensures { result ≡ self.now }
    {
        match self {
            Over::LegShares {
                symbol,
                shares,
                limit,
            } => Over::LegShares {
                symbol: symbol.clone().unwrap(),
                shares: *shares,
                limit: *limit,
            },
            Over::LegDollars {
                symbol,
                dollars,
                limit,
            } => Over::LegDollars {
                symbol: symbol.clone().unwrap(),
                dollars: *dollars,
                limit: *limit,
            },
            Over::SweepDollars { dollars, limit } => Over::SweepDollars {
                dollars: *dollars,
                limit: *limit,
            },
            Over::DayDollars { dollars, limit } => Over::DayDollars {
                dollars: *dollars,
                limit: *limit,
            },
            Over::OtherSymbol { symbol } => Over::OtherSymbol {
                symbol: symbol.clone().unwrap(),
            },
        }
    }
}

/// The symbol of a leg, as it is told.
#[derive(Drop)]
struct SymbolWord<'a>(&'a Symbol);

impl<'a> fmt::Display for SymbolWord<'a> {
    ghost output = { λ word. Some (symbol_word word.0.now) };

    #[tactic(auto, unfolding(crate::specs::Over::symbol_word))]
    fn fmt<W: fmt::Write>(&self, f: &mut fmt::Formatter<W>) -> fmt::Result {
        let symbol = self.0;
        write!(f, "{symbol}")
    }
}

impl fmt::Display for Over {
    ghost output = { λ over. Some (over_text over) };

    fn fmt<W: fmt::Write>(&self, f: &mut fmt::Formatter<W>) -> fmt::Result {
        match self {
            Over::LegShares {
                symbol,
                shares,
                limit,
            } => {
                let symbol = SymbolWord(symbol);
                write!(
                    f,
                    "{symbol} has {shares} shares, and a leg may have {limit}"
                )
            }
            Over::LegDollars {
                symbol,
                dollars,
                limit,
            } => {
                let symbol = SymbolWord(symbol);
                write!(
                    f,
                    "{symbol} has {dollars} dollars, and a leg may have {limit}"
                )
            }
            Over::SweepDollars { dollars, limit } => write!(
                f,
                "it has {dollars} dollars, and a sweep may have {limit}"
            ),
            Over::DayDollars { dollars, limit } => write!(
                f,
                "the day would have {dollars} dollars, and may have {limit}"
            ),
            Over::OtherSymbol { symbol } => {
                let symbol = SymbolWord(symbol);
                write!(f, "{symbol} isn't among the symbols of the limits")
            }
        }
    }
}
