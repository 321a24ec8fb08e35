//! The words of a case, read.

use crate::made_up_day::NOT_PAID;
use case_text::{PlayFault, number, words};
use desk_answers::Refusal;
use desk_http::{ProcessUse, RefusalCounts};
use desk_json::Outcome;
use desk_news::{DayTotals, Paid, PaidSweep, SweepParts};
use desk_words::VenueName;
use dialect::read_symbol;
use leg::Totals;
use leg_worth::Worth;
use order_limits::{Dollars, Over};
use std::alloc::Global;

/// The numbers of a text, parted by spaces.
fn numbers(alloc: Global, text: &str) -> Result<Vec<u64>, PlayFault> {
    let mut found = Vec::new(alloc);
    for word in words(alloc, text)? {
        found.push(number(word)?)?;
    }
    Ok(found)
}

/// A sweep: its number, its shares, and what is filled, busted, cancelled, withdrawn and open.
fn sweep_parts(alloc: Global, text: &str) -> Result<SweepParts, PlayFault> {
    match *numbers(alloc, text)?.as_slice() {
        [
            sweep,
            shares,
            filled,
            busted,
            cancelled,
            withdrawn,
            still_open,
        ] => Ok(SweepParts {
            sweep,
            shares,
            totals: Totals {
                filled,
                busted,
                cancelled,
                withdrawn,
                still_open,
            },
        }),
        _ => Err(PlayFault::NotUnderstood),
    }
}

/// What was paid for so many filled shares: the value in hundred-millionths, the shares of no known price, and those
/// that are disputed.
fn paid(alloc: Global, filled: u64, text: &str) -> Result<Paid, PlayFault> {
    match *numbers(alloc, text)?.as_slice() {
        [value, unpriced, disputed] => Ok(Paid {
            worth: Worth {
                value: u128::from(value),
                unpriced,
            },
            filled,
            disputed,
        }),
        _ => Err(PlayFault::NotUnderstood),
    }
}

/// A sweep, and behind `paid` what was paid for it.
pub fn paid_sweep(alloc: Global, text: &str) -> Result<PaidSweep, PlayFault> {
    match text.split_once(" paid ") {
        Some((text, paid_text)) => {
            let parts = sweep_parts(alloc, text)?;
            let paid = paid(alloc, parts.totals.filled, paid_text)?;
            Ok(PaidSweep { parts, paid })
        }
        None => {
            let parts = sweep_parts(alloc, text)?;
            Ok(PaidSweep {
                parts,
                paid: NOT_PAID,
            })
        }
    }
}

/// The day's shares: placed, resolved and open.
pub fn day_totals(alloc: Global, text: &str) -> Result<DayTotals, PlayFault> {
    match *numbers(alloc, text)?.as_slice() {
        [placed, resolved, still_open] => Ok(DayTotals {
            placed,
            resolved,
            still_open,
        }),
        _ => Err(PlayFault::NotUnderstood),
    }
}

/// What the process uses: microseconds of processor time, bytes of resident memory, and bytes in all.
pub fn process_use(alloc: Global, text: &str) -> Result<ProcessUse, PlayFault> {
    match *numbers(alloc, text)?.as_slice() {
        [cpu, resident, mapped] => Ok(ProcessUse {
            cpu,
            resident,
            mapped,
        }),
        _ => Err(PlayFault::NotUnderstood),
    }
}

/// How many sweeps were refused: with R01 to R15, and when the day was closing.
pub fn refusal_counts(alloc: Global, text: &str) -> Result<RefusalCounts, PlayFault> {
    match *numbers(alloc, text)?.as_slice() {
        [
            no_legs,
            too_many_legs,
            unknown_venue,
            gate_down,
            backlog_full,
            sweeps_spent,
            out_of_memory,
            wrong_book,
            other_legs,
            no_reference,
            leg_shares,
            leg_dollars,
            sweep_dollars,
            day_dollars,
            other_symbol,
            closing,
        ] => Ok(RefusalCounts {
            no_legs,
            too_many_legs,
            unknown_venue,
            gate_down,
            backlog_full,
            sweeps_spent,
            out_of_memory,
            wrong_book,
            other_legs,
            no_reference,
            leg_shares,
            leg_dollars,
            sweep_dollars,
            day_dollars,
            other_symbol,
            closing,
        }),
        _ => Err(PlayFault::NotUnderstood),
    }
}

/// A refusal for a limit, of `R11 VENUE SYMBOL SHARES LIMIT` or `R13 DOLLARS LIMIT`, whose dollars are whole.
fn over_limit(text: &str) -> Result<Refusal, PlayFault> {
    if let Some(figures) = text.strip_prefix("R13 ") {
        let Some((dollars, limit)) = figures.split_once(' ') else {
            return Err(PlayFault::NotUnderstood);
        };
        return Ok(Refusal::OverLimit {
            venue: None,
            over: Over::SweepDollars {
                dollars: Dollars::of(number(dollars)?),
                limit: Dollars::of(number(limit)?),
            },
        });
    }
    let Some((name, rest)) = text
        .strip_prefix("R11 ")
        .and_then(|words| words.split_once(' '))
    else {
        return Err(PlayFault::NotUnderstood);
    };
    let Some((symbol, figures)) = rest.split_once(' ') else {
        return Err(PlayFault::NotUnderstood);
    };
    let Some((shares, limit)) = figures.split_once(' ') else {
        return Err(PlayFault::NotUnderstood);
    };
    let (Some(venue), Some(symbol)) = (
        VenueName::new(name.as_bytes()),
        read_symbol(symbol.as_bytes()),
    ) else {
        return Err(PlayFault::NotUnderstood);
    };
    Ok(Refusal::OverLimit {
        venue: Some(venue),
        over: Over::LegShares {
            symbol,
            shares: number(shares)?,
            limit: number(limit)?,
        },
    })
}

/// What becomes of the next sweep: `placed NUMBER SHARES`, `again NUMBER SHARES`, `refused R02`, `refused R04 VENUE`,
/// `refused R11 VENUE SYMBOL SHARES LIMIT`, `refused R13 DOLLARS LIMIT` or `closing`.
pub fn outcome(text: &str) -> Result<Outcome, PlayFault> {
    if let Some((sweep, shares)) = text.strip_prefix("placed ").and_then(|t| t.split_once(' ')) {
        return Ok(Outcome::Placed {
            sweep: number(sweep)?,
            shares: number(shares)?,
        });
    }
    if let Some((sweep, shares)) = text.strip_prefix("again ").and_then(|t| t.split_once(' ')) {
        return Ok(Outcome::Again {
            sweep: number(sweep)?,
            shares: number(shares)?,
        });
    }
    if let Some(name) = text.strip_prefix("refused R04 ") {
        return match VenueName::new(name.as_bytes()) {
            Some(venue) => Ok(Outcome::Refused(Refusal::GateDown(venue))),
            None => Err(PlayFault::NotUnderstood),
        };
    }
    match text {
        "refused R01" => Ok(Outcome::Refused(Refusal::NoLegs)),
        "refused R02" => Ok(Outcome::Refused(Refusal::TooManyLegs)),
        "refused R09" => Ok(Outcome::Refused(Refusal::OtherLegs)),
        "refused R10" => Ok(Outcome::Refused(Refusal::NoReference)),
        "closing" => Ok(Outcome::Closing),
        _ => match text.strip_prefix("refused ") {
            Some(words) => Ok(Outcome::Refused(over_limit(words)?)),
            None => Err(PlayFault::NotUnderstood),
        },
    }
}
