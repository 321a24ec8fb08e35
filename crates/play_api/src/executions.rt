//! The words of a case for an execution, read.

use case_text::{PlayFault, bytes_of, number, words};
use desk_executions::UnbookedCounts;
use desk_words::VenueName;
use dialect::{DialectFault, ExecId, Fill, LastPx, Note, Report, ReportKind};
use leg::{LegId, MAX_PLACE, MAX_SWEEP};
use share_ledger::Applied;
use std::alloc::Global;

/// The venue that a text begins with, and what follows it.
pub fn named_venue(text: &str) -> Result<(VenueName, &str), PlayFault> {
    let Some((name, rest)) = text.split_once(' ') else {
        return Err(PlayFault::NotUnderstood);
    };
    match VenueName::new(name.as_bytes()) {
        Some(venue) => Ok((venue, rest)),
        None => Err(PlayFault::NotUnderstood),
    }
}

/// The answer of the book that a text begins with, and what follows it.
pub fn answered(text: &str) -> Result<(Applied, &str), PlayFault> {
    let Some((word, rest)) = text.split_once(' ') else {
        return Err(PlayFault::NotUnderstood);
    };
    let answer = match word {
        "duplicate" => Applied::Duplicate,
        "overfill" => Applied::Overfill,
        "stray" => Applied::Stray,
        _ => return Err(PlayFault::NotUnderstood),
    };
    Ok((answer, rest))
}

/// How many notes of a venue weren't taken: duplicates, overfills, strays, and those that can't be read.
pub fn unbooked_counts(alloc: Global, text: &str) -> Result<UnbookedCounts, PlayFault> {
    match *words(alloc, text)?.as_slice() {
        [duplicates, overfills, strays, unread] => Ok(UnbookedCounts {
            duplicates: number(duplicates)?,
            overfills: number(overfills)?,
            strays: number(strays)?,
            unread: number(unread)?,
        }),
        _ => Err(PlayFault::NotUnderstood),
    }
}

/// The number of a tag.
fn tag(word: &str) -> Result<u32, PlayFault> {
    Ok(u32::try_from(number(word)?).unwrap_or(u32::MAX))
}

/// A leg's number, as `S1L2`.
fn leg_id(word: &str) -> Result<LegId, PlayFault> {
    let Some((sweep, place)) = word.strip_prefix('S').and_then(|rest| rest.split_once('L')) else {
        return Err(PlayFault::NotUnderstood);
    };
    let (sweep, place) = (number(sweep)?, number(place)?);
    let place = u8::try_from(place).unwrap_or(MAX_PLACE);
    Ok(LegId::new(sweep.clamp(1, MAX_SWEEP), place.clamp(1, MAX_PLACE)))
}

/// An ExecID, in which a byte may stand as `\xNN`.
fn exec_id(alloc: Global, word: &str) -> Result<ExecId, PlayFault> {
    match ExecId::new(bytes_of(alloc, word)?.as_slice()) {
        Some(exec) => Ok(exec),
        None => Err(PlayFault::NotUnderstood),
    }
}

/// A trade of so many shares at a price.
fn fill(alloc: Global, shares: &str, price: &str) -> Result<Fill, PlayFault> {
    let Some(price) = LastPx::new(bytes_of(alloc, price)?.as_slice()) else {
        return Err(PlayFault::NotUnderstood);
    };
    match Fill::new(number(shares)?, price) {
        Some(fill) => Ok(fill),
        None => Err(PlayFault::NotUnderstood),
    }
}

/// What an exchange said: `S1L1 new E1`, `S1L1 fill 60 10.25 E2`, `S1L1 cancelled E3`, as well `rejected` and
/// `expired`, `S1L1 bust E2 E4`, `S1L1 refused`; `missing 17` or `bad 31` of a tag where a report can't be read.
pub fn note(alloc: Global, text: &str) -> Result<Note, PlayFault> {
    let (id, exec, kind) = match *words(alloc, text)?.as_slice() {
        [id, "refused"] => return Ok(Note::Refused(leg_id(id)?)),
        ["missing", word] => return Ok(Note::Unread(DialectFault::Missing(tag(word)?))),
        ["bad", word] => return Ok(Note::Unread(DialectFault::Bad(tag(word)?))),
        [id, "new", exec] => (id, exec, ReportKind::New),
        [id, "fill", shares, price, exec] => {
            (id, exec, ReportKind::Trade(fill(alloc, shares, price)?))
        }
        [id, "cancelled", exec] => (id, exec, ReportKind::Canceled),
        [id, "rejected", exec] => (id, exec, ReportKind::Rejected),
        [id, "expired", exec] => (id, exec, ReportKind::Expired),
        [id, "bust", trade, exec] => {
            let cancelled_id = exec_id(alloc, trade)?;
            (id, exec, ReportKind::Bust { cancelled_id })
        }
        _ => return Err(PlayFault::NotUnderstood),
    };
    Ok(Note::Report(Report {
        id: leg_id(id)?,
        exec: exec_id(alloc, exec)?,
        kind,
    }))
}
