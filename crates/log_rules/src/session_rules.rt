//! The rules of the session.

ghost use Rattle.std.specs.Prelude.{◌≡◌};
ghost use Rattle.log_rules.specs.SessionRules.{follows, gap_fills, heartbeats, is_safe_fill, logon_first, sent_numbers};

use crate::entry::Entry;
use crate::says::Says;
use crate::standing::{Phase, Standing};
use crate::verdict::Verdict;
use message_log::Direction;

/// Whether a number is the one after the last.
fn follows(last: u64, number: u64) -> bool
    ensures { result ≡ follows last number }
{
    last < number && number - last == 1
}

/// A new message has the number after the last one. A Logon, which begins a connection, may have a greater one: a
/// message that couldn't be written when the connection before it broke had a number, and is in no log. A Logon that
/// resets the numbers begins anew, and nothing is asked of the first message of a log, nor of one that may have been
/// sent before.
pub(crate) fn sent_numbers(standing: &Standing, entry: &Entry<'_>) -> Verdict
    ensures { result ≡ sent_numbers standing.now.last entry.now }
{
    if entry.direction == Direction::Received || entry.poss_dup {
        return Verdict::Unasked;
    }
    let Some(last) = standing.last else {
        return Verdict::Unasked;
    };
    match &entry.says {
        Says::Logon { reset, .. } if *reset => Verdict::Unasked,
        Says::Logon { .. } => Verdict::held_if(last < entry.number),
        _ => Verdict::held_if(follows(last, entry.number)),
    }
}

/// Whether a gap fill before this new number is at settled numbers alone: no order below the last fence that was
/// answered is in doubt, and before the connection is up the exchange said what it has by asking for the rest.
fn is_safe_fill(standing: &Standing, number: u64, new_number: u64) -> bool
    ensures { result ≡ is_safe_fill standing.now number new_number }
{
    if new_number.saturating_sub(1) <= standing.settled {
        return true;
    }
    match standing.asked {
        Some(asked) => !standing.is_up && asked <= number,
        None => false,
    }
}

/// A gap fill is sent under an old number, says that it may have been sent before (43=Y), and stands for settled
/// numbers alone.
pub(crate) fn gap_fills(standing: &Standing, entry: &Entry<'_>) -> Verdict
    ensures { result ≡ gap_fills standing.now entry.now }
{
    match (entry.direction, &entry.says) {
        (Direction::Sent, Says::GapFill { new_number }) => Verdict::held_if(
            entry.poss_dup
                && entry.number < *new_number
                && standing.was_sent(new_number.saturating_sub(1))
                && is_safe_fill(standing, entry.number, *new_number),
        ),
        _ => Verdict::Unasked,
    }
}

/// Nothing but a Logon, or a Logout, is sent before the Logon's answer.
pub(crate) fn logon_first(standing: &Standing, entry: &Entry<'_>) -> Verdict
    ensures { result ≡ logon_first standing.now.phase entry.now.direction entry.now.says }
{
    match (entry.direction, &entry.says) {
        (Direction::Received, _) | (_, Says::Logon { .. } | Says::Logout) => Verdict::Unasked,
        _ => Verdict::held_if(standing.phase == Phase::LoggedOn),
    }
}

/// While both are logged on the session isn't silent for longer than the interval, and some time for the way. A Logon
/// begins a new connection.
pub(crate) fn heartbeats(standing: &Standing, entry: &Entry<'_>) -> Verdict
    ensures { result ≡ heartbeats standing.now entry.now }
{
    if standing.phase != Phase::LoggedOn || standing.is_logged_out {
        return Verdict::Unasked;
    }
    match (entry.direction, &entry.says) {
        (Direction::Sent, Says::Logon { .. }) => Verdict::Unasked,
        _ => Verdict::held_if(!standing.is_late(entry.moment)),
    }
}
