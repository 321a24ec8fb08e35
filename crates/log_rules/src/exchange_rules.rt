//! The rules of the exchange that need no order.

ghost use Rattle.std.specs.Prelude.{◌≡◌};
ghost use Rattle.log_rules.specs.ExchangeRules.{fence_answered, is_new, is_next_upto, is_range, logon_answered};
ghost use Rattle.log_rules.specs.ExchangeRules.{logout_last, nothing_is_awaited, numbers_rise, resend_answered};
ghost use Rattle.log_rules.specs.ExchangeRules.{resend_asked};

use crate::entry::Entry;
use crate::says::Says;
use crate::standing::{Phase, Standing};
use crate::verdict::Verdict;
use message_log::Direction;

/// The first message of a connection is a Logon that answers the session's, and no other Logon comes; a Logout may
/// refuse it. It resets the numbers only where the session's does.
pub(crate) fn logon_answered(standing: &Standing, entry: &Entry<'_>) -> Verdict
    ensures { result ≡ logon_answered standing.now entry.now.direction entry.now.says }
{
    match (entry.direction, &entry.says) {
        (Direction::Sent, _) | (_, Says::Logout) => Verdict::Unasked,
        (_, Says::Logon { reset, .. }) => Verdict::held_if(
            standing.phase == Phase::LoggingOn && (!*reset || standing.resets),
        ),
        _ => Verdict::held_if(standing.phase == Phase::LoggedOn),
    }
}

/// Behind its Logout the exchange sends nothing new in the connection, but what is asked for again.
pub(crate) fn logout_last(standing: &Standing, entry: &Entry<'_>) -> Verdict
    ensures { result ≡ logout_last standing.now entry.now }
{
    match (entry.direction, &entry.says) {
        (Direction::Sent, _) | (_, Says::Logon { .. } | Says::GapFill { .. }) => Verdict::Unasked,
        _ if entry.poss_dup => Verdict::Unasked,
        _ => Verdict::held_if(!standing.is_peer_out),
    }
}

/// Whether a message has to have a new number.
fn is_new(says: &Says<'_>, number: u64, poss_dup: bool) -> bool
    ensures { result ≡ is_new says.now number poss_dup }
{
    match says {
        Says::Logon { reset, .. } => !(*reset && number == 1) && !poss_dup,
        Says::GapFill { .. } | Says::Reset { .. } => false,
        _ => !poss_dup,
    }
}

/// A new message of the exchange has a number above each that came.
pub(crate) fn numbers_rise(standing: &Standing, entry: &Entry<'_>) -> Verdict
    ensures { result ≡ numbers_rise standing.now entry.now }
{
    if entry.direction == Direction::Received && is_new(&entry.says, entry.number, entry.poss_dup) {
        return Verdict::held_if(standing.seen < entry.number);
    }
    Verdict::Unasked
}

/// Whether a resend request is for a range of numbers: to its last one, or to the end.
fn is_range(begin: u64, last: u64) -> bool
    ensures { result ≡ is_range begin last }
{
    0 < begin && (last == 0 || begin <= last)
}

/// Whether a number was sent, or is the one after the last.
fn is_next_upto(last: Option<u64>, number: u64) -> bool
    ensures { result ≡ is_next_upto last number }
{
    match last {
        Some(last) => number <= last || number - last == 1,
        None => false,
    }
}

/// A resend request, and what a Logon says is expected next, begins with a number that was sent, and that the exchange
/// isn't known to have passed. One that came before isn't asked about again.
pub(crate) fn resend_asked(standing: &Standing, entry: &Entry<'_>) -> Verdict
    ensures { result ≡ resend_asked standing.now entry.now }
{
    if entry.number <= standing.seen {
        return Verdict::Unasked;
    }
    match (entry.direction, &entry.says) {
        (Direction::Received, Says::ResendRequest { begin, last }) => Verdict::held_if(
            is_range(*begin, *last) && standing.passed < *begin && standing.was_sent(*begin),
        ),
        (
            Direction::Received,
            Says::Logon {
                next: Some(next),
                ..
            },
        ) if standing.says_next => Verdict::held_if(
            standing.passed < *next && is_next_upto(standing.last, *next),
        ),
        _ => Verdict::Unasked,
    }
}

/// Whether nothing below this number is asked for again.
fn nothing_is_awaited(awaited: Option<u64>, number: u64) -> bool
    ensures { result ≡ nothing_is_awaited awaited number }
{
    match awaited {
        Some(begin) => number < begin,
        None => true,
    }
}

/// A fence is answered once it was sent, and nothing below it is asked for again. One of an older connection isn't
/// asked about, nor an answer that came before.
pub(crate) fn fence_answered(standing: &Standing, entry: &Entry<'_>) -> Verdict
    ensures { result ≡ fence_answered standing.now entry.now }
{
    if entry.number <= standing.seen {
        return Verdict::Unasked;
    }
    match (entry.direction, &entry.says) {
        (Direction::Received, Says::Answer { fence }) if standing.logon < *fence => {
            Verdict::held_if(
                standing.was_sent(*fence) && nothing_is_awaited(standing.awaited, *fence),
            )
        }
        _ => Verdict::Unasked,
    }
}

/// The exchange answers a resend request of the session, and doesn't log out before it did.
pub(crate) fn resend_answered(standing: &Standing, entry: &Entry<'_>) -> Verdict
    ensures { result ≡ resend_answered standing.now entry.now }
{
    let Some(request) = standing.request else {
        return Verdict::Unasked;
    };
    match (entry.direction, &entry.says) {
        (Direction::Sent, _) => Verdict::Unasked,
        _ if entry.number <= request.begin => Verdict::Held,
        (_, Says::Logout) => Verdict::Broken,
        _ => Verdict::Unasked,
    }
}
