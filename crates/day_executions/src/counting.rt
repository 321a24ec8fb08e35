//! How many notes of a venue the book didn't take.

ghost use Rattle.std.specs.Prelude.{◌≡◌};
ghost use Rattle.day_executions.specs.Counts.{AreCounts, AreCountsOf, is_for, is_same, untaken_count};

use desk_executions::{UnbookedCounts, Untaken, why_untaken};
use exec_collector::{Accounts, Collector, Unbooked};
use share_ledger::Book;
use std::sync::Wait;

fn is_same(one: Untaken, other: Untaken) -> bool
    ensures { result ≡ is_same one other }
{
    match (one, other) {
        (Untaken::Duplicate, Untaken::Duplicate) => true,
        (Untaken::Overfill, Untaken::Overfill) => true,
        (Untaken::Stray, Untaken::Stray) => true,
        (Untaken::Unread, Untaken::Unread) => true,
        _ => false,
    }
}

/// Whether a note of the venue at a place wasn't taken for this reason.
fn is_for(item: &Unbooked, place: usize, why: Untaken) -> bool
    ensures { result ≡ is_for place why item.now }
{
    if usize::from(item.venue.number()) != place {
        return false;
    }
    match why_untaken(&item.note, item.answer) {
        Some(other) => is_same(why, other),
        None => false,
    }
}

/// How many notes of the venue at a place weren't taken for this reason.
fn untaken_count(unbooked: &[Unbooked], place: usize, why: Untaken) -> u64
    ensures { result ≡ untaken_count place why unbooked.now }
{
    let mut count: u64 = 0;
    for item in unbooked {
        if is_for(item, place, why) {
            count += 1;
        }
    }
    count
}

/// How many notes of the venue at a place weren't taken, by the reason.
fn counts_of(unbooked: &[Unbooked], place: usize) -> UnbookedCounts
    ensures { AreCountsOf place unbooked.now result }
{
    UnbookedCounts {
        duplicates: untaken_count(unbooked, place, Untaken::Duplicate),
        overfills: untaken_count(unbooked, place, Untaken::Overfill),
        strays: untaken_count(unbooked, place, Untaken::Stray),
        unread: untaken_count(unbooked, place, Untaken::Unread),
    }
}

/// How many notes of the venue at a place the book didn't take until now, by the reason. It may wait for the book's
/// lock.
pub fn unbooked_now<M: Accounts>(
    rt: &impl Wait,
    collector: &Collector<M>,
    place: usize,
) -> UnbookedCounts
    ensures { AreCounts place result }
{
    collector.read_all(
        rt,
        |_: &Book, unbooked: &[Unbooked]| -> UnbookedCounts
            ensures { AreCountsOf place unbooked.now result }
        { counts_of(unbooked, place) },
    )
}
