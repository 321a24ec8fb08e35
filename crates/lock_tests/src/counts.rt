//! Two workers at once, after which their seats count what the book has resolved.

ghost use Rattle.std.specs.Prelude.{◌≡◌, ◌≤◌};
ghost use Rattle.exec_collector.specs.Resolved.{OnlyOpens};

use crate::orders::sweep;
use crate::reports::{report, trade};
use agreed_list::SeatSide;
use dialect::{Note, ReportKind};
use exec_collector::{
    Accounts, BlankBook, Collector, Miscounted, Unbooked, WorkerSeat, check_count,
};
use kept_link::Untold;
use leg::{LegId, Sweep, Totals};
use report_words::ReportWords;
use share_ledger::{Applied, Book, BookFault};
use std::alloc::Global;
use std::marker::Brand;
use std::sync::Wait;
use std::test::Fail;
use std::thread::{Threads, join};

/// Opens the first sweep.
fn opens(book: &mut Book, legs: &Sweep) -> Result<(), BookFault>
    ensures { OnlyOpens book.old book.new }
{
    book.open_sweep(1, legs)
}

/// Legs of 100 shares at two venues, and one of 30 at the second.
fn opens_in<M: Accounts>(
    rt: &impl Wait,
    alloc: Global,
    collector: &Collector<M>,
    opened: &mut SeatSide<Sweep>,
) -> Result<(), Fail>
    requires { opened.old.name ≡ M.sweeps }
{
    let legs = sweep(alloc, &[(0, 100), (1, 100), (1, 30)])?;
    collector.lend(rt, opened, |book: &mut Book| opens(book, &legs))?;
    Ok(())
}

/// Two shares of a leg are traded under each of 26 ids, each report comes twice, and the order ends; each note with the
/// answer that is wanted.
fn notes(alloc: Global, place: u8) -> Result<Vec<(Note, Applied)>, Fail>
    requires low { 1 ≤ place }
    requires high { place ≤ 32 }
{
    let mut notes = Vec::new(alloc);
    for letter in b'a'..=b'z' {
        for answer in [Applied::Moved, Applied::Duplicate] {
            notes.push((trade(place, &[letter], 2)?, answer))?;
        }
    }
    notes.push((report(place, b"E", ReportKind::Canceled)?, Applied::Moved))?;
    Ok(notes)
}

/// Applies notes of a seat's venue, and says whether each was answered as wanted.
fn work<M: Accounts>(
    rt: &impl Wait,
    collector: &Collector<M>,
    notes: &[(Note, Applied)],
    seat: &mut WorkerSeat<M>,
) -> bool {
    let words = ReportWords::none();
    let mut as_wanted = true;
    for (note, wanted) in notes {
        as_wanted &= collector.apply(rt, note, &words, seat) == Ok(*wanted);
    }
    as_wanted
}

/// Both workers in threads. Whether each note was answered as wanted.
fn both_work<M: Accounts + Send + Sync, R: Threads + Wait + Sync>(
    rt: &R,
    alloc: Global,
    collector: &Collector<M>,
    first: &mut WorkerSeat<M>,
    second: &mut WorkerSeat<M>,
) -> Result<(bool, bool), Fail> {
    let (ones, others) = (notes(alloc, 1)?, notes(alloc, 2)?);
    Ok(join(
        rt,
        || work(rt, collector, ones.as_slice(), first),
        || work(rt, collector, others.as_slice(), second),
    ))
}

/// What is seen of the workers' day.
#[derive(Clone, Copy, Debug, PartialEq, Eq)]
struct Seen {
    /// Whether each note was answered as wanted.
    as_wanted: (bool, bool),
    /// What each seat counts.
    seats: (u64, u64),
    /// The sweep's totals, the shares that the book has resolved, its entries, and the notes that it didn't take.
    totals: Option<Totals>,
    resolved: u64,
    entries: usize,
    unbooked: usize,
    /// What is compared at the end.
    checked: Result<u64, Miscounted>,
}

/// Two workers in threads, and a withdrawal by the second.
fn two_workers<M: Accounts + Send + Sync, R: Threads + Wait + Sync>(
    rt: &R,
    alloc: Global,
    blank: BlankBook,
) -> Result<Seen, Fail>
    requires name { blank.name ≡ M.name }
    requires parts { (blank.parts ≡ M.parts) × (M.parts ≡ 2) }
    requires lists { (blank.lists ≡ M.lists) × (blank.sweeps ≡ M.sweeps) }
{
    let (collector, mut seats, mut opened) = Collector::<M>::new(alloc, 2, blank)?;
    opens_in(rt, alloc, &collector, &mut opened)?;
    let mut second = seats.pop().ok_or("a seat")?;
    let mut first = seats.pop().ok_or("a seat")?;
    let as_wanted = both_work(rt, alloc, &collector, &mut first, &mut second)?;
    collector.withdraw(rt, LegId::new(1, 3), &mut second, &Untold)?;
    let counted = (first.shares(), second.shares());
    seats.push(first)?;
    seats.push(second)?;
    let totals = collector.totals(rt, 1);
    let resolved = collector.resolved(rt);
    let (entries, unbooked) = collector.read_all(rt, |book: &Book, unbooked: &[Unbooked]| {
        (book.history().len(), unbooked.len())
    });
    Ok(Seen {
        as_wanted,
        seats: counted,
        totals,
        resolved,
        entries,
        unbooked,
        checked: check_count(&mut collector.into_counted(), seats),
    })
}

#[test]
fn the_seats_count_what_is_resolved(rt: HostRuntime) -> Result<(), Fail> {
    let seen = two_workers::<Brand, HostRuntime>(&rt, rt.alloc(), BlankBook::new(rt.alloc(), 2)?)?;
    let totals = Totals {
        filled: 104,
        busted: 0,
        cancelled: 96,
        withdrawn: 30,
        still_open: 0,
    };
    let wanted = Seen {
        as_wanted: (true, true),
        seats: (100, 130),
        totals: Some(totals),
        resolved: 230,
        // The sweep, 26 trades and an end at each venue, and the withdrawal.
        entries: 56,
        // 26 trades of each venue came twice.
        unbooked: 52,
        checked: Ok(230),
    };
    assert_eq!(rt; seen, wanted);
    Ok(())
}
