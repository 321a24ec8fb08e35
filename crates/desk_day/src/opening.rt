//! A day before its threads run.

ghost use Rattle.std.specs.Prelude.{◌≡◌, ◌+◌, ◌<◌, ◌≤◌, ◌⊎◌, ◌==◌, ◌||◌, [], false, not, length, map, None, IsTrue, IfOk, IfErr};
ghost use Rattle.std.specs.List.{All};
ghost use Rattle.exec_collector.specs.Seats.{worker_seats};
ghost use Rattle.release_lock.specs.Noted.{IsNoted};
ghost use Rattle.release_lock.specs.Queues.{IsFresh, new_drains};
ghost use Rattle.release_lock.specs.Seats.{first_seat};
ghost use Rattle.desk_venues.specs.Faults.{IsNoMismatch};
ghost use Rattle.desk_venues.specs.Starts.{workers_from};
ghost use Rattle.desk_venues.specs.Venues.{plans};
ghost use Rattle.desk_day.specs.Opening.{new_starts};
ghost use Rattle.desk_day.specs.Seats.{shared_parts};

use change_count::Stop;
use clock::UtcClock;
use desk_config::Venue;
use desk_floor::{
    Bells, Counter, Floor, HaltMark, JournalWatch, Manner, Refs, Refusals, Signals, Voice,
};
use desk_serve::{Cast, PageServer};
use desk_venues::{
    DayFault, DeskLink, Exchange, LogFolder, OpenVenues, Sight, desk_end, open_venues,
};
use dressed_link::Secret;
use exec_collector::{Accounts, BlankBook, Collector, WorkerSeat};
use kept_link::{Telling, Untold};
use order_limits::OrderLimits;
use readiness::Wakeup;
use release_lock::{BlankDesk, CallerSeat, LockedDesk, OpenedDesk, ReleaseLock, Run, VenueDrain};
use session_worker::Start;
use std::alloc::{AllocError, Global};
use std::collections::VecDeque;
use std::fs::{File, Files};
use std::io::{self, Write};
use std::net::Net;
use std::sync::{Arc, Mutex, Wait};
use std::time::Clock;
use venue_queue::{Drain, Feed};

/// With what a day is held.
#[derive(Drop)]
pub struct Means<'a, W: Write + Drop> {
    pub manner: Manner,
    /// What its orders may have at most.
    pub limits: OrderLimits,
    /// The folder of its logs, if it keeps any.
    pub folder: Option<LogFolder<'a>>,
    pub voice: Voice<W>,
    /// The password of each venue, if it has one, in order.
    pub secrets: Vec<Option<Secret>>,
    /// What serves its page; none where it has none.
    pub servers: Vec<PageServer>,
    /// Whether clients send lines beside the standard input.
    pub listens: bool,
    /// The message behind which the exchange of the first venue, if it is simulated, cuts its connection, counted from
    /// 1 over all that it reads. It does so once, and at 0 never.
    pub cut: u64,
}

/// Who takes part in the day of a desk.
pub type DeskCast<'a, R, L, M, J> = Cast<
    Exchange<'a, R>,
    DeskLink<'a, R>,
    UtcClock<'a, R>,
    L,
    M,
    J,
>;

/// A desk, a book behind its lock, the seat of the callers, and what each venue's worker begins with, in order.
#[derive(Drop)]
pub struct BegunDay<L: Run, M: Accounts> {
    pub desk: LockedDesk<L>,
    pub collector: Collector<M>,
    pub seat: CallerSeat<L>,
    pub starts: Vec<Start<L, M>>,
    ghost tied: { L.sweeps ≡ M.sweeps },
}

/// What a day goes on with beside its desk and its book: the sweeps under references, and the shares that were placed;
/// and the journals that it tells, of the desk and of each venue.
#[derive(Drop)]
pub struct Past<J: Telling> {
    pub refs: Refs,
    pub shares: u64,
    pub desk: J,
    pub venues: Vec<J>,
    /// Whether each of them is written.
    pub watched: Vec<JournalWatch>,
    /// What tells whether the desk was halted, beside the journals.
    pub halt_mark: Option<HaltMark>,
}

impl Past<Untold> {
    /// None, of a day of so many venues that keeps no journal.
    pub fn none(alloc: Global, venues: usize) -> Result<Past<Untold>, AllocError>
        ensures { IfOk result (λ past. length past.venues.items ≡ venues) }
    {
        let mut journals = Vec::new(alloc);
        for _ in 0..venues {
            journals.push(Untold)?;
        }
        Ok(Past {
            refs: Refs::new(alloc),
            shares: 0,
            desk: Untold,
            venues: journals,
            watched: Vec::new(alloc),
            halt_mark: None,
        })
    }
}

/// Begins the day of these venues, whose names were picked: the desk, the book behind its lock, the seat of its
/// callers, and what each worker begins with, which has done nothing.
pub fn begin_day<L: Run, M: Accounts>(
    alloc: Global,
    venues: &[Venue],
    callers: BlankDesk,
    workers: BlankBook,
    rings: VecDeque<(Feed, Drain)>,
) -> Result<BegunDay<L, M>, DayFault>
    requires venues { (1 ≤ length venues.now) × (length venues.now ≤ 16) }
    requires callers { (callers.name ≡ L.name) × (callers.parts ≡ L.parts) × (L.parts ≡ 1024)
        × (callers.slips ≡ L.slips) }
    requires workers { (workers.name ≡ M.name) × (workers.parts ≡ M.parts) × (M.parts ≡ length venues.now) }
    requires lists { (workers.lists ≡ M.lists) × (workers.sweeps ≡ M.sweeps) }
    requires tied { L.sweeps ≡ M.sweeps }
    requires rings { (length rings.items ≡ length venues.now) × All IsFresh rings.items }
    requires queues { L.queues ≡ map (λ ends. ends.0.table) rings.items }
    ensures starts { IfOk result (λ day. day.starts.items ≡ new_starts venues.now) }
    ensures desk { IfOk result (λ day. day.desk.desk.sweeps ≡ []) }
    ensures seat { IfOk result (λ day. day.seat ≡ first_seat) }
    ensures only { IfErr result IsNoMismatch }
{
    let count = venues.len() as u8;
    let made = Collector::<M>::new(alloc, count, workers);
    let Ok((collector, seats, sweeps)) = made else {
        return Err(DayFault::OutOfMemory);
    };
    let opened = LockedDesk::<L>::opened(alloc, count, callers, rings, sweeps);
    let Ok(OpenedDesk { desk, seat, drains }) = opened else {
        return Err(DayFault::OutOfMemory);
    };
    let starts = new_starts(alloc, venues, drains, seats)?;
    Ok(BegunDay {
        desk,
        collector,
        seat,
        starts,
    })
}

/// What the workers of these venues begin with, each with the drain and the seat at its place.
fn new_starts<L: Run, M: Accounts>(
    alloc: Global,
    venues: &[Venue],
    drains: Vec<VenueDrain<L>>,
    seats: Vec<WorkerSeat<M>>,
) -> Result<Vec<Start<L, M>>, AllocError>
    requires drains { drains.items ≡ new_drains (length venues.now) }
    requires seats { seats.items ≡ worker_seats (length venues.now) }
    ensures { IfOk result (λ starts. starts.items ≡ new_starts venues.now) }
{
    let mut starts = Vec::new(alloc);
    let mut drains = VecDeque::from(drains);
    let mut seats = VecDeque::from(seats);
    for venue in venues {
        let Some(drain) = drains.pop_front() else {
            unreachable!()
        };
        let Some(seat) = seats.pop_front() else {
            unreachable!()
        };
        starts.push(Start::new(alloc, desk_end(venue), drain, seat))?;
    }
    Ok(starts)
}

/// A day before its threads run.
#[derive(Drop)]
pub struct OpenDay<'a, L: Run, M: Accounts, R: Net + Wait + Clock, W: Write + Drop, J: Telling> {
    pub floor: Floor<L, M, W, J>,
    pub cast: DeskCast<'a, R, L, M, J>,
    /// The seat of its callers.
    pub seat: CallerSeat<L>,
}

/// Opens the day of these venues, that was begun: each venue with its worker, which begins as is said at its place; and
/// the seat of its callers. The desk and each worker tell their journals, and sweeps are judged by the limits given. No
/// thread runs, and none has dialled.
pub fn open_day<'a, L, M, R, W, J>(
    rt: &'a R,
    alloc: Global,
    venues: &[Venue],
    means: Means<'_, W>,
    begun: BegunDay<L, M>,
    past: Past<J>,
) -> Result<OpenDay<'a, L, M, R, W, J>, DayFault>
where
    L: Run,
    M: Accounts,
    R: Net + Files<File = File> + Wait + Clock,
    W: Write + Drop,
    J: Telling,
    requires venues { length venues.now ≤ 16 }
    requires secrets { length means.secrets.items ≡ length venues.now }
    requires starts { length begun.starts.items ≡ length venues.now }
    requires journals { length past.venues.items ≡ length venues.now }
    requires noted { IsNoted begun.desk (J.told past.desk) }
    requires seat { begun.seat.parts ≡ 1024 }
    ensures plans { IfOk result (λ day. map (λ e. e.acceptor.plan) day.cast.exchanges.items
        ≡ plans means.entry.cut venues.now) }
    ensures starts { IfOk result (λ day. day.cast.workers.items
        ≡ workers_from venues.now begun.starts.items (map J.told past.venues.items)) }
    ensures names { IfOk result (λ day. day.floor.names.items ≡ map (λ v. v.name) venues.now) }
    ensures limits { IfOk result (λ day. day.floor.limits ≡ means.entry.limits) }
    ensures seat { IfOk result (λ day. (day.seat.shares ≡ begun.seat.shares)
        × (day.seat.parts + shared_parts day.floor.shared ≡ 1024)) }
    ensures page { IfOk result (λ day. means.entry.servers.items ≡ [] → means.entry.listens ≡ false
        → day.floor.shared ≡ None) }
    ensures only { IfErr result IsNoMismatch }
{
    let Means {
        manner,
        limits,
        folder,
        voice,
        secrets,
        servers,
        listens,
        cut,
    } = means;
    let BegunDay {
        desk,
        collector,
        seat,
        starts,
    } = begun;
    let Past {
        refs,
        shares,
        desk: journal,
        venues: journals,
        watched,
        halt_mark,
    } = past;
    let OpenVenues {
        sight,
        exchanges,
        workers,
        mut bells,
    } = open_venues(rt, alloc, venues, cut, folder, secrets, starts, journals)?;
    let Sight {
        names,
        views,
        line_log,
        writers,
    } = sight;
    if let Some(server) = servers.first() {
        add_taker(&mut bells, server.wakeup())?;
    }
    let mut seat = seat;
    let shared = shared_seat(&mut seat, has_clients(listens, servers.as_slice()));
    let signals = Signals::new();
    signals.count_placed(shares);
    let floor = Floor {
        names,
        views,
        manner,
        lock: lock_again(rt, alloc, desk.noting_in(journal), &halt_mark)?,
        collector,
        shared,
        limits,
        turn: Mutex::new(()),
        refs: Mutex::new(refs),
        journals: watched,
        refusals: Refusals::new(alloc),
        voice,
        line_log,
        signals,
        bells,
        stop: Stop::new(),
        halt_mark,
    };
    let cast = Cast {
        exchanges,
        workers,
        servers,
        writers,
    };
    Ok(OpenDay { floor, cast, seat })
}

/// The desk behind its lock, halted if it was in the life before, or if that can't be told.
fn lock_again<L: Run, J: Telling>(
    rt: &impl Wait,
    alloc: Global,
    desk: LockedDesk<L, J>,
    halt_mark: &Option<HaltMark>,
) -> Result<ReleaseLock<L, J>, AllocError> {
    let lock = ReleaseLock::of_locked(alloc, desk)?;
    if let Some(mark) = halt_mark {
        if mark.is_set().unwrap_or(true) {
            lock.halt(rt);
        }
    }
    Ok(lock)
}

/// Adds what ends the wait of who takes input: the caller for lines, or servers for clients.
pub fn add_taker(bells: &mut Bells, wakeup: io::Result<Arc<Wakeup, Global>>) -> Result<(), DayFault>
    ensures { IfErr result IsNoMismatch }
{
    match wakeup {
        Ok(wakeup) => bells.add_taker(wakeup)?,
        Err(_) => return Err(DayFault::OutOfMemory),
    }
    Ok(())
}

/// Whether clients may come: those of these servers of the page, or those that send lines.
fn has_clients(listens: bool, servers: &[PageServer]) -> bool
    ensures { result ≡ (listens || not (length servers.now == 0)) }
{
    listens || !servers.is_empty()
}

/// The seat that clients share, of the page and of lines, split off from the first seat, if there may be any.
fn shared_seat<L: Run>(seat: &mut CallerSeat<L>, has_clients: bool) -> Option<Mutex<Counter<L>>>
    requires { seat.old.parts ≡ 1024 }
    ensures parts { seat.new.parts + shared_parts result ≡ 1024 }
    ensures shares { seat.new.shares ≡ seat.old.shares }
    ensures page { result ≡ None ⊎ IsTrue has_clients }
{
    if !has_clients {
        return None;
    }
    let shared = seat.split().unwrap();
    Some(Mutex::new(Counter::new(shared)))
}
