//! The workers of a day, each over TCP.

ghost use Rattle.std.specs.Prelude.{◌≡◌, [], length, Some, IfOk, IfErr, map};
ghost use Rattle.std.specs.List.{All};
ghost use Rattle.dressed_link.specs.Links.{dress_on, wire_over};
ghost use Rattle.desk_venues.specs.Faults.{IsNoMismatch};
ghost use Rattle.session_worker.specs.Ends.{AllRan};
ghost use Rattle.session_worker.specs.Places.{place};
ghost use Rattle.session_worker.specs.Restoring.{worker_from};
ghost use Rattle.desk_venues.specs.Addresses.{IsAt, AreAt};
ghost use Rattle.desk_venues.specs.Dresses.{AllWear, Wears, venue_dresses, worn};
ghost use Rattle.desk_venues.specs.Starts.{any_wording, workers_from};
ghost use Rattle.venue_words.specs.Dialect.{dialect_of};

use crate::day_fault::DayFault;
use crate::dresses::venue_dress;
use crate::session::desk_end;
use clock::{Clock, UtcClock};
use day_log::{LoggedLink, Recorder};
use desk_config::Venue;
use desk_floor::{Bells, Floor, VenueView};
use dressed_link::{Dress, DressedLink, Secret};
use exec_collector::Accounts;
use kept_link::Telling;
use link::{Goal, Link, Poller, Rest, TcpLink};
use release_lock::Run;
use session_worker::{Pace, Start, Worker, WorkerEnd, run_all_until};
use std::alloc::{AllocError, Global};
use std::collections::VecDeque;
use std::io::Write;
use std::net::Net;
use std::sync::Wait;
use std::thread::Threads;
use std::time;
use venue_words::VenueDialect;

/// The link of a venue's worker, whose messages are logged as the session writes them, and dressed below the log.
pub type DeskLink<'a, R> = LoggedLink<'a, R, DressedLink<TcpLink<'a, R>>, UtcClock<'a, R>>;

/// The worker of a venue.
pub type DeskWorker<'a, R, L, M, J> = Worker<
    VenueDialect,
    DeskLink<'a, R>,
    UtcClock<'a, R>,
    L,
    M,
    J,
>;

/// Links to these goals of venues, in order, each with the dress of its venue and the password at its place, and seen
/// in the view at its place. The bell of each is added to these.
pub fn new_links<'a, R: Net + Wait + time::Clock>(
    rt: &'a R,
    alloc: Global,
    venues: &[Venue],
    goals: Vec<Goal>,
    secrets: Vec<Option<Secret>>,
    views: &[VenueView],
    bells: &mut Bells,
) -> Result<Vec<DeskLink<'a, R>>, DayFault>
    requires goals { length goals.items ≡ length venues.now }
    requires secrets { length secrets.items ≡ length venues.now }
    requires views { length views.now ≡ length venues.now }
    ensures goals { IfOk result (λ links. map (λ l. l.link.link.goal) links.items ≡ goals.items) }
    ensures dresses { IfOk result (λ links. map (λ l. dress_on l.link.dresser) links.items
        ≡ map worn (venue_dresses venues.now secrets.items)) }
    ensures new { IfOk result (λ links.
        All (λ l. wire_over l.link.dresser (Some l.link.link.told.traffic) ≡ Some []) links.items) }
    ensures only { IfErr result IsNoMismatch }
{
    let mut links = Vec::new(alloc);
    let mut goals = VecDeque::from(goals);
    let mut secrets = VecDeque::from(secrets);
    for venue in venues {
        let Some(goal) = goals.pop_front() else {
            unreachable!()
        };
        let Some(secret) = secrets.pop_front() else {
            unreachable!()
        };
        let dress = venue_dress(alloc, venue, secret)?;
        let view = &views[links.len()];
        links.push(new_link(rt, alloc, goal, dress, view, bells)?)?;
    }
    Ok(links)
}

/// The workers of these venues, in order, each with the link, the start and the journal at its place, seen in its view.
/// Each link dials its venue's addresses, and puts its venue's dress on.
pub fn new_workers<'a, L: Run, M: Accounts, R: Net + Wait + time::Clock, J: Telling>(
    rt: &'a R,
    alloc: Global,
    venues: &[Venue],
    links: Vec<DeskLink<'a, R>>,
    views: &[VenueView],
    starts: Vec<Start<L, M>>,
    journals: Vec<J>,
) -> Result<Vec<DeskWorker<'a, R, L, M, J>>, DayFault>
    requires links { length links.items ≡ length venues.now }
    requires at { AreAt venues.now (map (λ l. l.link.link.goal) links.items) }
    requires dressed { AllWear venues.now (map (λ l. dress_on l.link.dresser) links.items) }
    requires new { All (λ l. wire_over l.link.dresser (Some l.link.link.told.traffic) ≡ Some []) links.items }
    requires views { length views.now ≡ length venues.now }
    requires starts { length starts.items ≡ length venues.now }
    requires journals { length journals.items ≡ length venues.now }
    ensures starts { IfOk result (λ workers. workers.items
        ≡ workers_from venues.now starts.items (map J.told journals.items)) }
    ensures only { IfErr result IsNoMismatch }
{
    let mut workers = Vec::new(alloc);
    let mut starts = VecDeque::from(starts);
    let mut journals = VecDeque::from(journals);
    let mut links = VecDeque::from(links);
    for venue in venues {
        let Some(start) = starts.pop_front() else {
            unreachable!()
        };
        let Some(journal) = journals.pop_front() else {
            unreachable!()
        };
        let Some(link) = links.pop_front() else {
            unreachable!()
        };
        let view = &views[workers.len()];
        workers.push(new_worker(rt, alloc, venue, view, link, start, journal)?)?;
    }
    Ok(workers)
}

/// The worker of a venue over a link to its addresses with its dress, with this start and journal, which tells on the
/// board of this view.
fn new_worker<'a, L: Run, M: Accounts, R: Net + Wait + time::Clock, J: Telling>(
    rt: &'a R,
    alloc: Global,
    venue: &Venue,
    view: &VenueView,
    link: DeskLink<'a, R>,
    start: Start<L, M>,
    journal: J,
) -> Result<DeskWorker<'a, R, L, M, J>, AllocError>
    requires link { wire_over link.link.dresser (Some link.link.link.told.traffic) ≡ Some [] }
    requires at { IsAt venue.now.endpoint venue.now.backups link.link.link.goal }
    requires dressed { Wears venue.now (dress_on link.link.dresser) }
    ensures { IfOk result (λ worker. worker ≡ record {
      dialect = dialect_of venue.now.words;
      parts = worker_from start (Some []) (J.told journal);
    }) }
{
    let board = view.board()?;
    let clock = UtcClock::new(rt);
    let dialect = venue.words.dialect();
    let end = desk_end(venue);
    let worker = Worker::going_on(alloc, dialect, link, journal, clock, end, start, Pace::Time);
    Ok(worker.telling_on(board).reopening(venue.session.reopen))
}

/// A link to a goal with this dress, which tells in this view why it can't be dialled, and whose bell is added to
/// these. Its messages are logged where the view has a log.
fn new_link<'a, R: Net + Wait + time::Clock>(
    rt: &'a R,
    alloc: Global,
    goal: Goal,
    dress: Dress,
    view: &VenueView,
    bells: &mut Bells,
) -> Result<DeskLink<'a, R>, DayFault>
    ensures goal { IfOk result (λ link. link.link.link.goal ≡ goal) }
    ensures dress { IfOk result (λ link. dress_on link.link.dresser ≡ worn dress) }
    ensures new { IfOk result (λ link. wire_over link.link.dresser (Some link.link.link.told.traffic) ≡ Some []) }
    ensures only { IfErr result IsNoMismatch }
{
    let last_dial = view.last_dial()?;
    let recorder = new_recorder(rt, view, bells)?;
    let Ok(poller) = Poller::new(rt, alloc) else {
        return Err(DayFault::NoSocket);
    };
    if bells.add(&poller).is_err() {
        return Err(DayFault::NoSocket);
    }
    let mut link = TcpLink::to(rt, goal, poller, Rest::Sleep);
    link.tell_on(last_dial);
    let link = DressedLink::new(alloc, link, dress);
    Ok(LoggedLink::new(link, recorder))
}

/// What counts the messages of a venue, and notes them in its log, if one is kept.
fn new_recorder<'a, R: Wait + time::Clock>(
    rt: &'a R,
    view: &VenueView,
    bells: &Bells,
) -> Result<Recorder<'a, R, UtcClock<'a, R>>, AllocError> {
    let traffic = view.shared_traffic()?;
    let clock = UtcClock::new(rt);
    let mut recorder = Recorder::new(rt, clock, traffic, view.log()?);
    recorder.tell_on(bells.shared_news()?);
    Ok(recorder)
}

/// Runs the workers until their sessions are over, or given up, or they took so many turns in which there was nothing
/// to do. Then the day closes, if it wasn't closing already.
pub fn run_workers<K, C, L, M, R, W, J>(
    rt: &R,
    alloc: Global,
    floor: &Floor<L, M, W, J>,
    workers: Vec<Worker<VenueDialect, K, C, L, M, J>>,
    turn_limit: u64,
) -> Result<Vec<WorkerEnd<K, L, M, J>>, DayFault>
where
    K: Link + Send,
    C: Clock + Drop + Send,
    L: Run + Send + Sync,
    M: Accounts + Send + Sync,
    R: Threads + Wait + Sync,
    W: Write + Drop + Send,
    J: Telling + Send,
    ensures ran { IfOk result (λ ends. AllRan any_wording workers.items ends.items) }
    ensures kept { IfOk result (λ ends. map (λ e. place e.parts) ends.items
        ≡ map (λ w. place w.parts) workers.items) }
    ensures only { IfErr result IsNoMismatch }
{
    floor.signals.workers.tell();
    let ends = run_all_until(
        rt,
        alloc,
        &floor.lock,
        &floor.collector,
        &floor.stop,
        workers,
        turn_limit,
    );
    floor.end();
    Ok(ends?)
}
