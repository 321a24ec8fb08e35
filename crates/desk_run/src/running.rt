//! A day whose sweeps come by lines, from its rings to its audit.

ghost use Rattle.std.specs.Prelude.{◌≡◌, ◌+◌, ◌<◌, ◌≤◌, length, map, is_some, true, None, IfOk, IfErr};
ghost use Rattle.std.specs.List.{All};
ghost use Rattle.release_lock.specs.Noted.{IsNoted};
ghost use Rattle.release_lock.specs.Queues.{IsFresh};
ghost use Rattle.desk_config.specs.Apart.{AreVenues};
ghost use Rattle.desk_venues.specs.Faults.{IsNoMismatch};
ghost use Rattle.desk_venues.specs.Starts.{any_wording, starts_of, workers_from};
ghost use Rattle.session_worker.specs.Ends.{AllRan};
ghost use Rattle.session_worker.specs.Places.{place, new_places};
ghost use Rattle.desk_day.specs.Audited.{AreBegun};
ghost use Rattle.desk_day.specs.Seats.{shared_parts};
ghost use Rattle.desk_day.specs.Told.{AllSay, IsToldDay, IsToldFrom, IsToldKept, IsToldOver};

use crate::going_on::{open_files, past_of, restored};
use clock::Clock;
use day_restart::{JournalNames, Restored};
use desk_config::{Day, DeskConfig, Durable, TokenText};
use desk_day::{
    BegunDay, DeskDay, Means, OpenDay, Past, add_taker, begin_day, close_day, open_day,
};
use desk_doors::{LineDoors, LineHall, close_lines, day_limits, open_lines, open_pages};
use desk_floor::{Bells, Floor, Manner, Voice};
use desk_lines::{LineServer, take_all_lines};
use desk_serve::{Cast, Ended};
use desk_talk::{Callers, DeskInput, InputLines, LinesEnd, say_halted};
use desk_threads::in_threads;
use desk_venues::{DayFault, LogFolder, Serve, check_new_logs};
use dressed_link::Secret;
use exec_collector::{Accounts, BlankBook};
use json_lines::Form;
use kept_link::Telling;
use link::Link;
use release_lock::{BlankDesk, CallerSeat, Run, rings};
use std::alloc::Global;
use std::collections::VecDeque;
use std::fs::{File, Files};
use std::io::{Read, Write};
use std::marker::Brand;
use std::net::{Net, TcpListener, TcpStream};
use std::sync::Wait;
use std::thread::{Threads, join};
use std::time;
use venue_queue::{Drain, Feed};

/// Where a day's journals are, and what they outlive.
#[derive(Clone, Copy, Debug)]
pub struct JournalAt<'a> {
    pub folder: &'a str,
    pub durable: Durable,
    /// The day that they are of.
    pub day: Day,
}

/// How a day is asked for.
#[derive(Clone, Copy, Debug)]
pub struct DayOptions<'a> {
    pub manner: Manner,
    /// How the lines of its output are written.
    pub form: Form,
    /// The folder of its logs, if it keeps any.
    pub folder: Option<&'a str>,
    /// Its journals, if it keeps any.
    pub journal: Option<JournalAt<'a>>,
    /// The tokens of its users, by their places.
    pub tokens: &'a [TokenText],
    /// The path of the Unix socket on which lines are taken, if they are.
    pub socket: Option<&'a str>,
}

/// Runs the day of a configuration, with the password of each venue that has one, and audits it. The lines of the input
/// are taken by one caller, in order, and answered on `out`, where changes are told too; those of clients over TCP and
/// a Unix socket, if they are asked for, each on its own connection. The page, if it is asked for, is served from
/// before the first dial on. It closes with the end of the input, or at `close`, by a line or by the page: then it
/// waits until no share is open, as long as the patience goes, the gates are shut, what is placed and unsent is
/// withdrawn, and the sessions log out. A session that isn't over ten seconds later, or at a second `close`, is given
/// up. Where a folder is named the messages of each venue and the lines are logged there, in files that aren't there
/// yet; they are begun once each exchange's address is known. Where journals are kept the day goes on with them, if
/// there are lines in them, and says so; at its end it is written there that it ended. Once a file of a journal is
/// there, the logs go on too.
pub fn run_day<R, I, W>(
    rt: &R,
    alloc: Global,
    config: &DeskConfig,
    options: DayOptions<'_>,
    secrets: Vec<Option<Secret>>,
    input: DeskInput<I>,
    out: W,
) -> Result<DeskDay, DayFault>
where
    R: Net<Listener = TcpListener, Stream = TcpStream>
        + Files<File = File>
        + Threads
        + Wait
        + time::Clock
        + Sync,
    R::Dir: Send,
    I: Read + Drop,
    W: Write + Drop + Send,
    requires venues { AreVenues config.now.venues.items }
    requires secrets { length secrets.items ≡ length config.now.venues.items }
    ensures day { IfOk result (IsToldOver config.now.venues.items) }
    ensures new { options.entry.journal ≡ None → IfOk result (IsToldDay config.now.venues.items) }
    ensures kept { is_some options.entry.journal ≡ true → IfOk result (IsToldKept config.now.venues.items) }
    ensures only { IfErr result IsNoMismatch }
{
    let venues = config.venues.as_slice();
    let count = venues.len() as u8;
    let rings = rings(alloc, count)?;
    let Ok(lines) = InputLines::new(rt, alloc, input) else {
        return Err(DayFault::NoSocket);
    };
    let callers = BlankDesk::new(1024);
    let Ok(workers) = BlankBook::new(alloc, count) else {
        return Err(DayFault::OutOfMemory);
    };
    named_day::<Brand, Brand, R, I, W>(
        rt, alloc, config, options, secrets, out, lines, callers, workers, rings,
    )
}

/// A day whose names were picked: with its journals, or without any.
fn named_day<L, M, R, I, W>(
    rt: &R,
    alloc: Global,
    config: &DeskConfig,
    options: DayOptions<'_>,
    secrets: Vec<Option<Secret>>,
    out: W,
    lines: InputLines<I>,
    callers: BlankDesk,
    workers: BlankBook,
    rings: VecDeque<(Feed, Drain)>,
) -> Result<DeskDay, DayFault>
where
    L: Run + Send + Sync,
    M: Accounts + Send + Sync,
    R: Net<Listener = TcpListener, Stream = TcpStream>
        + Files<File = File>
        + Threads
        + Wait
        + time::Clock
        + Sync,
    R::Dir: Send,
    I: Read + Drop,
    W: Write + Drop + Send,
    requires venues { (1 ≤ length config.now.venues.items) × (length config.now.venues.items ≤ 16) }
    requires secrets { length secrets.items ≡ length config.now.venues.items }
    requires callers { (callers.name ≡ L.name) × (callers.parts ≡ L.parts) × (L.parts ≡ 1024)
        × (callers.slips ≡ L.slips) }
    requires workers { (workers.name ≡ M.name) × (workers.parts ≡ M.parts)
        × (M.parts ≡ length config.now.venues.items) }
    requires lists { (workers.lists ≡ M.lists) × (workers.sweeps ≡ M.sweeps) }
    requires tied { L.sweeps ≡ M.sweeps }
    requires rings { (length rings.items ≡ length config.now.venues.items) × All IsFresh rings.items }
    requires queues { L.queues ≡ map (λ ends. ends.0.table) rings.items }
    ensures day { IfOk result (IsToldOver config.now.venues.items) }
    ensures new { options.entry.journal ≡ None → IfOk result (IsToldDay config.now.venues.items) }
    ensures kept { is_some options.entry.journal ≡ true → IfOk result (IsToldKept config.now.venues.items) }
    ensures only { IfErr result IsNoMismatch }
{
    let venues = config.venues.as_slice();
    let begun = begin_day::<L, M>(alloc, venues, callers, workers, rings)?;
    match options.journal {
        None => {
            let past = Past::none(alloc, venues.len())?;
            held_day(
                rt, alloc, config, options, secrets, false, None, out, lines, begun, past,
            )
        }
        Some(at) => {
            let names = JournalNames::new(alloc, at.day, venues)?;
            let files = open_files(rt, alloc, at, &names, venues)?;
            if files.are_none() {
                check_new_logs(rt, alloc, options.folder, venues)?;
            }
            let is_new = files.is_new();
            let (begun, again) = restored(rt, alloc, at, venues, &files, begun)?;
            let past = past_of(
                rt,
                alloc,
                at,
                &names,
                venues,
                &files,
                again.refs,
                again.shares,
            )?;
            let told = if is_new { None } else { Some(again.told) };
            held_day(
                rt, alloc, config, options, secrets, true, told, out, lines, begun, past,
            )
        }
    }
}

/// A day is held that was begun, from its opening to its audit. One that goes on says with what.
fn held_day<L, M, R, I, W, J>(
    rt: &R,
    alloc: Global,
    config: &DeskConfig,
    options: DayOptions<'_>,
    secrets: Vec<Option<Secret>>,
    goes_on: bool,
    told: Option<Restored>,
    out: W,
    lines: InputLines<I>,
    begun: BegunDay<L, M>,
    past: Past<J>,
) -> Result<DeskDay, DayFault>
where
    L: Run + Send + Sync,
    M: Accounts + Send + Sync,
    R: Net<Listener = TcpListener, Stream = TcpStream>
        + Files<File = File>
        + Threads
        + Wait
        + time::Clock
        + Sync,
    I: Read + Drop,
    W: Write + Drop + Send,
    J: Telling + Send,
    requires venues { (1 ≤ length config.now.venues.items) × (length config.now.venues.items ≤ 16) }
    requires secrets { length secrets.items ≡ length config.now.venues.items }
    requires workers { M.parts ≡ length config.now.venues.items }
    requires starts { length begun.starts.items ≡ length config.now.venues.items }
    requires journals { length past.venues.items ≡ length config.now.venues.items }
    requires noted { IsNoted begun.desk (J.told past.desk) }
    requires seat { begun.seat.parts ≡ 1024 }
    requires begun { AreBegun 0 config.now.venues.items
        (workers_from config.now.venues.items begun.starts.items (map J.told past.venues.items)) }
    ensures day { IfOk result (IsToldOver config.now.venues.items) }
    ensures new { workers_from config.now.venues.items begun.starts.items (map J.told past.venues.items)
        ≡ starts_of config.now.venues.items → IfOk result (IsToldDay config.now.venues.items) }
    ensures kept { AllSay (map J.told past.venues.items) → IfOk result (IsToldKept config.now.venues.items) }
    ensures only { IfErr result IsNoMismatch }
{
    let DayOptions {
        manner,
        form,
        folder,
        journal: _,
        tokens,
        socket,
    } = options;
    let doors = LineDoors {
        config,
        socket,
        tokens,
        form,
    };
    let hall = open_lines(rt, alloc, doors)?;
    let means = Means {
        manner,
        limits: day_limits(alloc, config)?,
        folder: folder.map(|path| LogFolder { path, goes_on }),
        voice: Voice::new(alloc, form, out),
        secrets,
        servers: open_pages(rt, alloc, config, tokens)?,
        listens: !hall.servers.is_empty(),
        cut: 0,
    };
    let venues = config.venues.as_slice();
    let day = open_day::<L, M, R, W, J>(rt, alloc, venues, means, begun, past)?;
    let OpenDay { floor, cast, seat } = day;
    run_open(rt, alloc, floor, cast, hall, seat, told, lines)
}

/// Runs a day that is open, from the lines of this input and of the clients of these servers to its audit. One that
/// goes on says with what.
fn run_open<X, K, C, L, M, W, J, I, R>(
    rt: &R,
    alloc: Global,
    floor: Floor<L, M, W, J>,
    cast: Cast<X, K, C, L, M, J>,
    hall: LineHall<'_>,
    seat: CallerSeat<L>,
    told: Option<Restored>,
    lines: InputLines<I>,
) -> Result<DeskDay, DayFault>
where
    X: Serve + Drop + Send,
    K: Link + Send,
    C: Clock + Drop + Send,
    L: Run + Send + Sync,
    M: Accounts + Send + Sync,
    W: Write + Drop + Send,
    J: Telling + Send,
    I: Read + Drop,
    R: Net<Listener = TcpListener, Stream = TcpStream>
        + Files<File = File>
        + Threads
        + Wait
        + time::Clock
        + Sync,
    requires workers { map (λ w. place w.parts) cast.workers.items ≡ new_places M.parts }
    requires some { 0 < M.parts }
    requires seat { seat.parts + shared_parts floor.shared ≡ 1024 }
    ensures told { IfOk result (IsToldFrom floor.names.items cast.workers.items) }
    ensures only { IfErr result IsNoMismatch }
{
    let mut floor = floor;
    let LineHall { servers, socket } = hall;
    add_takers(&mut floor.bells, &lines, servers.as_slice())?;
    say_begun(rt, &floor, told);
    let (ended, called) = with_lines(rt, alloc, &floor, cast, servers, seat, lines)?;
    close_lines(rt, socket);
    let LinesEnd { seat, broken_off } = called;
    let mut seats = Vec::new(alloc);
    seats.push(seat)?;
    close_day(rt, alloc, floor, ended, seats, broken_off)
}

/// Adds what ends the waits of those who take lines: of this input, and of the clients of these servers.
fn add_takers<I: Read + Drop>(
    bells: &mut Bells,
    lines: &InputLines<I>,
    line_servers: &[LineServer],
) -> Result<(), DayFault>
    ensures { IfErr result IsNoMismatch }
{
    add_taker(bells, lines.wakeup())?;
    for server in line_servers {
        if server.is_first() {
            add_taker(bells, server.wakeup())?;
        }
    }
    Ok(())
}

/// Says with what a day goes on, if it does, and whether it begins halted. It goes on too where that can't be written.
fn say_begun<L: Run, M: Accounts, W: Write + Drop, J: Telling>(
    rt: &impl Wait,
    floor: &Floor<L, M, W, J>,
    told: Option<Restored>,
) {
    if let Some(told) = told {
        let _ = floor.voice.say(rt, &told);
    }
    let _ = say_halted(rt, floor);
}

/// Runs the threads of a day beside its callers: the one who takes the lines of this input, in this thread, and the
/// clients of these servers.
fn with_lines<X, K, C, L, M, W, J, I, R>(
    rt: &R,
    alloc: Global,
    floor: &Floor<L, M, W, J>,
    cast: Cast<X, K, C, L, M, J>,
    line_servers: Vec<LineServer>,
    seat: CallerSeat<L>,
    lines: InputLines<I>,
) -> Result<(Ended<K, L, M, J>, LinesEnd<L>), DayFault>
where
    X: Serve + Drop + Send,
    K: Link + Send,
    C: Clock + Drop + Send,
    L: Run + Send + Sync,
    M: Accounts + Send + Sync,
    W: Write + Drop + Send,
    J: Telling + Send,
    I: Read + Drop,
    R: Net<Listener = TcpListener, Stream = TcpStream> + Threads + Wait + time::Clock + Sync,
    ensures ran { IfOk result (λ day. AllRan any_wording cast.workers.items day.0.workers.items) }
    ensures workers { IfOk result (λ day. map (λ e. place e.parts) day.0.workers.items
        ≡ map (λ w. place w.parts) cast.workers.items) }
    ensures seat { IfOk result (λ day. day.1.seat.parts ≡ seat.parts) }
    ensures only { IfErr result IsNoMismatch }
{
    let callers = &Callers::new(alloc, !line_servers.is_empty());
    let (ended, called) = join(
        rt,
        || -> Result<Ended<K, L, M, J>, DayFault>
            ensures ran { IfOk result (λ ended. AllRan any_wording cast.workers.items ended.workers.items) }
            ensures workers { IfOk result (λ ended. map (λ e. place e.parts) ended.workers.items
                ≡ map (λ w. place w.parts) cast.workers.items) }
            ensures only { IfErr result IsNoMismatch }
        { in_threads(rt, alloc, floor, callers, cast, u64::MAX) },
        || take_all_lines(rt, alloc, floor, callers, line_servers, seat, lines),
    );
    let ended = ended?;
    match called {
        Some(called) => Ok((ended, called)),
        None => Err(DayFault::NoThread),
    }
}
