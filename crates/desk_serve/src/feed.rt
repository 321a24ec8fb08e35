//! What is told to those who follow the day.

use crate::client::UNREAD_MILLIS;
use crate::follower::Follower;
use crate::listener::{Listener, Newcomer};
use crate::page::Page;
use clock::UtcClock;
use desk_executions::Execution;
use desk_floor::Floor;
use desk_http::{STILL_HERE, events_text, stream_head};
use desk_json::Event;
use exec_collector::Accounts;
use kept_link::Telling;
use release_lock::Run;
use std::alloc::{AllocError, Global};
use std::io::Write;
use std::mem;
use std::net::TcpStream;
use std::sync::Wait;
use std::time::{Clock, Duration};

/// How many milliseconds pass between two tellings, at least: what comes in a burst is told once.
const TELL_MILLIS: u64 = 1;

/// For how many milliseconds a change is waited for.
const LOOK_MILLIS: u64 = 1_000;

/// How many milliseconds pass before those are looked at again that have more to be told, or have no room for it.
const SOON_MILLIS: u64 = 10;

/// For how many milliseconds it rests where nobody follows. A newcomer and the end of the day end the rest.
const REST_MILLIS: u64 = 10_000;

/// How many milliseconds a last word may take to be sent, once the day is audited.
const FAREWELL_MILLIS: u64 = 200;

/// How many executions are told at once, at most, and how many to one who catches up.
const MOST_EXECUTIONS: u64 = 200;

const MOST_CAUGHT_UP: u64 = 400;

/// What is told to those who follow the day: the same to all, but for the executions that one of them has still to
/// catch up with.
#[derive(Drop)]
pub(crate) struct Feed<'a, L: Run, M: Accounts, W: Write + Drop, J: Telling, R: Wait + Clock> {
    rt: &'a R,
    alloc: Global,
    floor: &'a Floor<L, M, W, J>,
    page: &'a Page,
    clock: UtcClock<'a, R>,
    /// What all were told, but for executions; none while nobody follows.
    follower: Option<Follower>,
    /// The number of the last execution that was told to all.
    cursor: u64,
    /// The number of the day's last execution when it was looked last.
    last: u64,
    listeners: Vec<Listener>,
    /// When something was told last.
    told: Duration,
}

/// The number of the last of these, or else that one.
fn last_number(executions: &[Execution], or: u64) -> u64 {
    match executions.last() {
        Some(execution) => execution.number,
        None => or,
    }
}

/// The text of executions, in their order.
fn executions_text(alloc: Global, executions: Vec<Execution>) -> Result<String, AllocError> {
    let mut events = Vec::new(alloc);
    for execution in executions {
        events.push(Event::Execution(execution))?;
    }
    events_text(alloc, events.as_slice())
}

impl<'a, L: Run, M: Accounts, W: Write + Drop, J: Telling, R: Wait + Clock> Feed<
    'a,
    L,
    M,
    W,
    J,
    R,
> {
    /// That of a day that nobody follows yet.
    pub fn new(
        rt: &'a R,
        alloc: Global,
        floor: &'a Floor<L, M, W, J>,
        page: &'a Page,
    ) -> Feed<'a, L, M, W, J, R> {
        Feed {
            rt,
            alloc,
            floor,
            page,
            clock: UtcClock::new(rt),
            follower: None,
            cursor: 0,
            last: 0,
            listeners: Vec::new(alloc),
            told: Duration::ZERO,
        }
    }

    /// Tells those who follow what changes, until the day is over and all is told, and gives them then. One that takes
    /// nothing for five seconds is let go, and at the end of the day one that has more to take.
    pub fn run(mut self) -> Vec<TcpStream> {
        let mut over_since = None;
        for _ in self.rt.forever() {
            let (arrived, turn) = (self.page.arrivals.count(), self.floor.bells.turns().count());
            let news = self.floor.bells.news().count();
            let now = self.rt.monotonic().unwrap_or(self.told);
            let is_over = self.floor.signals.is_over();
            let has_told = self.go_on(now);
            if is_over {
                let since = *over_since.get_or_insert(now);
                if self.are_done()
                    || now.saturating_sub(since) >= Duration::from_millis(UNREAD_MILLIS)
                {
                    break;
                }
            }
            if self.listeners.is_empty() {
                self.page
                    .arrivals
                    .wait(self.rt, arrived, Duration::from_millis(REST_MILLIS));
            } else if has_told && !is_over {
                self.floor
                    .bells
                    .turns()
                    .wait(self.rt, turn, Duration::from_millis(TELL_MILLIS));
            } else {
                let most = if self.are_done() {
                    LOOK_MILLIS
                } else {
                    SOON_MILLIS
                };
                self.floor
                    .bells
                    .news()
                    .wait(self.rt, news, Duration::from_millis(most));
            }
        }
        self.into_streams()
    }

    /// Takes in newcomers, tells what changed and sends it, and says whether something did. Where memory is wanted for
    /// that all are let go, and may come again.
    fn go_on(&mut self, now: Duration) -> bool {
        let told = match self.admit(now) {
            Ok(()) => self.tell(now),
            Err(fault) => Err(fault),
        };
        if told.is_err() {
            let listeners = mem::replace(&mut self.listeners, Vec::new(self.alloc));
            self.let_go(listeners);
        }
        self.send(now);
        if self.listeners.is_empty() {
            self.follower = None;
        }
        told.unwrap_or(false)
    }

    /// Whether all was told and sent to all.
    fn are_done(&self) -> bool {
        self.cursor >= self.last
            && self.listeners.iter().all(|listener| listener.is_done()
                && listener.cursor >= self.cursor)
    }

    /// These follow the day no more.
    fn let_go(&self, listeners: Vec<Listener>) {
        for _ in listeners {
            self.page.end_following();
        }
    }

    /// Begins to look where nobody followed until now.
    fn begin(&mut self) -> Result<(), AllocError> {
        if self.follower.is_none() {
            self.follower = Some(Follower::new(self.rt, self.alloc, self.floor)?);
            self.last = self.executions(u64::MAX, 0)?.1;
            self.cursor = self.last;
        }
        Ok(())
    }

    /// Takes in those who follow from now on, each behind the execution that it names, or else behind the last one
    /// until now.
    fn admit(&mut self, now: Duration) -> Result<(), AllocError> {
        let mut admitted = Ok(());
        for newcomer in self.page.newcomers(self.rt, self.alloc) {
            if self.admit_one(newcomer, now).is_err() {
                self.page.end_following();
                admitted = Err(AllocError);
            }
        }
        admitted
    }

    fn admit_one(&mut self, newcomer: Newcomer, now: Duration) -> Result<(), AllocError> {
        self.begin()?;
        let (_, last) = self.executions(u64::MAX, 0)?;
        // One that followed another run may name an execution that this one hasn't reached.
        let cursor = newcomer.after.unwrap_or(last).min(last);
        let mut listener = Listener::new(newcomer, cursor, now);
        let head = stream_head(self.alloc, &self.page.run)?;
        listener.tell(head.as_str())?;
        Ok(self.listeners.push(listener)?)
    }

    /// The executions behind a number, at most so many, and the number of the last one until now.
    fn executions(&self, after: u64, most: u64) -> Result<(Vec<Execution>, u64), AllocError> {
        let page = self.page.executions(
            self.rt,
            self.alloc,
            self.floor.names.as_slice(),
            &self.floor.collector,
            after,
            most,
        )?;
        Ok((page.executions, page.last))
    }

    /// Tells all what changed, and says whether something did. Where nothing did for a second, that they are still
    /// told.
    fn tell(&mut self, now: Duration) -> Result<bool, AllocError> {
        let Some(follower) = &mut self.follower else {
            return Ok(false);
        };
        let news = follower.news(self.rt, &self.clock, self.alloc, self.floor)?;
        let mut text = events_text(self.alloc, news.as_slice())?;
        let has_told = self.tell_executions()? || !text.is_empty();
        if has_told {
            self.told = now;
        } else if now.saturating_sub(self.told) >= Duration::from_millis(LOOK_MILLIS) {
            self.told = now;
            text.push_str(STILL_HERE)?;
        }
        for listener in self.listeners.iter_mut() {
            listener.tell(text.as_str())?;
        }
        Ok(has_told)
    }

    /// Tells the next executions: the same text to all who were told those before it, and to each other one those that
    /// it has still to catch up with.
    fn tell_executions(&mut self) -> Result<bool, AllocError> {
        let before = self.cursor;
        let (executions, last) = self.executions(before, MOST_EXECUTIONS)?;
        self.last = last;
        self.cursor = last_number(executions.as_slice(), before);
        let text = executions_text(self.alloc, executions)?;
        let mut has_told = !text.is_empty();
        let cursor = self.cursor;
        let mut listeners = mem::replace(&mut self.listeners, Vec::new(self.alloc));
        let mut told = Ok(());
        for listener in listeners.iter_mut() {
            if told.is_err() || listener.is_slow() {
                continue;
            }
            if listener.cursor == before {
                listener.cursor = cursor;
                told = listener.tell(text.as_str());
            } else if listener.cursor < cursor {
                has_told = true;
                told = self.catch_up(listener);
            }
        }
        self.listeners = listeners;
        told?;
        Ok(has_told)
    }

    /// Tells one executions that all others were told before.
    fn catch_up(&self, listener: &mut Listener) -> Result<(), AllocError> {
        let most = self
            .cursor
            .saturating_sub(listener.cursor)
            .min(MOST_CAUGHT_UP);
        let (executions, _) = self.executions(listener.cursor, most)?;
        listener.cursor = last_number(executions.as_slice(), self.cursor);
        let text = executions_text(self.alloc, executions)?;
        listener.tell(text.as_str())
    }

    /// Sends to each what it takes, and lets those go that are gone.
    fn send(&mut self, now: Duration) {
        let mut kept = Vec::new(self.alloc);
        for listener in mem::replace(&mut self.listeners, Vec::new(self.alloc)) {
            let mut listener = listener;
            if !listener.send(now) || kept.push(listener).is_err() {
                self.page.end_following();
            }
        }
        self.listeners = kept;
    }

    /// The streams of those who were told all, each ready for a last word.
    fn into_streams(self) -> Vec<TcpStream> {
        let mut streams = Vec::new(self.alloc);
        for listener in self.listeners {
            if !listener.is_done() {
                continue;
            }
            let stream = listener.into_stream();
            let is_ready = stream.set_nonblocking(false).is_ok()
                && stream
                    .set_write_timeout(Some(Duration::from_millis(FAREWELL_MILLIS)))
                    .is_ok();
            if is_ready {
                let _ = streams.push(stream);
            }
        }
        streams
    }
}
