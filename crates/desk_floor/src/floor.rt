//! What the threads of a day share.

ghost use Rattle.std.specs.Prelude.{◌≡◌, ◌⊎◌, ◌≤◌, length, None, MatchOption};
ghost use Rattle.share_ledger.specs.Book.{BookParts};
ghost use Rattle.share_ledger.specs.Entries.{opened};
ghost use Rattle.exec_collector.specs.Resolved.{Replays};
ghost use Rattle.day_sweeps.specs.Sweeps.{IsDay};
ghost use Rattle.desk_floor.specs.Release.{IsNumber, IsOnePart};
ghost use Rattle.desk_floor.specs.Status.{IsSeen};

use crate::bells::Bells;
use crate::counter::Counter;
use crate::halt_mark::HaltMark;
use crate::journal_watch::JournalWatch;
use crate::refs::Refs;
use crate::refusals::Refusals;
use crate::signals::{Closing, Manner, Signals};
use crate::standing::Standing;
use crate::talk_fault::TalkFault;
use crate::venue_view::{Seen, VenueView};
use crate::voice::Voice;
use change_count::Stop;
use day_log::{LineLog, VenueLog};
use desk_news::DayTotals;
use desk_words::VenueName;
use exec_collector::{Accounts, Collector};
use json_lines::Line;
use kept_link::{Telling, Untold};
use leg::VenueId;
use order_limits::OrderLimits;
use release_lock::{CallerSeat, ReleaseLock, Run};
use share_ledger::Book;
use std::alloc::{AllocError, Global};
use std::io::Write;
use std::sync::{Arc, Mutex, Wait};
use std::thread;
use std::time::{Clock, Duration};
use sweep_refs::SweepRef;

/// How many milliseconds pass between two looks whether the venues are up.
const LOOK_MILLIS: u64 = 5;

/// For how many such looks the first line is kept waiting for venues to come up: two seconds.
const LOOKS: u64 = 400;

/// What the threads of a day share.
#[derive(Drop)]
pub struct Floor<L: Run, M: Accounts, W: Write + Drop, J: Telling = Untold> {
    /// The names of the venues, each at the place that is its number.
    pub names: Vec<VenueName>,
    /// What is seen of them, in the same order.
    pub views: Vec<VenueView>,
    pub manner: Manner,
    pub lock: ReleaseLock<L, J>,
    pub collector: Collector<M>,
    /// On which the clients of the page count; none where no page is served.
    pub shared: Option<Mutex<Counter<L>>>,
    /// What its orders may have at most. Nothing changes them.
    pub limits: OrderLimits,
    /// Is held while a sweep is handed in and answered.
    pub turn: Mutex<()>,
    /// The sweeps that were placed under references. Is held while a sweep under one is handed in.
    pub refs: Mutex<Refs>,
    /// The journals of the day, if it keeps any.
    pub journals: Vec<JournalWatch>,
    /// The sweeps that were refused.
    pub refusals: Refusals,
    pub voice: Voice<W>,
    /// The log of the lines that are taken and answered, if one is kept.
    pub line_log: Option<Arc<VenueLog, Global>>,
    pub signals: Signals,
    /// What wakes the threads.
    pub bells: Bells,
    /// What tells the workers to stop.
    pub stop: Stop,
    /// What outlives the process of a desk that is halted, if it keeps a journal.
    pub halt_mark: Option<HaltMark>,
    ghost few: { length names.items ≤ 16 },
    ghost tied: { L.sweeps ≡ M.sweeps },
}

/// What its threads leave.
#[derive(Drop)]
pub struct Left<L: Run, M: Accounts, J: Telling = Untold> {
    pub names: Vec<VenueName>,
    pub lock: ReleaseLock<L, J>,
    pub collector: Collector<M>,
    /// The seat of the page's clients, if there is one.
    pub shared: Option<CallerSeat<L>>,
    ghost tied: { L.sweeps ≡ M.sweeps },
}

impl<L: Run, M: Accounts, W: Write + Drop, J: Telling> Floor<L, M, W, J> {
    /// What is seen of the venue at a place, if there is one. It waits for no lock.
    pub fn seen(&self, place: usize) -> Option<Seen>
        ensures { MatchOption result ((16 ≤ place) ⊎ (length self.now.views.items ≤ place))
            (λ seen. (seen.venue ≡ place) × IsSeen seen.standing) }
    {
        let venue = VenueId::new(u8::try_from(place).ok()?).ok()?;
        let view = self.views.get(place)?;
        Some(view.seen(venue, self.lock.is_shut(venue), self.held(venue)))
    }

    /// Whether each venue's session is up.
    fn are_up(&self) -> bool {
        for place in 0..self.names.len() {
            match self.seen(place) {
                Some(seen) if is_up(seen.standing) => {}
                _ => return false,
            }
        }
        true
    }

    /// Waits until each venue's session is up, but no longer than two seconds.
    pub fn await_venues<R: Wait + Clock>(&self, rt: &R) {
        for _ in 0..LOOKS {
            if self.signals.is_ending() || self.are_up() {
                return;
            }
            thread::sleep(rt, Duration::from_millis(LOOK_MILLIS));
        }
    }

    /// Answers a line, in the log too.
    pub fn answer<'a, T: Line, R: Wait, C: clock::Clock + Drop>(
        &self,
        rt: &'a R,
        log: &mut LineLog<'a, R, C>,
        answer: &T,
    ) -> Result<(), TalkFault> {
        log.answered(answer);
        self.voice.say(rt, answer)
    }

    /// The log of the lines, if one is kept.
    pub fn line_log(&self) -> Result<Option<Arc<VenueLog, Global>>, AllocError> {
        match &self.line_log {
            Some(log) => Ok(Some(log.clone()?)),
            None => Ok(None),
        }
    }

    /// The number under which a sweep was placed under a reference, if one was. It may wait for a sweep under one that
    /// is handed in.
    pub fn find(&self, rt: &impl Wait, reference: &SweepRef) -> Option<u64>
        ensures { IsNumber reference.now result }
    {
        self.refs.lock(rt).number(reference)
    }

    /// Whether all shares placed are filled, busted, cancelled or withdrawn.
    pub fn is_resolved(&self, rt: &impl Wait) -> bool {
        self.signals.placed() <= self.collector.resolved(rt)
    }

    /// The day is to close; the second time it is given up.
    pub fn close(&self) {
        if self.begin_close() {
            self.give_up();
        }
    }

    /// The day is to close, and no sweep is taken any more. It says whether the day was closing already.
    pub fn begin_close(&self) -> bool {
        let is_closing = self.signals.close();
        self.bells.tell_turn();
        is_closing
    }

    /// The day is to close, and no sweep is taken any more, as it shows. Where the day was closing already it changes
    /// nothing. It may wait for another caller that closes the day.
    pub fn ask_to_close(&self, rt: &impl Wait) -> Closing<'_>
        ensures { result.of ≡ self.now.signals.closing.id }
    {
        let shown = self.signals.close_shown(rt);
        self.bells.tell_turn();
        shown
    }

    /// The workers are told to stop, once: they shut their gates and close their sessions in order.
    pub fn stop(&self) {
        if !self.signals.stop_workers() {
            self.stop.tell();
            self.bells.ring_all();
            self.bells.tell_turn();
        }
    }

    /// The day is to close, and its workers give up their sessions.
    pub fn give_up(&self) {
        self.begin_close();
        self.stop();
        self.stop.tell();
        self.bells.ring_all();
    }

    /// The workers have ended, and so the day closes.
    pub fn end(&self) {
        self.signals.end();
        self.bells.tell_turn();
        self.bells.ring_takers();
    }

    /// The day is over: the exchanges, the servers of its page and the writer of its logs are to stop.
    pub fn finish(&self) {
        self.signals.stop();
        self.bells.tell_turn();
        self.bells.ring_takers();
        self.bells.ring_exchanges();
        if let Some(log) = &self.line_log {
            log.wake_writer();
        }
    }

    /// How many sweeps were placed. It may wait for the book's lock.
    pub fn sweeps(&self, rt: &impl Wait) -> u64
        ensures { (book : BookParts) × Replays book × (result ≡ length (opened book.entries)) }
    {
        self.collector.read(rt, |book: &Book| book.next_sweep()) - 1
    }

    /// The shares of the day. It may wait for the book's lock.
    pub fn totals(&self, rt: &impl Wait) -> DayTotals
        ensures { IsDay result }
    {
        let resolved = self.collector.resolved(rt);
        let placed = self.signals.placed();
        DayTotals {
            placed,
            resolved,
            still_open: placed.saturating_sub(resolved),
        }
    }

    /// What is left once no thread shares it any more.
    pub fn into_left(self) -> Left<L, M, J>
        ensures names { result.names ≡ self.names }
        ensures shared { MatchOption self.shared (result.shared ≡ None) (λ _. IsOnePart result.shared) }
    {
        let Floor {
            names,
            views: _,
            manner: _,
            lock,
            collector,
            shared,
            limits: _,
            turn: _,
            refs: _,
            journals: _,
            refusals: _,
            voice: _,
            line_log: _,
            signals: _,
            bells: _,
            stop: _,
            halt_mark: _,
        } = self;
        Left {
            names,
            lock,
            collector,
            shared: match shared {
                Some(counter) => Some(counter.into_inner().into_seat()),
                None => None,
            },
        }
    }
}

/// Whether the session of a venue that stands so is up.
fn is_up(standing: Standing) -> bool {
    matches!(standing, Standing::Up | Standing::Held(_))
}
