//! The worker of one venue.

ghost use Rattle.std.specs.Prelude.{◌≡◌, [], Some};
ghost use Rattle.session_core.specs.Session.{new_session};
ghost use Rattle.session_worker.specs.Events.{new_worker, with_journal};
ghost use Rattle.session_worker.specs.Ends.{Runs};

use crate::gates::shut_gate;
use crate::session_io::SessionIo;
use crate::takings::Takings;
use crate::withdrawal_counts::WithdrawalCounts;
use crate::worker_state::WorkerState;
use crate::{Pace, WorkerEnd};
use change_count::Stop;
use clock::Clock;
use dialect::Dialect;
use exec_collector::{Accounts, Collector, WorkerSeat};
use fix_tags::Config;
use kept_link::{Telling, Untold};
use link::Link;
use release_lock::{ReleaseLock, Run, VenueDrain};
use std::alloc::Global;
use std::marker::Model;
use std::sync::{Arc, Wait};
use venue_board::VenueBoard;

/// The worker of one venue: its dialect, and its session over its link, the end of the venue's ring, and its seat.
/// Contracts see the dialect, and the worker's parts as its events change them.
#[derive(Drop)]
pub struct Worker<
    D: Dialect + Drop,
    K: Link,
    C: Clock + Drop,
    L: Run,
    M: Accounts,
    J: Telling = Untold,
> {
    pub(crate) dialect: D,
    pub(crate) state: WorkerState<K, C, L, M, J>,
}

impl<D: Dialect + Drop, K: Link, C: Clock + Drop, L: Run, M: Accounts, J: Telling> Model
    for Worker<D, K, C, L, M, J> {
    ghost use Rattle.session_worker.specs.Ends.{WorkerStart};
    ghost use Rattle.session_worker.specs.Linking.{worker_in};

    ghost Value = { WorkerStart D };

    ghost view = { λ w. record { dialect = w.dialect; parts = worker_in w.state } };
}

impl<D: Dialect + Drop, K: Link, C: Clock + Drop, L: Run, M: Accounts> Worker<D, K, C, L, M> {
    /// The worker of a drain's venue, with a session that has done nothing, and the seat of that venue. Nothing was
    /// popped from the drain yet.
    pub fn new(
        alloc: Global,
        dialect: D,
        link: K,
        clock: C,
        config: Config,
        seat: WorkerSeat<M>,
        drain: VenueDrain<L>,
        pace: Pace,
    ) -> Worker<D, K, C, L, M>
        requires drain { drain.popped ≡ [] }
        requires seat { seat.venue ≡ Some drain.venue }
        ensures dialect { result.dialect ≡ dialect }
        ensures parts { result.parts ≡ new_worker (new_session config) drain.venue seat (K.wire link) }
    {
        Worker::with_journal(
            alloc, dialect, link, Untold, clock, config, seat, drain, pace,
        )
    }
}

impl<D: Dialect + Drop, K: Link, C: Clock + Drop, L: Run, M: Accounts, J: Telling> Worker<
    D,
    K,
    C,
    L,
    M,
    J,
> {
    /// The same, which tells its journal the line of each event, before what follows from it is written or done.
    pub fn with_journal(
        alloc: Global,
        dialect: D,
        link: K,
        journal: J,
        clock: C,
        config: Config,
        seat: WorkerSeat<M>,
        drain: VenueDrain<L>,
        pace: Pace,
    ) -> Worker<D, K, C, L, M, J>
        requires drain { drain.popped ≡ [] }
        requires seat { seat.venue ≡ Some drain.venue }
        ensures dialect { result.dialect ≡ dialect }
        ensures parts { result.parts
            ≡ with_journal (J.told journal) (new_worker (new_session config) drain.venue seat (K.wire link)) }
    {
        Worker {
            dialect,
            state: WorkerState {
                io: SessionIo::new(alloc, link, journal, clock, config, drain.venue(), pace),
                takings: Takings::new(alloc, drain),
                seat,
                withdrawn: WithdrawalCounts::none(),
                raised: true,
            },
        }
    }

    /// The same worker, which tells on this board how far it is.
    pub fn telling_on(self, board: Arc<VenueBoard, Global>) -> Worker<D, K, C, L, M, J>
        ensures { result ≡ self }
    {
        let mut worker = self;
        board.tell_refused(worker.state.withdrawn.refused);
        worker.state.io.tell_on(board);
        worker
    }

    /// The same worker, which dials again after its exchange logged out first, if it `reopens`. Otherwise its session
    /// is over then.
    pub fn reopening(self, reopens: bool) -> Worker<D, K, C, L, M, J>
        ensures { result ≡ self }
    {
        let mut worker = self;
        worker.state.io.set_reopens(reopens);
        worker
    }

    /// Takes its turns, until one leaves the session closed or it has rested so often; then the session is over, the
    /// gate is shut, and what is placed at the venue is dropped. It may wait for the locks and for the link. Of a link
    /// that tells its traffic the contract says which bytes went over it.
    pub fn run<N: Telling>(
        self,
        rt: &impl Wait,
        lock: &ReleaseLock<L, N>,
        collector: &Collector<M>,
        turn_limit: u64,
    ) -> WorkerEnd<K, L, M, J>
        ensures { Runs (D.wording self.dialect) self.parts result }
    {
        self.run_until(rt, lock, collector, &Stop::new(), turn_limit)
    }

    /// The same, until it is told to stop: then it closes its session in order, or gives it up.
    pub fn run_until<N: Telling>(
        self,
        rt: &impl Wait,
        lock: &ReleaseLock<L, N>,
        collector: &Collector<M>,
        stop: &Stop,
        turn_limit: u64,
    ) -> WorkerEnd<K, L, M, J>
        ensures { Runs (D.wording self.dialect) self.parts result }
    {
        let Worker { dialect, state } = self;
        let mut state = state;
        let reason = state.turns(rt, &dialect, lock, collector, stop, turn_limit);
        state.finish(rt);
        shut_gate(rt, lock, state.takings.venue());
        state.drain(rt, lock, collector);
        let WorkerState {
            io,
            takings,
            seat,
            withdrawn: _,
            raised: _,
        } = state;
        let (session, link, journal) = io.into_parts();
        WorkerEnd {
            session,
            took: takings.into_end(),
            seat,
            link,
            journal,
            reason,
        }
    }
}
