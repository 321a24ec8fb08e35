//! How a day is held, and what its threads tell one another.

ghost use Rattle.std.specs.Prelude.{◌≡◌, IfSome};

use std::sync::atomic::{AtomicBool, AtomicU64, Ordering};
use std::sync::{OnceLock, OnceToken, Wait};
use std::thread;
use std::time::{Clock, Duration};

/// How many milliseconds pass between two looks whether a thread has begun.
const LOOK_MILLIS: u64 = 5;

/// For how many such looks one thread waits for another one to begin: ten seconds.
const LOOKS: u64 = 2_000;

/// How a day is held.
#[derive(Clone, Copy, Debug, PartialEq, Eq)]
pub struct Manner {
    /// For how many seconds, after the last line, open shares are waited for: up to 86,400.
    pub patience: u64,
    /// Whether changes are told while they come.
    pub tells_news: bool,
    /// Whether executions are.
    pub tells_executions: bool,
    /// Whether a sweep without a reference is refused.
    pub wants_refs: bool,
    /// Whether a line waits until its venues have room.
    pub waits: bool,
    /// Whether the day goes on once its input has ended.
    pub serves: bool,
}

/// Whether threads that others rest on have begun.
#[derive(Drop)]
pub struct Begun(AtomicBool);

impl Begun {
    /// They have begun.
    pub fn tell(&self) {
        self.0.store(true, Ordering::SeqCst);
    }
}

/// Shows that no sweep is taken any more, for good.
pub type Closing<'a> = OnceToken<'a, ()>;

/// What the threads of a day tell one another.
#[derive(Drop)]
pub struct Signals {
    /// The threads of the exchanges.
    pub exchanges: Begun,
    /// The thread that runs the workers.
    pub workers: Begun,
    // How many shares were placed.
    placed: AtomicU64,
    // Is written once no sweep is taken any more.
    pub(crate) closing: OnceLock<()>,
    // Whether the workers were told to stop.
    is_stopped: AtomicBool,
    // Whether the workers have ended.
    is_ending: AtomicBool,
    /// Whether exchanges are to stop.
    pub is_over: AtomicBool,
}

impl Signals {
    /// Of a day before its first thread is started.
    pub fn new() -> Signals {
        Signals {
            exchanges: Begun(AtomicBool::new(false)),
            workers: Begun(AtomicBool::new(false)),
            placed: AtomicU64::new(0),
            closing: OnceLock::new(),
            is_stopped: AtomicBool::new(false),
            is_ending: AtomicBool::new(false),
            is_over: AtomicBool::new(false),
        }
    }

    /// Waits until these threads have begun, and says whether they have: not where the day is to close, or the system
    /// gave them no thread, which shows by nothing but their silence.
    pub fn awaits(&self, clock: &impl Clock, begun: &Begun) -> bool {
        for _ in 0..LOOKS {
            if begun.0.load(Ordering::SeqCst) {
                return true;
            }
            if self.is_closing() {
                return false;
            }
            thread::sleep(clock, Duration::from_millis(LOOK_MILLIS));
        }
        false
    }

    /// So many shares more were placed.
    pub fn count_placed(&self, shares: u64) {
        self.placed.fetch_add(shares, Ordering::SeqCst);
    }

    /// How many shares were placed.
    pub fn placed(&self) -> u64 {
        self.placed.load(Ordering::SeqCst)
    }

    /// The day is to close, and no sweep is taken any more. It says whether the day was closing already.
    pub fn close(&self) -> bool {
        self.closing.try_set(()).is_err()
    }

    /// The day is to close, and no sweep is taken any more, as it shows. It may wait for another caller that closes the
    /// day.
    pub fn close_shown(&self, rt: &impl Wait) -> Closing<'_>
        ensures { result.of ≡ self.now.closing.id }
    {
        match self.closing.try_insert(rt, ()) {
            Ok(shown) => shown,
            Err((shown, ())) => shown,
        }
    }

    /// What shows that no sweep is taken any more, if that is so.
    pub fn closing(&self) -> Option<Closing<'_>>
        ensures { IfSome result (λ shown. shown.of ≡ self.now.closing.id) }
    {
        self.closing.witness()
    }

    /// Whether no sweep is taken any more.
    pub fn is_closing(&self) -> bool {
        self.closing.witness().is_some()
    }

    /// The workers are told to stop. It says whether they were told already.
    pub fn stop_workers(&self) -> bool {
        self.is_stopped.swap(true, Ordering::SeqCst)
    }

    /// Whether the workers were told to stop.
    pub fn are_stopped(&self) -> bool {
        self.is_stopped.load(Ordering::SeqCst)
    }

    /// The workers have ended, and so the day closes.
    pub fn end(&self) {
        self.close();
        self.is_ending.store(true, Ordering::SeqCst);
    }

    /// Whether the workers have ended.
    pub fn is_ending(&self) -> bool {
        self.is_ending.load(Ordering::SeqCst)
    }

    /// Whether exchanges are to stop, since the day is over.
    pub fn is_over(&self) -> bool {
        self.is_over.load(Ordering::SeqCst)
    }

    /// Exchanges are to stop.
    pub fn stop(&self) {
        self.is_over.store(true, Ordering::SeqCst);
    }
}
