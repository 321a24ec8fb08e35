//! When a worker dials again.

ghost use Rattle.std.specs.Prelude.{◌≡◌, ◌-◌, ◌*◌, ◌≤◌, ◌↔◌, true, false, IsTrue, max, min};
ghost use Rattle.session_worker.specs.Timing.{IsPaused, parted_pause_of, pause_of};

use crate::Pace;

/// The pause after a dial that failed, in milliseconds, or after a connection on which the session never came up.
const FIRST_PAUSE: u64 = 250;

/// The least pause after the exchange logged out first.
const PARTED_PAUSE: u64 = 5_000;

/// The longest pause.
const LAST_PAUSE: u64 = 30_000;

/// When a worker dials again. The first dial comes at once, and so does the first one after the session was up; before
/// each other one there is a pause, twice as long each time up to half a minute, less a quarter at most, by chance. A
/// worker that counts its turns makes no pause.
#[derive(Drop)]
pub(crate) struct Redial {
    first_pause: u64,
    /// The least pause after the exchange logged out first, in milliseconds.
    parted_pause: u64,
    /// The next pause, in milliseconds.
    pause: u64,
    /// Before this moment no dial is made.
    due: u64,
    /// Whether a dial was made since the session was found down.
    dialled: bool,
    /// The last number of a row that looks like chance.
    chance: u64,
}

impl Redial {
    /// A first dial at once. Workers with different seeds pause differently.
    pub fn new(pace: Pace, seed: u64) -> Redial
        ensures due { result.due ≡ 0 }
        ensures pause { (result.pause ≡ pause_of pace) × (result.first_pause ≡ pause_of pace) }
        ensures parted { result.parted_pause ≡ parted_pause_of pace }
        ensures none { result.dialled ≡ false }
    {
        let (first_pause, parted_pause) = match pace {
            Pace::Turns {
                quiet_turns: _,
                silent_turns: _,
            } => (0, 0),
            Pace::Time => (FIRST_PAUSE, PARTED_PAUSE),
        };
        Redial {
            first_pause,
            parted_pause,
            pause: first_pause,
            due: 0,
            dialled: false,
            chance: seed,
        }
    }

    /// A dial is made.
    pub fn dialled(&mut self)
        ensures { self.new ≡ record self.old { dialled = true } }
    {
        self.dialled = true;
    }

    /// The session came up: the pauses begin anew.
    pub fn came_up(&mut self)
        ensures { self.new ≡ record self.old { pause = self.old.first_pause; dialled = false } }
    {
        self.pause = self.first_pause;
        self.dialled = false;
    }

    /// The exchange logged out first: a pause comes before the next dial too.
    pub fn parted(&mut self)
        ensures { self.new ≡ record self.old { pause = max self.old.pause self.old.parted_pause; dialled = true } }
    {
        self.pause = self.pause.max(self.parted_pause);
        self.dialled = true;
    }

    /// The session is down at this moment. After a dial the pause begins.
    pub fn found_down(&mut self, now: u64)
        ensures none { self.old.dialled ≡ false → self.new ≡ self.old }
        ensures pause { self.old.dialled ≡ true → IsPaused now self.old.pause self.new.due }
        ensures doubled { self.old.dialled ≡ true → self.new.pause ≡ min (self.old.pause * 2) 30000 }
        ensures once { self.new.dialled ≡ false }
    {
        if !self.dialled {
            return;
        }
        self.dialled = false;
        self.due = now.saturating_add(self.pause - self.less());
        self.pause = self.pause.saturating_mul(2).min(LAST_PAUSE);
    }

    /// By how much the next pause is shorter, by chance: a quarter of it at most.
    fn less(&mut self) -> u64
        ensures few { result * 4 ≤ self.old.pause }
        ensures same { self.new ≡ record self.old { chance = self.new.chance } }
    {
        self.chance = self
            .chance
            .wrapping_mul(6_364_136_223_846_793_005)
            .wrapping_add(1_442_695_040_888_963_407);
        (self.chance >> 33) % (self.pause / 4 + 1)
    }

    /// Whether a dial may be made at this moment.
    pub fn is_due(&self, now: u64) -> bool
        ensures { IsTrue result ↔ (self.now.due ≤ now) }
    {
        self.due <= now
    }

    /// How many milliseconds are left until then.
    pub fn millis_left(&self, now: u64) -> u64
        ensures { result ≡ self.now.due - now }
    {
        self.due.saturating_sub(now)
    }
}
