//! When a worker does something by itself.

ghost use Rattle.std.specs.Prelude.{◌≡◌, ◌-◌, ◌*◌, ◌≤◌, ◌↔◌, true, false, min, IsTrue};
ghost use Rattle.session_worker.specs.Timing.{is_by_turns, quiet_of, silent_of, received_after};

use crate::Pace;

/// How many milliseconds pass without a write, for each second of the heartbeat interval, until a Heartbeat is due.
const QUIET_MILLIS: u64 = 1_000;

/// How many pass without a message until the exchange is asked, and again until the connection ends.
const SILENT_MILLIS: u64 = 1_200;

/// How many milliseconds a worker rests at most that counts its turns.
const TURN_MILLIS: u64 = 1;

/// Since when nothing was written on a connection, and since when nothing was received. A moment is the number of a
/// turn, or what a clock tells in milliseconds, as the pace wants it.
#[derive(Drop)]
pub(crate) struct Timer {
    by_turns: bool,
    quiet_after: u64,
    silent_after: u64,
    moment: u64,
    written: u64,
    received: u64,
    /// Whether in this turn a frame was written or a message heard.
    acted: bool,
}

impl Timer {
    /// A timer at moment 0, of a session with this heartbeat interval in seconds.
    pub fn new(pace: Pace, interval: u64) -> Timer
        requires { interval ≤ 3600 }
        ensures turns { result.by_turns ≡ is_by_turns pace }
        ensures quiet { result.quiet_after ≡ quiet_of pace interval }
        ensures silent { result.silent_after ≡ silent_of pace interval }
    {
        match pace {
            Pace::Turns {
                quiet_turns,
                silent_turns,
            } => Timer::of(true, quiet_turns, silent_turns),
            Pace::Time => Timer::of(false, interval * QUIET_MILLIS, interval * SILENT_MILLIS),
        }
    }

    fn of(by_turns: bool, quiet_after: u64, silent_after: u64) -> Timer
        ensures { result ≡ record {
          by_turns = by_turns;
          quiet_after = quiet_after;
          silent_after = silent_after;
          moment = 0;
          written = 0;
          received = 0;
          acted = false;
        } }
    {
        Timer {
            by_turns,
            quiet_after,
            silent_after,
            moment: 0,
            written: 0,
            received: 0,
            acted: false,
        }
    }

    /// A turn begins, at this moment of the clock.
    pub fn begin_turn(&mut self, millis: u64)
        ensures clock { self.old.by_turns ≡ false → self.new.moment ≡ millis }
        ensures written { self.new.written ≡ self.old.written }
        ensures received { self.new.received ≡ self.old.received }
        ensures anew { self.new.acted ≡ false }
    {
        self.acted = false;
        self.moment = if self.by_turns {
            self.moment.saturating_add(1)
        } else {
            millis
        };
    }

    /// The moment at which the turn began.
    pub fn now(&self) -> u64
        ensures { result ≡ self.now.moment }
    {
        self.moment
    }

    /// The moment of the last message, or that at which the connection was made.
    pub fn received(&self) -> u64
        ensures { result ≡ self.now.received }
    {
        self.received
    }

    /// A connection begins.
    pub fn dialled(&mut self)
        ensures { self.new ≡ record self.old { written = self.old.moment; received = self.old.moment } }
    {
        self.written = self.moment;
        self.received = self.moment;
    }

    /// A frame was written.
    pub fn wrote(&mut self)
        ensures { self.new ≡ record self.old { written = self.old.moment; acted = true } }
    {
        self.written = self.moment;
        self.acted = true;
    }

    /// Bytes were read. They count where turns do.
    pub fn read(&mut self)
        ensures turns { self.old.by_turns ≡ true → self.new ≡ record self.old { received = self.old.moment } }
        ensures clock { self.old.by_turns ≡ false → self.new ≡ self.old }
    {
        if self.by_turns {
            self.received = self.moment;
        }
    }

    /// A message was received. Where the clock counts it ends the silence.
    pub fn heard(&mut self)
        ensures turns { self.old.by_turns ≡ true → self.new ≡ record self.old { acted = true } }
        ensures clock { self.old.by_turns ≡ false
            → self.new ≡ record self.old { received = self.old.moment; acted = true } }
    {
        self.acted = true;
        if !self.by_turns {
            self.received = self.moment;
        }
    }

    /// The session was told that nothing was written: it is told again after as long.
    pub fn restart_quiet(&mut self)
        ensures { self.new ≡ record self.old { written = self.old.moment } }
    {
        self.written = self.moment;
    }

    /// The session is told that nothing was received, if that is so: it is told again after as long.
    pub fn restart_if_silent(&mut self)
        ensures { self.new ≡ record self.old {
          received = received_after self.old.silent_after self.old.moment
              self.old.received;
        } }
    {
        if self.is_silent() {
            self.received = self.moment;
        }
    }

    /// Whether in this turn a frame was written or a message heard.
    pub fn has_acted(&self) -> bool
        ensures { result ≡ self.now.acted }
    {
        self.acted
    }

    /// Whether nothing was written for so long that a Heartbeat is due.
    pub fn is_quiet(&self) -> bool
        ensures { IsTrue result ↔ (self.now.quiet_after ≤ self.now.moment - self.now.written) }
    {
        self.quiet_after <= self.moment.saturating_sub(self.written)
    }

    /// Whether nothing was received for so long that the exchange has to be asked, or the connection ended.
    pub fn is_silent(&self) -> bool
        ensures { IsTrue result ↔ (self.now.silent_after ≤ self.now.moment - self.now.received) }
    {
        self.silent_after <= self.moment.saturating_sub(self.received)
    }

    /// For how many milliseconds nothing is due on a connection.
    pub fn millis_left(&self) -> u64
        ensures turns { self.now.by_turns ≡ true → result ≡ 1 }
        ensures clock { self.now.by_turns ≡ false
            → result ≡ min (self.now.quiet_after - (self.now.moment - self.now.written))
            (self.now.silent_after - (self.now.moment - self.now.received)) }
    {
        if self.by_turns {
            return TURN_MILLIS;
        }
        let quiet = self
            .quiet_after
            .saturating_sub(self.moment.saturating_sub(self.written));
        let silent = self
            .silent_after
            .saturating_sub(self.moment.saturating_sub(self.received));
        quiet.min(silent)
    }
}
