//! Wrong tokens, and when they are answered.

ghost use Rattle.std.specs.Prelude.{◌≡◌};
ghost use Rattle.desk_http.specs.Guesses.{answer_at, given_at, guessed, hold_now, next_hold, no_guesses, slot};

/// How many milliseconds the answer to a second wrong token is held back.
const FIRST_HOLD: u64 = 100;

/// How many milliseconds an answer is held back at most.
const MOST_HOLD: u64 = 5_000;

/// How many milliseconds lie between two answers, at least.
const APART: u64 = 100;

/// After how many milliseconds without a wrong token the next one is answered at once.
const FORGOTTEN: u64 = 10_000;

/// The wrong tokens that came, whoever sent them, and when they are answered: the first at once, each other later than
/// the one before, and at most ten a second. Moments are milliseconds of one clock.
#[derive(Debug, Drop)]
pub struct Guesses {
    /// How many came.
    pub count: u64,
    /// When the last one came.
    came: u64,
    /// When the last answer is due.
    due: u64,
    /// How long the next answer is held back, where the last wrong token isn't forgotten by then.
    hold: u64,
}

/// When an answer is given that could be given at this moment.
fn given_at(slot: u64, now: u64) -> Option<u64>
    ensures { result ≡ given_at slot now }
{
    if slot <= now.saturating_add(MOST_HOLD) {
        Some(slot)
    } else {
        None
    }
}

/// How long the answer behind one is held back that was held back so long.
fn next_hold(hold: u64) -> u64
    ensures { result ≡ next_hold hold }
{
    hold.saturating_mul(2).max(FIRST_HOLD).min(MOST_HOLD)
}

impl Guesses {
    pub fn new() -> Guesses
        ensures { result ≡ no_guesses }
    {
        Guesses {
            count: 0,
            came: 0,
            due: 0,
            hold: 0,
        }
    }

    /// How long an answer is held back now.
    fn hold_now(&self, now: u64) -> u64
        ensures { result ≡ hold_now self.now now }
    {
        if self.came.saturating_add(FORGOTTEN) <= now {
            0
        } else {
            self.hold
        }
    }

    /// When an answer could be given.
    fn slot(&self, now: u64) -> u64
        ensures { result ≡ slot self.now now }
    {
        let held = now.saturating_add(self.hold_now(now));
        held.max(self.due.saturating_add(APART))
    }

    /// One more wrong token came: when it is answered, which is within five seconds. None where so many wait to be
    /// answered that it gets no answer: its connection is to be closed.
    pub fn answer_at(&mut self, now: u64) -> Option<u64>
        ensures answer { result ≡ answer_at self.old now }
        ensures counted { self.new ≡ guessed self.old now }
    {
        let answer = given_at(self.slot(now), now);
        *self = Guesses {
            count: self.count.saturating_add(1),
            came: now,
            due: answer.unwrap_or(self.due),
            hold: next_hold(self.hold_now(now)),
        };
        answer
    }
}
