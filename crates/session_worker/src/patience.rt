//! How long a worker goes on that was told to stop.

ghost use Rattle.std.specs.Prelude.{◌≡◌, ◌-◌, ◌≤◌, ◌↔◌, ℕ, None, Some, IsTrue};

use change_count::Stop;

/// For how many milliseconds a worker that was told to stop tries to close its session in order.
const PATIENCE: u64 = 10_000;

/// When a worker first found that it was told to stop.
#[derive(Drop)]
pub(crate) struct Patience {
    since: Option<u64>,
}

impl Patience {
    /// It wasn't told yet.
    pub fn new() -> Patience
        ensures { result.since ≡ None }
    {
        Patience { since: None }
    }

    /// Whether the worker gives up, at this moment in milliseconds: it was told twice, or it was first found told so
    /// long ago.
    pub fn is_over(&mut self, stop: &Stop, now: u64) -> bool {
        if stop.is_told_twice() {
            return true;
        }
        stop.is_told() && self.has_waited(now)
    }

    /// Whether so much time has passed since this was first asked.
    fn has_waited(&mut self, now: u64) -> bool
        ensures first { self.old.since ≡ None → self.new.since ≡ Some now }
        ensures later { (since : ℕ) → self.old.since ≡ Some since → (self.new.since ≡ Some since)
            × (IsTrue result ↔ (10000 ≤ now - since)) }
    {
        match self.since {
            Some(since) => now.saturating_sub(since) >= PATIENCE,
            None => {
                self.since = Some(now);
                false
            }
        }
    }
}
