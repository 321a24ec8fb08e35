//! How often a rule was held and broken.

ghost use Rattle.std.specs.Prelude.{◌≡◌};
ghost use Rattle.log_rules.specs.Verdict.{tallied};

use crate::verdict::Verdict;

/// How often a rule was held and broken, and how often it was broken again by what a message before was named for. The
/// counts stop at the greatest number of 64 bits.
#[derive(Clone, Copy, Debug, PartialEq, Eq)]
pub struct Tally {
    pub held: u64,
    pub broken: u64,
    pub again: u64,
}

impl Tally {
    /// Nothing was seen.
    pub const fn new() -> Tally
        ensures { result ≡ record { held = 0; broken = 0; again = 0 } }
    {
        Tally {
            held: 0,
            broken: 0,
            again: 0,
        }
    }

    /// The counts with one more verdict.
    pub fn with(self, verdict: Verdict) -> Tally
        ensures { result ≡ tallied verdict self }
    {
        match verdict {
            Verdict::Unasked => self,
            Verdict::Held => Tally {
                held: self.held.saturating_add(1),
                ..self
            },
            Verdict::Broken => Tally {
                broken: self.broken.saturating_add(1),
                ..self
            },
            Verdict::Again => Tally {
                again: self.again.saturating_add(1),
                ..self
            },
        }
    }
}
