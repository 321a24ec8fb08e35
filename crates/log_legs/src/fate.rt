//! What became of an order.

ghost use Rattle.std.specs.Prelude.{◌≡◌};
ghost use Rattle.log_legs.specs.Fate.{fate_of, fate_text, is_taken, is_withdrawn};

use crate::kept_leg::KeptLeg;
use log_rules::{Order, Standing};

/// What became of an order, as far as the log shows it.
#[derive(Clone, Copy, Debug, PartialEq, Eq)]
pub enum Fate {
    /// The exchange took it.
    Taken,
    /// The exchange asked for it again while it was in doubt and all of its shares were open, and it was never sent
    /// again.
    Withdrawn,
    /// Neither is known.
    Doubt,
}

fn is_taken(standing: &Standing, is_old: bool, order: &Order, leg: &KeptLeg) -> bool
    ensures { result ≡ is_taken standing.now is_old order.now leg.now }
{
    leg.is_reported() || (!is_old && !order.is_withdrawn() && order.number() <= standing.passed)
}

impl Fate {
    /// What became of an order, where the two ends stand so. An old one was sent before the last Logon that reset the
    /// numbers.
    pub(crate) fn of(standing: &Standing, is_old: bool, order: &Order, leg: &KeptLeg) -> Fate
        ensures { result ≡ fate_of standing.now is_old order.now leg.now }
    {
        if leg.is_gone(order.is_withdrawn()) {
            Fate::Withdrawn
        } else if is_taken(standing, is_old, order, leg) {
            Fate::Taken
        } else {
            Fate::Doubt
        }
    }

    /// The fate in a word.
    pub fn name(self) -> &'static str
        ensures { result.now ≡ fate_text self }
    {
        match self {
            Fate::Taken => "taken",
            Fate::Withdrawn => "withdrawn",
            Fate::Doubt => "doubt",
        }
    }

    pub(crate) fn is_withdrawn(self) -> bool
        ensures { result ≡ is_withdrawn self }
    {
        matches!(self, Fate::Withdrawn)
    }
}
