//! A log is gone through: its messages are judged, and what became of its orders is kept where it is asked for.

ghost use Rattle.std.specs.Prelude.{◌≡◌, Some, None, length, IfOk, OnOk, OnErr};
ghost use Rattle.log_rules.specs.Checker.{unread_verdicts, verdicts};
ghost use Rattle.log_rules.specs.Ledger.{newest_order, uncounted_of};
ghost use Rattle.std.specs.Option.{option_map};
ghost use Rattle.log_legs.specs.Execution.{is_gone_at, leg_at};
ghost use Rattle.log_legs.specs.Fate.{leg_said};
ghost use Rattle.log_legs.specs.Legs.{judged, late_by, new_watch, no_legs, watched, watched_unread};

use crate::close::Close;
use crate::fate::Fate;
use crate::kept_leg::KeptLeg;
use crate::leg_heard::{LegHeard, is_withdrawn_at};
use crate::leg_list::LegList;
use crate::leg_said::LegSaid;
use log_rules::{Checker, Entry, Says, Verdict};
use message_log::Direction;
use std::alloc::{AllocError, Global};
use std::marker::Model;

/// What is known of a log behind the messages that were heard: what its rules ask, and where they are asked for its
/// orders with what became of them.
#[derive(Debug, Drop)]
pub struct Watch {
    alloc: Global,
    checker: Checker,
    legs: Option<LegList>,
    close: Close,
    /// The place of the first order that was sent once the session had logged out.
    late: Option<usize>,
}

impl Model for Watch {
    ghost use Rattle.std.specs.Prelude.{option_map};
    ghost use Rattle.log_legs.specs.Legs.{WatchParts, legs_parts};

    ghost Value = { WatchParts };

    ghost view = { λ w. record {
      checker = w.checker;
      legs = option_map legs_parts w.legs;
      close = w.close;
      late = w.late;
    } };
}

impl Watch {
    /// Before any message; only the rules are asked.
    pub fn of_rules(alloc: Global) -> Watch
        ensures { result ≡ new_watch None }
    {
        Watch {
            alloc,
            checker: Checker::new(alloc),
            legs: None,
            close: Close::Open,
            late: None,
        }
    }

    /// Before any message; the orders are kept too.
    pub fn of_legs(alloc: Global) -> Watch
        ensures { result ≡ new_watch (Some no_legs) }
    {
        Watch {
            alloc,
            checker: Checker::new(alloc),
            legs: Some(LegList::new(alloc)),
            close: Close::Open,
            late: None,
        }
    }

    /// The place that an order takes, if a message sends it for the first time once the session logged out.
    fn late_by(&self, entry: &Entry<'_>) -> Option<usize>
        ensures { result ≡ late_by self.now entry.now.direction entry.now.says }
    {
        match (entry.direction, &entry.says) {
            (Direction::Sent, Says::Order(said))
                if self.close.is_over() && self.checker.place_of(said.id.as_bytes()).is_none() => {
                Some(self.checker.orders().len())
            }
            _ => None,
        }
    }

    /// Hears a message, but for the session's end.
    fn judge(&mut self, entry: &Entry<'_>) -> Result<[Verdict; 22], AllocError>
        ensures verdicts { IfOk result (λ said. said ≡ verdicts self.old.checker entry.now) }
        ensures ok { OnOk result (self.new ≡ judged self.old entry.now) }
        ensures err { OnErr result (self.new ≡ self.old) }
    {
        let Some(legs) = &mut self.legs else {
            return self.checker.hear(entry);
        };
        let heard = LegHeard::new(self.alloc, &self.checker, entry)?;
        legs.reserve()?;
        let verdicts = self.checker.hear(entry)?;
        legs.apply(heard);
        Ok(verdicts)
    }

    /// What the next message says of each rule, in the order of `RULES`. Where memory is refused, nothing changes.
    pub fn hear(&mut self, entry: &Entry<'_>) -> Result<[Verdict; 22], AllocError>
        ensures verdicts { IfOk result (λ said. said ≡ verdicts self.old.checker entry.now) }
        ensures ok { OnOk result (self.new ≡ watched self.old entry.now) }
        ensures err { OnErr result (self.new ≡ self.old) }
    {
        let late = self.late_by(entry);
        let verdicts = self.judge(entry)?;
        self.close = self.close.after(entry);
        if self.late.is_none() {
            self.late = late;
        }
        Ok(verdicts)
    }

    /// What a message that can't be read says of each rule, which went this way and has these bytes. Where memory is
    /// refused, nothing changes.
    pub fn hear_unread(
        &mut self,
        direction: Direction,
        bytes: &[u8],
    ) -> Result<[Verdict; 22], AllocError>
        ensures verdicts { IfOk result (λ said. said ≡ unread_verdicts) }
        ensures ok { OnOk result (self.new ≡ watched_unread direction bytes.now self.old) }
        ensures err { OnErr result (self.new ≡ self.old) }
    {
        self.checker.hear_unread(direction, bytes)
    }

    /// What is known of the rules.
    pub(crate) fn checker(&self) -> &Checker
        ensures { result.now ≡ self.now.checker }
    {
        &self.checker
    }

    /// The order at a place, where orders are kept.
    pub(crate) fn kept_leg(&self, place: usize) -> Option<&KeptLeg>
        ensures { option_map (λ leg. leg.now) result ≡ leg_at self.now.legs place }
    {
        self.legs.as_ref()?.get(place)
    }

    /// Whether the order at a place is withdrawn.
    pub(crate) fn is_gone_at(&self, place: usize) -> bool
        ensures { result ≡ is_gone_at self.now place }
    {
        match self.kept_leg(place) {
            Some(leg) => leg.is_gone(is_withdrawn_at(&self.checker, place)),
            None => false,
        }
    }

    /// How far the session's end is.
    pub fn close(&self) -> Close
        ensures { result ≡ self.now.close }
    {
        self.close
    }

    /// The place of the first order that was sent once the session had logged out.
    pub fn late(&self) -> Option<usize>
        ensures { result ≡ self.now.late }
    {
        self.late
    }

    /// How many reports came under a number that isn't counted, as those behind one that is missing.
    pub fn uncounted(&self) -> usize
        ensures { result ≡ uncounted_of self.now.checker.standing.counted self.now.checker.ledger.reports }
    {
        self.checker.uncounted()
    }

    /// The place of the newest order of this ClOrdID (11).
    pub fn place_of(&self, id: &[u8]) -> Option<usize>
        ensures { result ≡ newest_order self.now.checker.ledger.orders id.now }
    {
        self.checker.place_of(id)
    }

    /// How many orders were sent, each counted once.
    pub fn leg_count(&self) -> usize
        ensures { result ≡ length self.now.checker.ledger.orders }
    {
        self.checker.orders().len()
    }

    /// The order at a place, from 0, with what became of it; none where orders aren't kept.
    pub fn leg(&self, place: usize) -> Option<LegSaid<'_>>
        ensures { result ≡ leg_said self.now place }
    {
        let legs = self.legs.as_ref()?;
        let order = self.checker.orders().get(place)?;
        let leg = legs.get(place)?;
        let fate = Fate::of(self.checker.standing(), legs.is_old(place), order, leg);
        Some(LegSaid::new(fate, order, leg))
    }
}
