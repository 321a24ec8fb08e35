//! The numbers sent, and what each was spent on.

ghost use Rattle.std.specs.Prelude.{◌≡◌, ◌<◌, ◌≤◌, ◌+◌, [], IfOk, OnErr, IsOkUnless, length, IsTrue, ◌↔◌};
ghost use Rattle.std.specs.Option.{option_map};

use crate::legs::{
    after, doubts_below, drop_first, id_in, ids_of, numbers_below, ordinals_below, sent_in, up_to,
};
use crate::runs::{add_all, settled_state};
use crate::{GapFill, LogFault, NumberedId, Run, Sent};
use leg::{LegId, LegState};
use std::alloc::Global;
use std::marker::Model;

/// What each number sent was spent on. Where a leg stands is said once: one in doubt is in the window, with its
/// ordinal, and a settled one is in a run, which has the ordinals and the state of all its legs. Of every leg the id is
/// kept with its number, since ids don't follow one another. All three are in the order of the numbers. A number up to
/// the last one sent that has no id was spent on an administrative message. A leg takes memory as it is sent, also what
/// its run will take, and nothing else does.
#[derive(Drop)]
pub struct OutLog {
    max_number: u64,
    last: u64,
    last_ordinal: u64,
    ids: Vec<NumberedId>,
    window: Vec<Sent>,
    runs: Vec<Run>,
}

impl Model for OutLog {
    ghost use Rattle.resend.specs.Window.{OutLogParts};
    ghost use Rattle.resend.specs.Kept.{entries, kept_legs, IsKept};
    ghost use Rattle.resend.specs.KeptRuns.{HaveRuns};
    ghost use Rattle.std.specs.Prelude.{vec_len, vec_capacity};

    ghost Value = { OutLogParts };

    ghost view = { λ log. record {
      max_number = log.max_number;
      entries = entries log.last (kept_legs log.ids.items log.window.items log.runs.items);
    } };

    ghost invariant = { λ log. IsKept log.last log.last_ordinal
        (kept_legs log.ids.items log.window.items log.runs.items) log.window.items
        × HaveRuns (kept_legs log.ids.items log.window.items log.runs.items) log.window.items log.runs.items
        (vec_len log.runs) (vec_capacity log.runs) };
}

impl OutLog {
    ghost use Rattle.resend.specs.Log.{next_to_send, last_ordinal, in_doubt, leg_at, state_of, doubt_from, fill_for, take_below, give_up_from};
    ghost use Rattle.resend.specs.Log.Entry.{Admin, Sent as SentEntry};
    ghost use Rattle.resend.specs.Window.{push, window};
    ghost use Rattle.resend.specs.Runs.{runs};
    ghost use Rattle.leg.specs.Answering.{Answers};

    /// Nothing was sent yet. `max_number` is the number that no message may have.
    pub fn new(alloc: Global, max_number: u64) -> OutLog
        ensures { result ≡ record { max_number = max_number; entries = [] } }
    {
        OutLog {
            max_number,
            last: 0,
            last_ordinal: 0,
            ids: Vec::new(alloc),
            window: Vec::new(alloc),
            runs: Vec::new(alloc),
        }
    }

    /// The number of the next message, from 1.
    pub fn next_number(&self) -> u64
        ensures { result ≡ next_to_send self.now.entries }
    {
        self.last + 1
    }

    /// Spends a number on an administrative message, and gives it. N01 where none is left.
    pub fn push_admin(&mut self) -> Result<u64, LogFault>
        ensures { (result, self.new) ≡ push Admin self.old }
    {
        let number = self.last + 1;
        if number >= self.max_number {
            return Err(LogFault::NumbersSpent);
        }
        self.last = number;
        Ok(number)
    }

    /// Spends a number on a leg, which is then in doubt, and gives it. N01 where none is left.
    pub fn push_leg(&mut self, ordinal: u64, id: LegId) -> Result<u64, LogFault>
        requires { last_ordinal self.old.entries < ordinal }
        ensures { Answers LogFault.OutOfMemory self.old
            (push (SentEntry (record { ordinal = ordinal; id = id; state = LegState.Doubt })) self.old)
            result self.new }
    {
        let number = self.last + 1;
        if number >= self.max_number {
            return Err(LogFault::NumbersSpent);
        }
        if self.ids.reserve(1).is_err() {
            return Err(LogFault::OutOfMemory);
        }
        if self.window.reserve(1).is_err() {
            return Err(LogFault::OutOfMemory);
        }
        if self.runs.reserve(self.window.len() + 1).is_err() {
            return Err(LogFault::OutOfMemory);
        }
        self.ids.push_reserved(NumberedId { number, id });
        self.window.push_reserved(Sent {
            number,
            ordinal,
            id,
        });
        self.last = number;
        self.last_ordinal = ordinal;
        Ok(number)
    }

    /// The legs in doubt, in the order of their numbers.
    pub fn window(&self) -> &[Sent]
        ensures { result.now ≡ window self.now.entries }
    {
        self.window.as_slice()
    }

    /// The settled legs in runs, in the order of their numbers, each run as long as it can be.
    pub fn runs(&self) -> &[Run]
        ensures { result.now ≡ runs self.now.entries }
    {
        self.runs.as_slice()
    }

    /// Whether some leg is in doubt.
    pub fn in_doubt(&self) -> bool
        ensures { result ≡ in_doubt self.now.entries }
    {
        !self.window.as_slice().is_empty()
    }

    /// The ordinal of the last leg sent, 0 at first.
    pub fn last_ordinal(&self) -> u64
        ensures { result ≡ last_ordinal self.now.entries }
    {
        self.last_ordinal
    }

    /// The leg that was sent under a number.
    pub fn leg_at(&self, number: u64) -> Option<LegId>
        ensures { result ≡ leg_at number self.now.entries }
    {
        let ids = self.ids.as_slice();
        match id_in(ids, numbers_below(ids, number)) {
            Some(leg) if leg.number == number => Some(leg.id),
            _ => None,
        }
    }

    /// How far the leg of an ordinal is settled, if it was sent.
    pub fn state(&self, ordinal: u64) -> Option<LegState>
        ensures { result ≡ state_of ordinal self.now.entries }
    {
        let window = self.window.as_slice();
        match sent_in(window, ordinals_below(window, ordinal)) {
            Some(sent) if sent.ordinal == ordinal => Some(LegState::Doubt),
            _ => settled_state(self.runs.as_slice(), ordinal),
        }
    }

    /// The legs in doubt at or above a number, in the order of their numbers. The only refusal is out of memory, and
    /// only where there is such a leg.
    pub fn legs_from(&self, number: u64) -> Result<Vec<LegId>, LogFault>
        ensures ok { IfOk result (λ ids. ids.items ≡ doubt_from number self.now.entries) }
        ensures refusal { IsOkUnless result LogFault.OutOfMemory }
        ensures some { OnErr result (0 < length (doubt_from number self.now.entries)) }
    {
        let window = self.window.as_slice();
        let place = doubts_below(window, number);
        let alloc = *self.window.allocator();
        match ids_of(alloc, after(window, place)) {
            Ok(ids) => Ok(ids),
            Err(_) => Err(LogFault::OutOfMemory),
        }
    }

    /// What a resend request for the numbers from `begin` to `last`, or to the last one sent where `last` is 0, is
    /// answered with: a gap fill that ends at `top`, or `None` where this is no range of numbers sent or begins above
    /// `top`.
    pub fn answer(&self, begin: u64, last: u64, top: u64) -> Option<GapFill>
        ensures { result ≡ fill_for begin last top self.now.entries }
    {
        let sent = self.last;
        let asked = if last == 0 { sent } else { sent.min(last) };
        if begin == 0 || begin > asked || begin > top {
            return None;
        }
        Some(GapFill {
            first: begin,
            new_number: top.min(asked) + 1,
        })
    }

    /// The venue has the legs in doubt below a number: they are taken.
    pub fn take_below(&mut self, number: u64)
        ensures { self.new ≡ record self.old { entries = take_below number self.old.entries } }
    {
        let count = doubts_below(self.window.as_slice(), number);
        add_all(
            &mut self.runs,
            up_to(self.window.as_slice(), count),
            LegState::Taken,
        );
        drop_first(&mut self.window, count);
    }

    /// The venue never takes the legs in doubt at or above a number: they are withdrawn.
    pub fn give_up_from(&mut self, number: u64)
        ensures { self.new ≡ record self.old { entries = give_up_from number self.old.entries } }
    {
        let count = doubts_below(self.window.as_slice(), number);
        add_all(
            &mut self.runs,
            after(self.window.as_slice(), count),
            LegState::Withdrawn,
        );
        self.window.truncate(count);
    }
}
