//! The commands of a case file.

use crate::tell::{
    tell_fill, tell_ids, tell_judged, tell_leg, tell_log, tell_runs, tell_spent, tell_state,
    tell_window,
};
use case_text::{Answers, PlayFault, Player, number, words};
use dialect::{Plain, Spelling};
use fix_tags::MAX_MESSAGE_NUMBER;
use resend::{InSeq, OutLog};
use std::alloc::Global;

/// The numbers of a session, both ways.
#[derive(Drop)]
pub struct ResendPlayer {
    alloc: Global,
    log: OutLog,
    expected: InSeq,
}

impl ResendPlayer {
    /// Nothing was sent and nothing was received.
    pub fn new(alloc: Global) -> ResendPlayer {
        ResendPlayer {
            alloc,
            log: OutLog::new(alloc, MAX_MESSAGE_NUMBER + 1),
            expected: InSeq::new(),
        }
    }

    /// Sends a leg, whose ordinal is above that of every leg sent before.
    fn send(&mut self, ordinal: u64, id: &str, answers: &mut Answers) -> Result<(), PlayFault> {
        let id = Plain
            .read_id(id.as_bytes())
            .ok_or(PlayFault::NotUnderstood)?;
        if ordinal <= self.log.last_ordinal() {
            return Err(PlayFault::NotUnderstood);
        }
        let spent = self.log.push_leg(ordinal, id);
        tell_spent(self.alloc, spent, answers)
    }

    fn tell_legs_from(&self, number: u64, answers: &mut Answers) -> Result<(), PlayFault> {
        match self.log.legs_from(number) {
            Ok(ids) => tell_ids(self.alloc, &ids, answers),
            Err(_) => Err(PlayFault::OutOfMemory),
        }
    }

    /// The message that is expected was taken.
    fn advance(&mut self) -> Result<(), PlayFault> {
        if self.expected.expected() > MAX_MESSAGE_NUMBER {
            return Err(PlayFault::NotUnderstood);
        }
        self.expected.advance();
        Ok(())
    }

    /// The messages below a number, which is above the expected one, aren't sent again.
    fn fill_to(&mut self, number: u64) -> Result<(), PlayFault> {
        if number <= self.expected.expected() || number > MAX_MESSAGE_NUMBER + 1 {
            return Err(PlayFault::NotUnderstood);
        }
        self.expected.fill_to(number);
        Ok(())
    }

    fn tell_expected(&self, answers: &mut Answers) -> Result<(), PlayFault> {
        let expected = self.expected.expected();
        let text = format!(in self.alloc; "expected {expected}")?;
        answers.say(&text)
    }

    /// What is received.
    fn receive(&mut self, words: &[&str], answers: &mut Answers) -> Result<(), PlayFault> {
        match words {
            ["judge", at] => tell_judged(self.expected.judge(number(at)?, false), answers),
            ["judge", at, "again"] => tell_judged(self.expected.judge(number(at)?, true), answers),
            ["advance"] => self.advance(),
            ["fill", "to", to] => self.fill_to(number(to)?),
            ["expected"] => self.tell_expected(answers),
            _ => Err(PlayFault::NotUnderstood),
        }
    }

    /// What is sent, and settled.
    fn send_or_settle(&mut self, words: &[&str], answers: &mut Answers) -> Result<(), PlayFault> {
        match words {
            ["max", max] => {
                self.log = OutLog::new(self.alloc, number(max)?);
                Ok(())
            }
            ["admin"] => tell_spent(self.alloc, self.log.push_admin(), answers),
            ["leg", ordinal, id] => self.send(number(ordinal)?, id, answers),
            ["take", "below", at] => {
                self.log.take_below(number(at)?);
                Ok(())
            }
            ["withdraw", "from", at] => {
                self.log.give_up_from(number(at)?);
                Ok(())
            }
            _ => self.receive(words, answers),
        }
    }
}

impl Player for ResendPlayer {
    fn begin(&mut self) -> Result<(), PlayFault> {
        *self = ResendPlayer::new(self.alloc);
        Ok(())
    }

    fn command(&mut self, line: &str, answers: &mut Answers) -> Result<(), PlayFault> {
        let words = words(self.alloc, line)?;
        match words.as_slice() {
            ["log"] => tell_log(self.alloc, &self.log, answers),
            ["window"] => tell_window(self.alloc, self.log.window(), answers),
            ["runs"] => tell_runs(self.alloc, self.log.runs(), answers),
            ["legs", "from", at] => self.tell_legs_from(number(at)?, answers),
            ["leg", "at", at] => tell_leg(self.alloc, self.log.leg_at(number(at)?), answers),
            ["state", ordinal] => tell_state(self.log.state(number(ordinal)?), answers),
            ["resend", begin, last, "up", "to", top] => {
                let fill = self.log.answer(number(begin)?, number(last)?, number(top)?);
                tell_fill(self.alloc, fill, answers)
            }
            words => self.send_or_settle(words, answers),
        }
    }
}
