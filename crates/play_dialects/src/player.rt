//! The commands on legs and dialects.

use crate::leg_text::leg_in;
use crate::legs::{answer_part, answer_split, new_split};
use crate::message::{answer_message, write};
use crate::order::{answer_order, write_order};
use crate::report::{answer_report, answer_trade, view_in, write_report};
use crate::text::{answer_codes, answer_text};
use case_text::{Answers, PlayFault, Player, bytes_of, fields_of, words};
use dialect::{AnyDialect, OrderView};
use leg::Split;
use std::alloc::Global;

/// A dialect, what an exchange knows of an order, and what became of a leg's shares.
#[derive(Drop)]
pub struct DialectsPlayer {
    alloc: Global,
    dialect: AnyDialect,
    view: Option<OrderView>,
    split: Option<Split>,
}

impl DialectsPlayer {
    /// Plain, with no order and no leg yet.
    pub fn new(alloc: Global) -> DialectsPlayer {
        DialectsPlayer {
            alloc,
            dialect: AnyDialect::Plain,
            view: None,
            split: None,
        }
    }

    /// What an exchange knows of an order from now on, if it is in range.
    fn know(&mut self, words: &[&str], answers: &mut Answers) -> Result<(), PlayFault> {
        self.view = view_in(self.alloc, words)?;
        match &self.view {
            Some(view) => {
                let (cum, leaves) = (view.cum(), view.leaves());
                answers.say(&format!(in self.alloc; "cum {cum} leaves {leaves}")?)
            }
            None => answers.say("none"),
        }
    }

    /// The commands on what was said before, and those that are whole in their words.
    fn worded(&mut self, words: &[&str], answers: &mut Answers) -> Result<(), PlayFault> {
        match words {
            ["dialect", name] => {
                self.dialect = AnyDialect::named(name).ok_or(PlayFault::NotUnderstood)?;
                Ok(())
            }
            ["shares", shares] => {
                self.split = Some(new_split(shares)?);
                Ok(())
            }
            ["fill" | "bust" | "cancel_rest" | "withdraw", ..] => match &mut self.split {
                Some(split) => answer_split(self.alloc, split, words, answers),
                None => Err(PlayFault::NotUnderstood),
            },
            ["view", rest @ ..] => self.know(rest, answers),
            ["write_order", rest @ ..] => {
                let leg = leg_in(rest)?;
                write_order(self.alloc, self.dialect, &leg, answers)
            }
            ["write_report", rest @ ..] => match &self.view {
                Some(view) => write_report(self.alloc, self.dialect, view, rest, answers),
                None => Err(PlayFault::NotUnderstood),
            },
            ["write", rest @ ..] => {
                write(self.alloc, self.dialect, self.view.as_ref(), rest, answers)
            }
            ["trade", shares, px] => answer_trade(self.alloc, shares, px, answers),
            ["codes"] => answer_codes(self.alloc, answers),
            _ => answer_part(self.alloc, words, answers),
        }
    }
}

impl Player for DialectsPlayer {
    fn begin(&mut self) -> Result<(), PlayFault> {
        *self = DialectsPlayer::new(self.alloc);
        Ok(())
    }

    fn command(&mut self, line: &str, answers: &mut Answers) -> Result<(), PlayFault> {
        let (word, rest) = line.split_once(' ').unwrap_or((line, ""));
        match word {
            "read_order" => answer_order(self.alloc, self.dialect, rest, answers),
            "read_report" => answer_report(self.alloc, self.dialect, rest, answers),
            "exec_id" | "order_id" | "last_px" => answer_text(self.alloc, word, rest, answers),
            "see" => {
                let fields = fields_of(self.alloc, &bytes_of(self.alloc, rest)?)?;
                answer_message(self.alloc, self.dialect, &fields, answers)
            }
            _ => self.worded(&words(self.alloc, line)?, answers),
        }
    }
}
