//! The day of an exchange, command by command.

use crate::act::Act;
use crate::manner::Manner;
use crate::new_exchange::new_exchange;
use crate::standing::tell_standing;
use case_text::{Answers, FrameForm, PlayFault, Player, number, words};
use dialect::AnyDialect;
use exchange_core::Exchange;
use fix_tags::{Stamp, read_stamp};
use std::alloc::Global;

/// The connection in which frames come where a case says none.
const FIRST_CONNECTION: u64 = 1;

/// The time of each call where a case says none: `20240102-14:30:00.000`.
fn first_stamp() -> Stamp {
    Stamp::new(2024, 1, 2, 14, 30, 0, 0).unwrap()
}

/// The exchange of a case, and how it is called.
#[derive(Drop)]
pub struct ExchangePlayer {
    manner: Manner,
    exchange: Option<Exchange>,
}

impl ExchangePlayer {
    /// No exchange yet: orders are plain, frames come in connection 1 and are shown by their fields.
    pub fn new(alloc: Global) -> ExchangePlayer {
        ExchangePlayer {
            manner: Manner {
                alloc,
                dialect: AnyDialect::Plain,
                stamp: first_stamp(),
                form: FrameForm::Fields,
                connection: FIRST_CONNECTION,
            },
            exchange: None,
        }
    }

    /// A new exchange is configured with these words, and frames come in its first connection.
    fn configure(&mut self, words: &[&str], answers: &mut Answers) -> Result<(), PlayFault> {
        self.manner.connection = FIRST_CONNECTION;
        self.exchange = new_exchange(self.manner.alloc, words)?;
        match &self.exchange {
            Some(_) => Ok(()),
            None => answers.say("no configuration"),
        }
    }

    fn speak(&mut self, name: &str) -> Result<(), PlayFault> {
        self.manner.dialect = AnyDialect::named(name).ok_or(PlayFault::NotUnderstood)?;
        Ok(())
    }

    fn set_time(&mut self, time: &str) -> Result<(), PlayFault> {
        self.manner.stamp = read_stamp(time.as_bytes()).ok_or(PlayFault::NotUnderstood)?;
        Ok(())
    }

    fn hear(&mut self, text: &str, answers: &mut Answers) -> Result<(), PlayFault> {
        let bytes = self.manner.form.bytes(self.manner.alloc, text)?;
        match &mut self.exchange {
            Some(exchange) => self.manner.hear(exchange, &bytes, answers),
            None => Err(PlayFault::NotUnderstood),
        }
    }

    fn act(&mut self, words: &[&str], answers: &mut Answers) -> Result<(), PlayFault> {
        let act = Act::of(words)?;
        match &mut self.exchange {
            Some(exchange) => self.manner.act(exchange, act, answers),
            None => Err(PlayFault::NotUnderstood),
        }
    }

    fn tell(&self, answers: &mut Answers) -> Result<(), PlayFault> {
        match &self.exchange {
            Some(exchange) => tell_standing(self.manner.alloc, exchange, answers),
            None => Err(PlayFault::NotUnderstood),
        }
    }

    fn command_of(&mut self, words: &[&str], answers: &mut Answers) -> Result<(), PlayFault> {
        match words {
            ["exchange", words @ ..] => self.configure(words, answers),
            ["dialect", name] => self.speak(name),
            ["at", time] => self.set_time(time),
            ["connection", connection] => {
                self.manner.connection = number(connection)?;
                Ok(())
            }
            ["whole"] => {
                self.manner.form = FrameForm::Whole;
                Ok(())
            }
            ["stands"] => self.tell(answers),
            _ => self.act(words, answers),
        }
    }
}

impl Player for ExchangePlayer {
    fn begin(&mut self) -> Result<(), PlayFault> {
        *self = ExchangePlayer::new(self.manner.alloc);
        Ok(())
    }

    fn command(&mut self, line: &str, answers: &mut Answers) -> Result<(), PlayFault> {
        match line.strip_prefix("< ") {
            Some(text) => self.hear(text, answers),
            None => {
                let words = words(self.manner.alloc, line)?;
                self.command_of(&words, answers)
            }
        }
    }
}
