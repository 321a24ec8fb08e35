//! The commands of a case file.

use crate::act::Act;
use crate::act_words::act_of;
use crate::call_context::CallContext;
use crate::recorded_session::RecordedSession;
use crate::setup::Setup;
use case_text::{Answers, FrameForm, PlayFault, Player, words};
use dialect::AnyDialect;
use fix_tags::{Stamp, read_stamp};
use std::alloc::Global;

/// The time of each call where a case says none: `20240102-14:30:00.000`.
fn first_stamp() -> Stamp {
    Stamp::new(2024, 1, 2, 14, 30, 0, 0).unwrap()
}

/// The session of a case, and how it is called.
#[derive(Drop)]
pub struct SessionPlayer {
    context: CallContext,
    session: Option<RecordedSession>,
}

impl SessionPlayer {
    /// No session yet: orders are plain, and frames are shown by their fields.
    pub fn new(alloc: Global) -> SessionPlayer {
        SessionPlayer {
            context: CallContext {
                alloc,
                dialect: AnyDialect::Plain,
                stamp: first_stamp(),
                form: FrameForm::Fields,
            },
            session: None,
        }
    }

    /// A new session is configured with these words.
    fn configure(&mut self, words: &[&str], answers: &mut Answers) -> Result<(), PlayFault> {
        let setup = Setup::of(words)?;
        match setup.config()? {
            Some(config) => {
                self.session = Some(RecordedSession::new(self.context.alloc, setup, config));
                Ok(())
            }
            None => {
                self.session = None;
                answers.say("no configuration")
            }
        }
    }

    /// Does this to the session.
    fn call(&mut self, act: Act, answers: &mut Answers) -> Result<(), PlayFault> {
        match &mut self.session {
            Some(session) => session.call(&self.context, act, answers),
            None => Err(PlayFault::NotUnderstood),
        }
    }

    /// Tells where the session stands.
    fn tell(&self, answers: &mut Answers) -> Result<(), PlayFault> {
        match &self.session {
            Some(session) => session.tell(self.context.alloc, answers),
            None => Err(PlayFault::NotUnderstood),
        }
    }

    /// Tells what `trial` makes of all that was done to the session.
    fn tell_trial(&self, answers: &mut Answers) -> Result<(), PlayFault> {
        match &self.session {
            Some(session) => session.tell_trial(&self.context, answers),
            None => Err(PlayFault::NotUnderstood),
        }
    }

    fn set_dialect(&mut self, name: &str) -> Result<(), PlayFault> {
        self.context.dialect = AnyDialect::named(name).ok_or(PlayFault::NotUnderstood)?;
        Ok(())
    }

    fn set_time(&mut self, time: &str) -> Result<(), PlayFault> {
        self.context.stamp = read_stamp(time.as_bytes()).ok_or(PlayFault::NotUnderstood)?;
        Ok(())
    }

    fn command_of(&mut self, words: &[&str], answers: &mut Answers) -> Result<(), PlayFault> {
        match words {
            ["session", words @ ..] => self.configure(words, answers),
            ["dialect", name] => self.set_dialect(name),
            ["at", time] => self.set_time(time),
            ["whole"] => {
                self.context.form = FrameForm::Whole;
                Ok(())
            }
            ["stands"] => self.tell(answers),
            ["trial"] => self.tell_trial(answers),
            _ => self.call(act_of(words)?, answers),
        }
    }
}

impl Player for SessionPlayer {
    fn begin(&mut self) -> Result<(), PlayFault> {
        *self = SessionPlayer::new(self.context.alloc);
        Ok(())
    }

    fn command(&mut self, line: &str, answers: &mut Answers) -> Result<(), PlayFault> {
        match line.strip_prefix("< ") {
            Some(text) => {
                let bytes = self.context.form.bytes(self.context.alloc, text)?;
                self.call(Act::Frame(bytes), answers)
            }
            None => {
                let words = words(self.context.alloc, line)?;
                self.command_of(&words, answers)
            }
        }
    }
}
