//! A session, with all that was done to it.

use crate::act::Act;
use crate::call_context::CallContext;
use crate::setup::Setup;
use crate::standing::tell_standing;
use crate::trial_run::play_trial;
use case_text::{Answers, PlayFault};
use fix_tags::Config;
use session_core::Session;
use std::alloc::Global;

/// A session, with all that was done to it.
#[derive(Drop)]
pub struct RecordedSession {
    setup: Setup,
    session: Session,
    acts: Vec<Act>,
    /// The ordinals of its legs, and behind each the next, in order.
    ordinals: Vec<u64>,
}

impl RecordedSession {
    /// A session to which nothing was done.
    pub fn new(alloc: Global, setup: Setup, config: Config) -> RecordedSession {
        RecordedSession {
            setup,
            session: Session::new(alloc, config),
            acts: Vec::new(alloc),
            ordinals: Vec::new(alloc),
        }
    }

    /// Remembers an ordinal, and the one behind it, which no leg has yet.
    fn keep_ordinal(&mut self, ordinal: u64) -> Result<(), PlayFault> {
        for ordinal in [ordinal, ordinal.saturating_add(1)] {
            if !self.ordinals.contains(&ordinal) {
                self.ordinals.push(ordinal)?;
            }
        }
        Ok(())
    }

    /// Does this to the session, and tells what it answers.
    pub fn call(
        &mut self,
        context: &CallContext,
        act: Act,
        answers: &mut Answers,
    ) -> Result<(), PlayFault> {
        if let Act::Leg(ordinal, _) = &act {
            self.keep_ordinal(*ordinal)?;
        }
        context.call(&mut self.session, &act, answers)?;
        self.acts.push(act)?;
        Ok(())
    }

    /// Tells where the session stands.
    pub fn tell(&self, alloc: Global, answers: &mut Answers) -> Result<(), PlayFault> {
        tell_standing(alloc, &self.session, &self.ordinals, answers)
    }

    /// Tells what `trial` makes of all that was done to the session.
    pub fn tell_trial(
        &self,
        context: &CallContext,
        answers: &mut Answers,
    ) -> Result<(), PlayFault> {
        match self.setup.config()? {
            Some(config) => play_trial(context, config, &self.acts, &self.ordinals, answers),
            None => Err(PlayFault::NotUnderstood),
        }
    }
}
