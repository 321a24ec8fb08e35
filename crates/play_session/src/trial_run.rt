//! A list of calls, made in one go.

use crate::act::Act;
use crate::call_context::CallContext;
use crate::standing::tell_standing;
use crate::tell::{tell_refused, tell_step};
use case_text::{Answers, PlayFault};
use fix_tags::{Config, EnvelopeRef, read_envelope};
use fix_text::FrameReader;
use session_core::{SessionCall, trial};
use std::alloc::Global;

/// A reader for each act, which was fed the bytes that come by it.
fn readers(alloc: Global, acts: &[Act]) -> Result<Vec<FrameReader>, PlayFault> {
    let mut readers = Vec::new(alloc);
    for act in acts {
        let mut reader = FrameReader::new(alloc);
        if let Act::Frame(bytes) = act {
            if reader.feed(bytes).is_err() {
                return Err(PlayFault::OutOfMemory);
            }
        }
        readers.push(reader)?;
    }
    Ok(readers)
}

/// The message that a reader was fed, if it is one.
fn message(reader: &mut FrameReader) -> Result<Option<EnvelopeRef<'_>>, PlayFault> {
    match reader.next() {
        Ok(Some(frame)) => Ok(read_envelope(&frame).ok()),
        Ok(None) => Ok(None),
        Err(_) => Err(PlayFault::OutOfMemory),
    }
}

/// The call of an act, unless what came is no message.
fn call_of<'a>(
    act: &Act,
    reader: &'a mut FrameReader,
) -> Result<Option<SessionCall<'a>>, PlayFault> {
    match act {
        Act::Connect => Ok(Some(SessionCall::Connect)),
        Act::Leg(ordinal, leg) => Ok(Some(SessionCall::SendLeg(*ordinal, leg.clone()?))),
        Act::Frame(_) => Ok(message(reader)?.map(|envelope| SessionCall::Receive(envelope))),
        Act::Confirm => Ok(Some(SessionCall::Confirm)),
        Act::Quiet => Ok(Some(SessionCall::Quiet)),
        Act::Silent => Ok(Some(SessionCall::Silent)),
        Act::Close => Ok(Some(SessionCall::Close)),
        Act::Malformed => Ok(Some(SessionCall::Malformed)),
        Act::Broken => Ok(Some(SessionCall::Broken)),
        Act::Abandon => Ok(Some(SessionCall::Abandon)),
    }
}

/// The calls of the acts, in order.
fn calls_of<'a>(
    alloc: Global,
    acts: &[Act],
    readers: &'a mut [FrameReader],
) -> Result<Vec<SessionCall<'a>>, PlayFault> {
    let mut calls = Vec::new(alloc);
    for (act, reader) in acts.iter().zip(readers) {
        if let Some(call) = call_of(act, reader)? {
            calls.push(call)?;
        }
    }
    Ok(calls)
}

/// Makes the calls of the acts by `trial`, and tells its steps, and where its session stands.
pub fn play_trial(
    context: &CallContext,
    config: Config,
    acts: &[Act],
    ordinals: &[u64],
    answers: &mut Answers,
) -> Result<(), PlayFault> {
    let alloc = context.alloc;
    let mut readers = readers(alloc, acts)?;
    let calls = calls_of(alloc, acts, &mut readers)?;
    match trial(alloc, config, &context.dialect, &context.stamp, &calls) {
        Ok((session, steps)) => {
            for step in steps {
                answers.say("step")?;
                tell_step(alloc, context.form, step, answers)?;
            }
            tell_standing(alloc, &session, ordinals, answers)
        }
        Err(fault) => tell_refused(alloc, fault, answers),
    }
}
