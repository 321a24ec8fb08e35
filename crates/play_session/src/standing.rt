//! Where a session stands.

use case_text::{Answers, PlayFault};
use leg::LegState;
use session_core::{Phase, Session};
use std::alloc::Global;

fn phase_name(phase: Phase) -> &'static str {
    match phase {
        Phase::Down => "Down",
        Phase::LoggingOn => "LoggingOn",
        Phase::Settling => "Settling",
        Phase::Up => "Up",
        Phase::Closing => "Closing",
        Phase::LoggedOut => "LoggedOut",
        Phase::Closed => "Closed",
    }
}

fn state_name(state: LegState) -> &'static str {
    match state {
        LegState::Queued => "queued",
        LegState::Doubt => "in doubt",
        LegState::Taken => "taken",
        LegState::Withdrawn => "withdrawn",
    }
}

/// Tells the state of a leg, if it was sent.
fn tell_leg(
    alloc: Global,
    session: &Session,
    ordinal: u64,
    answers: &mut Answers,
) -> Result<(), PlayFault> {
    match session.leg_state(ordinal) {
        Some(state) => {
            let state = state_name(state);
            let text = format!(in alloc; "leg {ordinal} {state}")?;
            answers.say(&text)
        }
        None => Ok(()),
    }
}

/// Tells the phase, how many connections there were, the next numbers, and whether a leg is in doubt.
fn tell_numbers(alloc: Global, session: &Session, answers: &mut Answers) -> Result<(), PlayFault> {
    let phase = phase_name(session.phase());
    let connection = session.connection();
    let next_out = session.next_out();
    let next_in = session.next_in();
    let doubt = if session.in_doubt() {
        ", legs in doubt"
    } else {
        ""
    };
    let text = format!(in alloc;
        "{phase}, connection {connection}, next out {next_out}, next in {next_in}{doubt}"
    )?;
    answers.say(&text)
}

/// Tells where a session stands, and the states of those of its legs that have these ordinals.
pub fn tell_standing(
    alloc: Global,
    session: &Session,
    ordinals: &[u64],
    answers: &mut Answers,
) -> Result<(), PlayFault> {
    tell_numbers(alloc, session, answers)?;
    for ordinal in ordinals {
        tell_leg(alloc, session, *ordinal, answers)?;
    }
    Ok(())
}
