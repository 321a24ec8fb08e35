//! What a log and an expected number answer, as lines.

use case_text::{Answers, PlayFault};
use leg::{LegId, LegState};
use resend::{GapFill, Judged, LogFault, OutLog, Run, Sent};
use std::alloc::Global;

fn state_name(state: LegState) -> &'static str {
    match state {
        LegState::Queued => "queued",
        LegState::Doubt => "in doubt",
        LegState::Taken => "taken",
        LegState::Withdrawn => "withdrawn",
    }
}

/// The number that was spent, or why none was.
pub fn tell_spent(
    alloc: Global,
    spent: Result<u64, LogFault>,
    answers: &mut Answers,
) -> Result<(), PlayFault> {
    let text = match spent {
        Ok(number) => format!(in alloc; "number {number}")?,
        Err(fault) => format!(in alloc; "refused {fault}")?,
    };
    answers.say(&text)
}

/// The next number, the last ordinal, and whether a leg is in doubt.
pub fn tell_log(alloc: Global, log: &OutLog, answers: &mut Answers) -> Result<(), PlayFault> {
    let next = log.next_number();
    let last = log.last_ordinal();
    let doubt = if log.in_doubt() {
        ", legs in doubt"
    } else {
        ""
    };
    let text = format!(in alloc; "next number {next}, last ordinal {last}{doubt}")?;
    answers.say(&text)
}

/// The legs in doubt.
pub fn tell_window(alloc: Global, window: &[Sent], answers: &mut Answers) -> Result<(), PlayFault> {
    for sent in window {
        let (number, ordinal, id) = (sent.number, sent.ordinal, sent.id);
        let text = format!(in alloc; "number {number}, leg {ordinal} {id}")?;
        answers.say(&text)?;
    }
    Ok(())
}

/// The settled legs, in runs.
pub fn tell_runs(alloc: Global, runs: &[Run], answers: &mut Answers) -> Result<(), PlayFault> {
    for run in runs {
        let (number, ordinal, count) = (run.first_number, run.first_ordinal, run.count);
        let state = state_name(run.state);
        let text = format!(in alloc; "{count} {state} from number {number}, leg {ordinal}")?;
        answers.say(&text)?;
    }
    Ok(())
}

pub fn tell_ids(alloc: Global, ids: &[LegId], answers: &mut Answers) -> Result<(), PlayFault> {
    for id in ids {
        let text = format!(in alloc; "{id}")?;
        answers.say(&text)?;
    }
    Ok(())
}

/// The leg of a number.
pub fn tell_leg(alloc: Global, leg: Option<LegId>, answers: &mut Answers) -> Result<(), PlayFault> {
    match leg {
        Some(id) => tell_ids(alloc, &[id], answers),
        None => answers.say("no leg"),
    }
}

/// How far the leg of an ordinal is settled.
pub fn tell_state(state: Option<LegState>, answers: &mut Answers) -> Result<(), PlayFault> {
    match state {
        Some(state) => answers.say(state_name(state)),
        None => answers.say("not sent"),
    }
}

/// The answer to a resend request.
pub fn tell_fill(
    alloc: Global,
    fill: Option<GapFill>,
    answers: &mut Answers,
) -> Result<(), PlayFault> {
    match fill {
        Some(fill) => {
            let (first, new_number) = (fill.first, fill.new_number);
            let text = format!(in alloc; "gap fill under {first} to {new_number}")?;
            answers.say(&text)
        }
        None => answers.say("no gap fill"),
    }
}

/// How a message's number stands to the expected one.
pub fn tell_judged(judged: Judged, answers: &mut Answers) -> Result<(), PlayFault> {
    answers.say(match judged {
        Judged::Due => "due",
        Judged::Ahead => "ahead",
        Judged::Repeat => "repeat",
        Judged::TooLow => "too low",
    })
}
