//! What the calls of a session answer, as lines.

use crate::note_text::note_text;
use case_text::{Answers, FrameForm, PlayFault};
use dialect::Note;
use leg::LegId;
use session_core::{Ended, SessionFault, Step};
use std::alloc::Global;

/// That a call was refused.
pub fn tell_refused(
    alloc: Global,
    fault: SessionFault,
    answers: &mut Answers,
) -> Result<(), PlayFault> {
    let text = format!(in alloc; "refused {fault}")?;
    answers.say(&text)
}

/// Why the connection ended, if it did.
pub fn tell_ended(
    alloc: Global,
    ended: Option<Ended>,
    answers: &mut Answers,
) -> Result<(), PlayFault> {
    match ended {
        Some(why) => {
            let text = format!(in alloc; "ends {why}")?;
            answers.say(&text)
        }
        None => Ok(()),
    }
}

fn tell_note(alloc: Global, note: Option<&Note>, answers: &mut Answers) -> Result<(), PlayFault> {
    match note {
        Some(note) => {
            let text = note_text(alloc, note)?;
            answers.say(&text)
        }
        None => Ok(()),
    }
}

fn tell_withdrawn(alloc: Global, ids: &[LegId], answers: &mut Answers) -> Result<(), PlayFault> {
    for id in ids {
        let text = format!(in alloc; "withdrawn {id}")?;
        answers.say(&text)?;
    }
    Ok(())
}

/// What a call did: the legs that are withdrawn, the frames, the note, and why the connection ended.
pub fn tell_step(
    alloc: Global,
    form: FrameForm,
    step: Step,
    answers: &mut Answers,
) -> Result<(), PlayFault> {
    let withdrawn = step.withdrawn.into_vec();
    tell_withdrawn(alloc, &withdrawn, answers)?;
    let frames = step.out.into_vec();
    for frame in &frames {
        form.send(alloc, frame, answers)?;
    }
    tell_note(alloc, step.note.as_ref(), answers)?;
    tell_ended(alloc, step.ended, answers)
}
