//! Executions with the names of their venues.

ghost use Rattle.std.specs.Prelude.{◌≡◌, filter_map, IfOk};
ghost use Rattle.day_executions.specs.Named.{execution_of};

use crate::heard::{Heard, HeardNote};
use crate::lent::SaidNote;
use desk_executions::Execution;
use desk_words::VenueName;
use std::alloc::{AllocError, Global};

/// What was heard with the name of its venue, if it has one.
fn execution_of(names: &[VenueName], said: SaidNote) -> Option<Execution>
    ensures { result ≡ execution_of names.now said }
{
    let SaidNote { note, words } = said;
    let HeardNote { number, heard } = note;
    let Heard {
        venue,
        note,
        answer,
    } = heard;
    let name = names.get(usize::from(venue.number()))?;
    Some(Execution {
        number,
        venue: name.clone().unwrap(),
        note,
        answer,
        words,
    })
}

/// What was heard with the names of the venues. The only refusal is out of memory.
pub fn named(
    alloc: Global,
    names: &[VenueName],
    notes: Vec<SaidNote>,
) -> Result<Vec<Execution>, AllocError>
    ensures { IfOk result (λ executions. executions.items ≡ filter_map (execution_of names.now) notes.items) }
{
    let mut executions = Vec::new(alloc);
    for note in notes {
        if let Some(execution) = execution_of(names, note) {
            executions.push(execution)?;
        }
    }
    Ok(executions)
}
