//! The answer to a line, in JSON.

ghost use Rattle.std.specs.Prelude.{◌≡◌, IfOk, string_bytes};
ghost use Rattle.json_lines.specs.Lines.{answer_json, bad_line_json};

use crate::line::Line;
use crate::quoted::quoted;
use desk_answers::Answer;
use desk_json::{Outcome, outcome_json, refusal_json};
use std::alloc::{AllocError, Global};
use sweep_text::LineFault;

/// That a line asks for nothing.
fn bad_line_json(alloc: Global, number: u64, fault: &LineFault) -> Result<String, AllocError>
    ensures { IfOk result (λ text. string_bytes text ≡ bad_line_json number fault.now) }
{
    let fault = quoted(alloc, fault)?;
    format!(in alloc; "{{\"bad_line\":{number},\"fault\":{fault}}}")
}

impl Line for Answer {
    ghost json = { answer_json };

    fn json(&self, alloc: Global) -> Result<String, AllocError> {
        match self {
            Answer::Placed { sweep, shares } => {
                format!(in alloc; "{{\"placed\":{sweep},\"shares\":{shares}}}")
            }
            Answer::Again { sweep, shares } => {
                let again = Outcome::Again {
                    sweep: *sweep,
                    shares: *shares,
                };
                outcome_json(alloc, &again)
            }
            Answer::Refused(refusal) => refusal_json(alloc, refusal),
            Answer::Closing => outcome_json(alloc, &Outcome::Closing),
            Answer::BadLine { number, fault } => bad_line_json(alloc, *number, fault),
        }
    }
}
