//! What a sweep that is handed in is answered.

ghost use Rattle.std.specs.Prelude.{◌≡◌, ◌++◌, IfOk, codes, string_bytes};
ghost use Rattle.desk_json.specs.Outcome.{closing_json, outcome_json, refusal_json};

use desk_answers::Refusal;
use std::alloc::{AllocError, Global};

/// What becomes of a sweep that is handed in.
#[derive(Debug, PartialEq, Eq, Drop)]
pub enum Outcome {
    /// The number of the sweep, and the shares of all its legs.
    Placed { sweep: u64, shares: u64 },
    /// Nothing is placed: these legs were placed before under the same reference, as this number.
    Again { sweep: u64, shares: u64 },
    Refused(Refusal),
    /// Refused, since the day is closing.
    Closing,
}

/// A refusal, as `{"refused":"R04","text":"its gate is down","venue":"ARCA"}`.
pub fn refusal_json(alloc: Global, refusal: &Refusal) -> Result<String, AllocError>
    ensures { IfOk result (λ text. string_bytes text ≡ refusal_json refusal.now) }
{
    match refusal {
        Refusal::NoLegs => {
            String::from_str(alloc, r#"{"refused":"R01","text":"it has no legs"}"#)
        }
        Refusal::TooManyLegs => {
            String::from_str(
                alloc,
                r#"{"refused":"R02","text":"it has more than 32 legs"}"#,
            )
        }
        Refusal::UnknownVenue => String::from_str(
            alloc,
            r#"{"refused":"R03","text":"a leg is for no venue of the desk"}"#,
        ),
        Refusal::GateDown(venue) => {
            format!(in alloc;
                "{{\"refused\":\"R04\",\"text\":\"its gate is down\",\"venue\":\"{venue}\"}}"
            )
        }
        Refusal::BacklogFull(venue) => {
            format!(in alloc;
                "{{\"refused\":\"R05\",\"text\":\"its backlog is full\",\"venue\":\"{venue}\"}}"
            )
        }
        Refusal::SweepsSpent => String::from_str(
            alloc,
            r#"{"refused":"R06","text":"the numbers of sweeps are spent"}"#,
        ),
        Refusal::OutOfMemory => {
            String::from_str(alloc, r#"{"refused":"R07","text":"out of memory"}"#)
        }
        Refusal::WrongBook => String::from_str(
            alloc,
            r#"{"refused":"R08","text":"the book isn't the desk's"}"#,
        ),
        Refusal::OtherLegs => String::from_str(
            alloc,
            r#"{"refused":"R09","text":"its reference is another sweep's"}"#,
        ),
        Refusal::NoReference => String::from_str(
            alloc,
            r#"{"refused":"R10","text":"it has no reference"}"#,
        ),
        Refusal::OverLimit {
            venue: Some(venue),
            over,
        } => {
            let code = over.code();
            format!(in alloc;
                "{{\"refused\":\"{code}\",\"text\":\"{over}\",\"venue\":\"{venue}\"}}"
            )
        }
        Refusal::OverLimit { venue: None, over } => {
            let code = over.code();
            format!(in alloc; "{{\"refused\":\"{code}\",\"text\":\"{over}\"}}")
        }
    }
}

/// The refusal of a day that is closing, as `{"refused":"closing","text":"the day is closing"}`.
pub(crate) fn closing_json(alloc: Global) -> Result<String, AllocError>
    ensures { IfOk result (λ text. string_bytes text ≡ closing_json) }
{
    String::from_str(
        alloc,
        r#"{"refused":"closing","text":"the day is closing"}"#,
    )
}

/// What became of a sweep, as `{"placed":12,"shares":150}`, with `"again":true` where it was placed before, or why it
/// was refused. The only refusal is out of memory.
pub fn outcome_json(alloc: Global, outcome: &Outcome) -> Result<String, AllocError>
    ensures { IfOk result (λ text. string_bytes text ≡ outcome_json outcome.now) }
{
    match outcome {
        Outcome::Placed { sweep, shares } => {
            format!(in alloc; "{{\"placed\":{sweep},\"shares\":{shares}}}")
        }
        Outcome::Again { sweep, shares } => {
            format!(in alloc; "{{\"placed\":{sweep},\"shares\":{shares},\"again\":true}}")
        }
        Outcome::Refused(refusal) => refusal_json(alloc, refusal),
        Outcome::Closing => closing_json(alloc),
    }
}
