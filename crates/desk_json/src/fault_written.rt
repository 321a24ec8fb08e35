//! Why a request is refused, as it is answered.

ghost use Rattle.std.specs.Prelude.{◌≡◌, IfOk, string_bytes};
ghost use Rattle.desk_json.specs.FaultJson.{at_leg_json, body_fault_json, fault_key, leg_fault_json, said_json, sweep_fault_json};

use crate::key::Key;
use crate::key_fault::KeyFault;
use crate::quoted::quoted;
use crate::sweep_fault::{BodyFault, SweepFault};
use std::alloc::{AllocError, Global};

/// A fault in words, as `{"fault":"no such place"}`. The only refusal is out of memory.
pub fn said_json(alloc: Global, words: &str) -> Result<String, AllocError>
    ensures { IfOk result (λ text. string_bytes text ≡ said_json words.now) }
{
    let words = quoted(alloc, words)?;
    format!(in alloc; "{{\"fault\":{words}}}")
}

/// The key that a leg's fault is at; empty where the leg is no object.
fn fault_key(fault: &KeyFault) -> &str
    ensures { result.now ≡ fault_key fault.now }
{
    match fault {
        KeyFault::NoObject => "",
        KeyFault::Unknown(word) => word.as_str(),
        KeyFault::Missing(key) => key.text(),
        KeyFault::NotText(key) => key.text(),
        KeyFault::NotNumber => "shares",
        KeyFault::NoVenue(_) => "venue",
        KeyFault::BadSymbol(_) => "symbol",
        KeyFault::BadSide(_) => "side",
        KeyFault::BadShares(_) => "shares",
        KeyFault::BadPrice(_) => "price",
    }
}

/// A fault at a leg, of JSON texts.
fn at_leg_json(alloc: Global, words: &str, place: usize, key: &str) -> Result<String, AllocError>
    ensures { IfOk result (λ text. string_bytes text ≡ at_leg_json words.now place key.now) }
{
    format!(in alloc; "{{\"fault\":{words},\"leg\":{place},\"key\":{key}}}")
}

/// A leg's fault, as `{"fault":"no venue ARCA2","leg":2,"key":"venue"}`.
fn leg_fault_json(alloc: Global, place: usize, fault: &KeyFault) -> Result<String, AllocError>
    ensures { IfOk result (λ text. string_bytes text ≡ leg_fault_json place fault.now) }
{
    let words = format!(in alloc; "{fault}")?;
    let words = quoted(alloc, words.as_str())?;
    let key = quoted(alloc, fault_key(fault))?;
    at_leg_json(alloc, words.as_str(), place, key.as_str())
}

/// Why JSON asks for no sweep.
fn sweep_fault_json(alloc: Global, fault: &SweepFault) -> Result<String, AllocError>
    ensures { IfOk result (λ text. string_bytes text ≡ sweep_fault_json fault.now) }
{
    match fault {
        SweepFault::NoSweep => said_json(alloc, "a sweep is an object with legs"),
        SweepFault::Unknown(_) => {
            let words = format!(in alloc; "{fault}")?;
            said_json(alloc, words.as_str())
        }
        SweepFault::RefNotText => said_json(alloc, "ref has to be text"),
        SweepFault::BadReference(_) => {
            let words = format!(in alloc; "{fault}")?;
            said_json(alloc, words.as_str())
        }
        SweepFault::Leg { place, fault } => leg_fault_json(alloc, *place, fault),
    }
}

/// Why a body asks for no sweep: a fault with its leg and key, or with line and column where it is no JSON. The only
/// refusal is out of memory.
pub fn body_fault_json(alloc: Global, fault: &BodyFault) -> Result<String, AllocError>
    ensures { IfOk result (λ text. string_bytes text ≡ body_fault_json fault.now) }
{
    match fault {
        BodyFault::NoJson { line, column } => {
            format!(in alloc; "{{\"fault\":\"no JSON\",\"line\":{line},\"column\":{column}}}")
        }
        BodyFault::KeyTwice => said_json(alloc, "an object has a key twice"),
        BodyFault::Sweep(fault) => sweep_fault_json(alloc, fault),
        BodyFault::BadKey => said_json(alloc, "bad Idempotency-Key"),
        BodyFault::TwoReferences => said_json(alloc, "Idempotency-Key and ref differ"),
    }
}
