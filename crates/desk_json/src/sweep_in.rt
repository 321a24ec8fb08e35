//! The sweep of a body.

ghost use Rattle.std.specs.Prelude.{◌≡◌, ◌≤◌, codes, find, length, not, string_bytes, IfOk};
ghost use Rattle.std.specs.Map.{keys_of};
ghost use Rattle.std.specs.Option.{option_map};
ghost use Rattle.serde_json.specs.View.{items_view, members_view, view};
ghost use Rattle.sweep_text.specs.Legs.{result_map};
ghost use Rattle.serde_json.specs.Find.{get};
ghost use Rattle.desk_json.specs.Sweep.{BodySays, is_sweep_key, leg_values, legs_in, other_key, ref_at, ref_of_value, sweep_in};

use crate::leg_in::leg_in;
use crate::sweep_fault::{BodyFault, SweepFault};
use crate::twice::has_key_twice;
use desk_words::{VenueName, shown};
use leg::{Legs, Sweep};
use serde_json::{Map, Value};
use std::alloc::{AllocError, Global};
use sweep_refs::{Submission, SweepRef};
use sweep_text::Word;

/// The legs of values, or the first fault. The only refusal is out of memory.
#[tactic(auto, using(crate::proofs::LegsRead::steps))]
fn legs_in(
    alloc: Global,
    names: &[VenueName],
    values: &[Value],
) -> Result<Result<Legs, SweepFault>, AllocError>
    requires { length names.now ≤ 16 }
    ensures { IfOk result (λ said. said ≡ legs_in names.now 1 (items_view values.now)) }
{
    let mut legs = Vec::new(alloc);
    for i in 0..values.len() {
        match leg_in(names, &values[i]) {
            Ok(leg) => legs.push(leg)?,
            Err(fault) => {
                return Ok(Err(SweepFault::Leg {
                    place: i + 1,
                    fault,
                }));
            }
        }
    }
    Ok(Ok(Legs::new(legs)))
}

/// Whether a key is one of a sweep's.
fn is_sweep_key(key: &[u8]) -> bool
    ensures { result ≡ is_sweep_key key.now }
{
    key == b"legs".as_slice() || key == b"ref".as_slice()
}

/// The first key beside `legs` and `ref`.
fn first_other(members: &Map<String, Value>) -> Option<&String>
    ensures { option_map (λ key. key.now) result
        ≡ find (λ key. not (is_sweep_key (string_bytes key))) (keys_of members.now.entries) }
{
    members
        .keys()
        .find(|key| !is_sweep_key(key.as_str().as_bytes()))
}

/// The first key beside `legs` and `ref`, as it is shown.
#[tactic(auto, using(crate::proofs::KeysFound::found_key))]
fn other_key(members: &Map<String, Value>) -> Option<Word>
    ensures { result ≡ other_key (members_view members.now.entries) }
{
    match first_other(members) {
        Some(key) => Some(shown(key.as_str().as_bytes())),
        None => None,
    }
}

/// The values of the legs: a sweep is an object with `legs`, an array, and no other key but `ref`.
fn leg_values(value: &Value) -> Result<&Vec<Value>, SweepFault>
    ensures { result_map (λ values. items_view values.now.items) result ≡ leg_values (view value.now) }
{
    let Some(members) = value.as_object() else {
        return Err(SweepFault::NoSweep);
    };
    if let Some(key) = other_key(members) {
        return Err(SweepFault::Unknown(key));
    }
    match value.get("legs").and_then(Value::as_array) {
        Some(values) => Ok(values),
        None => Err(SweepFault::NoSweep),
    }
}

/// The reference that a value is.
fn ref_of_value(value: &Value) -> Result<SweepRef, SweepFault>
    ensures { result ≡ ref_of_value (view value.now) }
{
    let Some(word) = value.as_str() else {
        return Err(SweepFault::RefNotText);
    };
    match SweepRef::new(word.as_bytes()) {
        Some(reference) => Ok(reference),
        None => Err(SweepFault::BadReference(shown(word.as_bytes()))),
    }
}

/// The reference of a sweep, where it has one.
fn ref_in(value: &Value) -> Result<Option<SweepRef>, SweepFault>
    ensures { result ≡ ref_at (get (codes "ref") (view value.now)) }
{
    match value.get("ref") {
        Some(found) => match ref_of_value(found) {
            Ok(reference) => Ok(Some(reference)),
            Err(fault) => Err(fault),
        },
        None => Ok(None),
    }
}

/// The sweep that a value asks for, or its first fault. The only refusal is out of memory.
#[tactic(auto, unfolding(crate::specs::Sweep::sweep_in))]
fn sweep_in(
    alloc: Global,
    names: &[VenueName],
    value: &Value,
) -> Result<Result<Submission, SweepFault>, AllocError>
    requires { length names.now ≤ 16 }
    ensures { IfOk result (λ said. said ≡ sweep_in names.now (view value.now)) }
{
    let values = match leg_values(value) {
        Ok(values) => values,
        Err(fault) => return Ok(Err(fault)),
    };
    let reference = match ref_in(value) {
        Ok(reference) => reference,
        Err(fault) => return Ok(Err(fault)),
    };
    match legs_in(alloc, names, values)? {
        Ok(legs) => Ok(Ok(Submission {
            reference,
            sweep: Sweep { legs },
        })),
        Err(fault) => Ok(Err(fault)),
    }
}

/// The sweep that a body asks for, as `{"ref":"P7-3","legs":[{"venue":"NYSE","symbol":"BRK.B","side":"buy",
/// "shares":100,"price":"10.25"}]}`, where the reference may be left out, or its first fault. A body in which an object
/// has a key twice asks for none. The only refusal is out of memory.
#[tactic(auto, using(crate::proofs::SaysIt::says))]
pub fn read_sweep(
    alloc: Global,
    names: &[VenueName],
    body: &[u8],
) -> Result<Result<Submission, BodyFault>, AllocError>
    requires { length names.now ≤ 16 }
    ensures { IfOk result (λ said. BodySays names.now body.now said) }
{
    let value = match Value::from_slice(alloc, body) {
        Ok(value) => value,
        Err(e) if e.is_memory() => return Err(AllocError),
        Err(e) => {
            return Ok(Err(BodyFault::NoJson {
                line: e.line(),
                column: e.column(),
            }));
        }
    };
    if has_key_twice(alloc, body)? {
        return Ok(Err(BodyFault::KeyTwice));
    }
    match sweep_in(alloc, names, &value)? {
        Ok(submission) => Ok(Ok(submission)),
        Err(fault) => Ok(Err(BodyFault::Sweep(fault))),
    }
}
