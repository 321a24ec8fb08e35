//! Why a body is no sweep.

ghost use Rattle.std.specs.Prelude.{Some};
ghost use Rattle.desk_json.specs.Fault.{body_fault_text, sweep_fault_text};

use crate::key_fault::KeyFault;
use std::fmt;
use sweep_text::Word;

/// Why JSON asks for no sweep.
#[derive(Debug, PartialEq, Eq, Drop)]
pub enum SweepFault {
    /// It is no object with `legs`, an array.
    NoSweep,
    /// A key beside `legs` and `ref`; of several the first by its bytes.
    Unknown(Word),
    /// The reference isn't a text.
    RefNotText,
    /// It isn't 1 to 64 printable characters without a space.
    BadReference(Word),
    /// A leg has a fault, the first that has one; places are counted from 1.
    Leg { place: usize, fault: KeyFault },
}

/// Why a body asks for no sweep.
#[derive(Debug, PartialEq, Eq, Drop)]
pub enum BodyFault {
    /// It is no JSON in UTF-8: where the reader stood, counted from 1.
    NoJson { line: usize, column: usize },
    /// An object, at any depth, has a key twice.
    KeyTwice,
    Sweep(SweepFault),
    /// What stands in the head as `Idempotency-Key` is no reference.
    BadKey,
    /// Head and body have two references.
    TwoReferences,
}

impl fmt::Display for SweepFault {
    ghost output = { λ fault. Some (sweep_fault_text fault) };

    fn fmt<W: fmt::Write>(&self, f: &mut fmt::Formatter<W>) -> fmt::Result {
        match self {
            SweepFault::NoSweep => write!(f, "a sweep is an object with legs"),
            SweepFault::Unknown(key) => write!(f, "unknown key {key}"),
            SweepFault::RefNotText => write!(f, "ref has to be text"),
            SweepFault::BadReference(word) => write!(f, "bad reference {word}"),
            SweepFault::Leg { fault, .. } => write!(f, "{fault}"),
        }
    }
}

impl fmt::Display for BodyFault {
    ghost output = { λ fault. Some (body_fault_text fault) };

    fn fmt<W: fmt::Write>(&self, f: &mut fmt::Formatter<W>) -> fmt::Result {
        match self {
            BodyFault::NoJson { .. } => write!(f, "no JSON"),
            BodyFault::KeyTwice => write!(f, "an object has a key twice"),
            BodyFault::Sweep(fault) => write!(f, "{fault}"),
            BodyFault::BadKey => write!(f, "bad Idempotency-Key"),
            BodyFault::TwoReferences => write!(f, "Idempotency-Key and ref differ"),
        }
    }
}
