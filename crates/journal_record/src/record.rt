//! A line as it is written.

ghost use Rattle.std.specs.Prelude.{◌≡◌, ◌↔◌, ◌+◌, ◌<◌, ◌++◌, ◌∷◌, [], Err, true, false, length, take, vec_capacity, vec_len, IfOk, OnErr, OnOk};
ghost use Rattle.journal_record.specs.Record.{is_line, record_text, sum_after};
ghost use Rattle.journal_record.specs.declared.record.RecordFault.TheVariants.{NotALine, OutOfMemory};

use crate::sum::{mark_of, sum_after};
use std::alloc::AllocError;
use thiserror::Error;

/// Why a line isn't written.
#[derive(Clone, Copy, Debug, PartialEq, Eq, Error)]
pub enum RecordFault {
    /// It has a NUL or an end of line.
    #[error("a line with a NUL or an end of line in it")]
    NotALine,
    #[error("out of memory")]
    OutOfMemory,
}

/// How many bytes a record has beside its line: a mark before it, and an end of line.
pub const BESIDE_LINE: usize = 10;

/// Whether a line has neither a NUL nor an end of line.
pub fn is_line(line: &[u8]) -> bool
    ensures { result ≡ is_line line.now }
{
    line.iter().all(|byte| *byte != 0 && *byte != b'\n')
}

/// Puts the parts of a record behind a text; at `Err` some of them may be there.
#[tactic(auto, using(crate::proofs::Fronts::front_one, crate::proofs::Fronts::front_two, crate::proofs::Fronts::front_three))]
fn append_parts(text: &mut Vec<u8>, mark: &[u8], line: &[u8]) -> Result<(), AllocError>
    ensures all { OnOk result (text.new.items ≡ text.old.items ++ mark.now ++ line.now ++ 10 ∷ []) }
    ensures full { OnErr result (vec_capacity text.old < vec_len text.old + (length mark.now + length line.now + 1)) }
    ensures front { take (length text.old.items) text.new.items ≡ text.old.items }
{
    text.extend_from_slice(mark)?;
    text.extend_from_slice(line)?;
    text.extend_from_slice(b"\n")
}

/// Puts the record of a line behind a text, where the lines before it have this sum, and gives the sum with it. At
/// `Err` the text is as it was.
pub fn append_record(text: &mut Vec<u8>, sum: u32, line: &[u8]) -> Result<u32, RecordFault>
    ensures text { OnOk result (text.new.items ≡ text.old.items ++ record_text sum line.now) }
    ensures sum { IfOk result (λ now. now ≡ sum_after sum line.now) }
    ensures fit { OnOk result (is_line line.now ≡ true) }
    ensures same { OnErr result (text.new.items ≡ text.old.items) }
    ensures unfit { result ≡ Err NotALine ↔ is_line line.now ≡ false }
    ensures full { result ≡ Err OutOfMemory
        → vec_capacity text.old < vec_len text.old + (length line.now + BESIDE_LINE) }
{
    if !is_line(line) {
        return Err(RecordFault::NotALine);
    }
    let now = sum_after(sum, line);
    let before = text.len();
    if append_parts(text, &mark_of(now), line).is_err() {
        text.truncate(before);
        return Err(RecordFault::OutOfMemory);
    }
    Ok(now)
}
