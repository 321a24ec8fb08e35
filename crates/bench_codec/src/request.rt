//! What a run is asked to do.

use crate::expected::Expected;
use crate::part::{Part, run_codec};
use bench_fault::BenchFault;
use std::alloc::Global;
use std::io::Write;
use trial::number_to;

/// The most messages.
const MILLION: u64 = 1_000_000;

/// How many messages each part has with no word.
const FEW: u64 = 3;

/// Works on so many messages, by the words of the command line.
fn run_part<W: Write>(
    alloc: Global,
    count: &str,
    part: &str,
    out: &mut W,
) -> Result<(), BenchFault<Expected>> {
    let count = number_to(MILLION, count).ok_or(BenchFault::Usage(Expected::Messages))?;
    let part = Part::named(part).ok_or(BenchFault::Usage(Expected::Part))?;
    Ok(run_codec(alloc, count, part, out)?)
}

/// Does what the words of the command line ask for, of which the first is the program's own name.
pub fn run<W: Write>(
    alloc: Global,
    words: &[String],
    out: &mut W,
) -> Result<(), BenchFault<Expected>> {
    match words {
        [_] => Ok(run_codec(alloc, FEW, Part::All, out)?),
        [_, count, part] => run_part(alloc, count.as_str(), part.as_str(), out),
        _ => Err(BenchFault::Usage(Expected::Request)),
    }
}
