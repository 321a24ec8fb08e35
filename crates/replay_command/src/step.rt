//! A step of a day, as it is printed.
ghost use Rattle.std.specs.Prelude.{◌≡◌, true, IfErr, IfOk, OnOk};
ghost use Rattle.std.specs.Io.KnownBytes.{Appends};
ghost use Rattle.replay_command.specs.Steps.{step_line};
ghost use Rattle.replay_command.specs.Stream.{IsOfRun};

use crate::fault::CommandFault;
use command_line::print;
use script::Line;
use std::alloc::{AllocError, Global};
use std::io::Write;

/// A step, as `3 line 7 drop 0: S1L1 dropped`, with its end.
fn step_line(
    alloc: Global,
    number: u64,
    line: &Line<'_>,
    deeds: &[u8],
) -> Result<Vec<u8>, AllocError>
    ensures { IfOk result (λ text. text.items ≡ step_line number line.now.number line.now.text.now deeds.now) }
{
    let place = line.number;
    let mut text = format!(in alloc; "{number} line {place} ")?.into_bytes();
    text.extend_from_slice(line.text)?;
    text.extend_from_slice(b": ")?;
    text.extend_from_slice(deeds)?;
    text.extend_from_slice(b"\n")?;
    Ok(text)
}

/// Prints a step.
pub fn print_step<W: Write>(
    alloc: Global,
    number: u64,
    line: &Line<'_>,
    deeds: &[u8],
    out: &mut W,
) -> Result<(), CommandFault>
    ensures out { OnOk result (Appends (W.contents out.old) (W.contents out.new)
        (step_line number line.now.number line.now.text.now deeds.now)) }
    ensures only { IfErr result (IsOfRun true) }
{
    let text = step_line(alloc, number, line, deeds)?;
    Ok(print(&text, out)?)
}
