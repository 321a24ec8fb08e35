//! The exit status of a run, which tells its fault.
ghost use Rattle.std.specs.Prelude.{◌≡◌};
ghost use Rattle.command_line.specs.ExitStatus.{exit_status};

use crate::fault::Fault;
use std::io::Write;

/// Writes the fault to `err`, and its reason in a line behind it, and gives its exit status, which also tells it where
/// `err` can't be written.
pub fn tell<F: Fault, E: Write>(fault: &F, err: &mut E) -> u8
    ensures { result ≡ F.status_of fault.now }
{
    let _ = write!(err, "dispatch: {fault}");
    if !fault.ends_line() {
        let _ = writeln!(err);
    }
    if let Some(reason) = fault.reason() {
        let _ = writeln!(err, "  {reason}");
    }
    fault.status()
}

/// The exit status of a run that ended so. Its fault is written to `err`.
pub fn finish<F: Fault + Drop, E: Write>(run: Result<(), F>, err: &mut E) -> u8
    ensures { result ≡ exit_status F.status_of run }
{
    match run {
        Ok(()) => 0,
        Err(fault) => tell(&fault, err),
    }
}
