//! The files of the logs.
ghost use Rattle.std.specs.Prelude.{IfErr};
ghost use Rattle.check_command.specs.Fault.{IsOfLogs};

use crate::fault::CommandFault;
use day_check::{LinePlace, LogFault, read_line_at};
use std::alloc::Global;
use std::fs::{self, Files};
use std::io::{self, BufReader};

/// Opens a file to be read.
fn open_file<F: Files>(files: &F, path: &str) -> Result<F::File, LogFault> {
    match fs::open(files, path) {
        Ok(file) => Ok(file),
        Err(error) if error.kind() == io::ErrorKind::OutOfMemory => Err(LogFault::OutOfMemory),
        Err(_) => Err(LogFault::ReadFailed),
    }
}

/// Opens a log to be read.
pub(crate) fn open<F: Files>(
    files: &F,
    alloc: Global,
    path: &str,
) -> Result<BufReader<F::File>, LogFault> {
    let file = open_file(files, path)?;
    match BufReader::new(alloc, file) {
        Ok(input) => Ok(input),
        Err(_) => Err(LogFault::OutOfMemory),
    }
}

/// The line of a log at a place.
fn read_at<F: Files>(files: &F, alloc: Global, place: &LinePlace<'_>) -> Result<Vec<u8>, LogFault> {
    let mut input = open(files, alloc, place.path)?;
    read_line_at(alloc, &mut input, place.line)
}

/// The same, where a fault names the log.
pub(crate) fn line_at<F: Files>(
    files: &F,
    alloc: Global,
    place: &LinePlace<'_>,
) -> Result<Vec<u8>, CommandFault>
    ensures { IfErr result IsOfLogs }
{
    match read_at(files, alloc, place) {
        Ok(line) => Ok(line),
        Err(fault) => Err(CommandFault::of_log(alloc, place.path, fault)),
    }
}
