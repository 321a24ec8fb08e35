//! The logs of a day that is gone on with.

ghost use Rattle.std.specs.Prelude.{◌≡◌, ◌≢◌, ◌↔◌, ◌⊎◌, ◌+◌, ◌≤◌, Err, true, length, IfErr, IfOk};
ghost use Rattle.day_log.specs.Folder.{is_name_taken, lacks};

use crate::fault::LogFault;
use crate::folder::{DayLogs, begin_file, is_name_taken, path_of};
use crate::header::{SWEEPS_HEADER, header_lines};
use crate::log_file::LogFile;
use desk_config::Venue;
use std::alloc::Global;
use std::fs::{File, Files, OpenOptions};
use std::os::unix::fs::FileExt;
use std::{fs, io};

/// How a log was left.
#[derive(Clone, Copy, Debug, PartialEq, Eq)]
enum LogEnd {
    /// Nothing is in it.
    New,
    /// Its last line isn't whole: the process that wrote it was killed there.
    WithinLine,
    /// Its last line is whole.
    Whole,
}

/// What is written to a log before its next line: the first lines of a new one, which are given, or the end of a line
/// that was broken off.
fn lacks(end: LogEnd, header: &[u8]) -> &[u8]
    ensures { result.now ≡ lacks end header.now }
{
    match end {
        LogEnd::New => header,
        LogEnd::WithinLine => b"\n",
        LogEnd::Whole => b"",
    }
}

/// The last byte of a file of this length.
fn last_byte(file: &File, length: u64) -> io::Result<u8>
    requires { 1 ≤ length }
{
    let mut last = [0u8; 1];
    file.read_exact_at(&mut last, length - 1)?;
    Ok(last[0])
}

/// How a log was left.
fn end_of(file: &File) -> io::Result<LogEnd> {
    let length = file.metadata()?.len();
    if length == 0 {
        return Ok(LogEnd::New);
    }
    match last_byte(file, length)? {
        b'\n' => Ok(LogEnd::Whole),
        _ => Ok(LogEnd::WithinLine),
    }
}

/// Opens a log behind all that is in it, and says how it was left. It is made where it isn't there.
fn open_log<R: Files<File = File>>(rt: &R, path: &str) -> io::Result<(File, LogEnd)> {
    let file = OpenOptions::new()
        .read(true)
        .append(true)
        .create(true)
        .open(rt, path)?;
    let end = end_of(&file)?;
    Ok((file, end))
}

/// Goes on with a log, which has these first lines if it is new.
fn go_on_with_log<R: Files<File = File>>(
    rt: &R,
    alloc: Global,
    folder: &str,
    file: LogFile,
    header: &[u8],
) -> Result<File, LogFault>
    ensures { IfErr result (λ fault. (fault ≡ LogFault.CantWrite file) ⊎ (fault ≡ LogFault.OutOfMemory)) }
{
    let path = path_of(alloc, folder, &file)?;
    match open_log(rt, path.as_str()) {
        Ok((out, end)) => begin_file(out, file, lacks(end, header)),
        Err(_) => Err(LogFault::CantWrite(file)),
    }
}

/// Goes on with the log of a venue.
fn go_on_with_venue<R: Files<File = File>>(
    rt: &R,
    alloc: Global,
    folder: &str,
    venue: &Venue,
) -> Result<File, LogFault>
    ensures { IfErr result (λ fault. fault ≢ LogFault.NameTaken) }
{
    let header = header_lines(alloc, venue)?;
    let file = LogFile::Venue(venue.name.clone()?);
    go_on_with_log(rt, alloc, folder, file, header.as_slice())
}

/// Goes on with the logs of a day in a folder that is there.
fn go_on_with_each<R: Files<File = File>>(
    rt: &R,
    alloc: Global,
    folder: &str,
    venues: &[Venue],
) -> Result<DayLogs<File>, LogFault>
    ensures venues { IfOk result (λ logs. length logs.venues.items ≡ length venues.now) }
    ensures writers { IfOk result (λ logs. length logs.writers.items ≡ length venues.now + 1) }
    ensures taken { IfErr result (λ fault. fault ≢ LogFault.NameTaken) }
{
    let sweeps = go_on_with_log(rt, alloc, folder, LogFile::Sweeps, SWEEPS_HEADER)?;
    let mut logs = DayLogs::new(alloc, sweeps)?;
    for venue in venues {
        let file = go_on_with_venue(rt, alloc, folder, venue)?;
        logs.add(alloc, file)?;
    }
    Ok(logs)
}

/// Goes on with the logs of a day in a folder: what is written there stays, and the lines of the day come behind it.
/// The folder is made where it isn't there, and so is each file. A line that was broken off gets its end.
pub fn go_on_with_logs<R: Files<File = File>>(
    rt: &R,
    alloc: Global,
    folder: &str,
    venues: &[Venue],
) -> Result<DayLogs<File>, LogFault>
    ensures venues { IfOk result (λ logs. length logs.venues.items ≡ length venues.now) }
    ensures writers { IfOk result (λ logs. length logs.writers.items ≡ length venues.now + 1) }
    ensures taken { result ≡ Err LogFault.NameTaken ↔ is_name_taken venues.now ≡ true }
{
    if is_name_taken(venues) {
        return Err(LogFault::NameTaken);
    }
    match fs::create_dir_all(rt, folder) {
        Ok(()) => {}
        Err(_) => return Err(LogFault::NoFolder),
    }
    go_on_with_each(rt, alloc, folder, venues)
}
