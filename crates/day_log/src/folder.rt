//! The folder of a day's logs.

ghost use Rattle.std.specs.Prelude.{◌≡◌, ◌≢◌, ◌↔◌, ◌⊎◌, ◌+◌, [], Err, true, length, string_bytes, IfErr, IfOk, OnOk};
ghost use Rattle.std.specs.Io.KnownBytes.{Appends};
ghost use Rattle.day_log.specs.Folder.{files_of, is_name_taken, path_text, MayFail};

use crate::fault::LogFault;
use crate::file_writer::FileWriter;
use crate::header::{SWEEPS_HEADER, header_lines};
use crate::log_file::LogFile;
use crate::venue_log::VenueLog;
use change_count::ChangeCount;
use desk_config::Venue;
use std::alloc::{AllocError, Global};
use std::fs::{Files, OpenOptions};
use std::io::{ErrorKind, Write};
use std::sync::Arc;
use std::{fs, io};

/// The logs of a day, begun: each has its first line.
#[derive(Drop)]
pub struct DayLogs<F: Write + Drop> {
    /// Of each venue, in order.
    pub venues: Vec<Arc<VenueLog, Global>>,
    /// Of the lines that the desk takes, and their answers.
    pub sweeps: Arc<VenueLog, Global>,
    /// What writes them, for `write_until`.
    pub writers: Vec<FileWriter<F>>,
}

/// Whether a venue has the name of the log of the lines.
pub(crate) fn is_name_taken(venues: &[Venue]) -> bool
    ensures { result ≡ is_name_taken venues.now }
{
    venues
        .iter()
        .any(|venue| venue.name.as_bytes() == b"sweeps".as_slice())
}

/// The files of a folder: one for each venue, and that of the lines.
fn files_of(alloc: Global, venues: &[Venue]) -> Result<Vec<LogFile>, AllocError>
    ensures { IfOk result (λ files. files.items ≡ files_of venues.now) }
{
    let mut files = Vec::new(alloc);
    for venue in venues {
        files.push(LogFile::Venue(venue.name.clone()?))?;
    }
    files.push(LogFile::Sweeps)?;
    Ok(files)
}

/// Where a file is.
pub(crate) fn path_of(alloc: Global, folder: &str, file: &LogFile) -> Result<String, AllocError>
    ensures { IfOk result (λ path. string_bytes path ≡ path_text folder.now file.now) }
{
    let mut path = String::new(alloc);
    write!(path, "{folder}/{file}")?;
    Ok(path)
}

/// Refuses a file that is there.
fn check_file<R: Files>(rt: &R, alloc: Global, folder: &str, file: LogFile) -> Result<(), LogFault>
    ensures { IfErr result (λ fault. MayFail fault file) }
{
    let path = path_of(alloc, folder, &file)?;
    match fs::exists(rt, path.as_str()) {
        Ok(false) => Ok(()),
        Ok(true) => Err(LogFault::Exists(file)),
        Err(_) => Err(LogFault::CantLook(file)),
    }
}

/// Refuses files of which one is there.
fn check_files<R: Files>(
    rt: &R,
    alloc: Global,
    folder: &str,
    venues: &[Venue],
) -> Result<(), LogFault>
    ensures { IfErr result (λ fault. fault ≢ LogFault.NameTaken) }
{
    for file in files_of(alloc, venues)? {
        check_file(rt, alloc, folder, file)?;
    }
    Ok(())
}

/// Makes a file that isn't there yet.
fn new_file<R: Files>(rt: &R, path: &str) -> io::Result<R::File> {
    OpenOptions::new()
        .append(true)
        .create_new(true)
        .open(rt, path)
}

/// Writes the first line of a log.
pub(crate) fn begin_file<W: Write + Drop>(
    out: W,
    file: LogFile,
    header: &[u8],
) -> Result<W, LogFault>
    ensures line { IfOk result (λ begun. Appends (W.contents out) (W.contents begun) header.now) }
    ensures fault { IfErr result (λ fault. fault ≡ LogFault.CantWrite file) }
{
    let mut out = out;
    match out.write_all(header) {
        Ok(()) => Ok(out),
        Err(_) => Err(LogFault::CantWrite(file)),
    }
}

/// Begins a log: its file is made, and has this line.
fn begin_log<R: Files>(
    rt: &R,
    alloc: Global,
    folder: &str,
    file: LogFile,
    header: &[u8],
) -> Result<R::File, LogFault>
    ensures { IfErr result (λ fault. (fault ≡ LogFault.Exists file) ⊎ (fault ≡ LogFault.CantWrite file)
        ⊎ (fault ≡ LogFault.OutOfMemory)) }
{
    let path = path_of(alloc, folder, &file)?;
    match new_file(rt, path.as_str()) {
        Ok(out) => begin_file(out, file, header),
        Err(e) if e.kind() == ErrorKind::AlreadyExists => Err(LogFault::Exists(file)),
        Err(_) => Err(LogFault::CantWrite(file)),
    }
}

/// Begins the log of a venue.
fn begin_venue<R: Files>(
    rt: &R,
    alloc: Global,
    folder: &str,
    venue: &Venue,
) -> Result<R::File, LogFault>
    ensures { IfErr result (λ fault. fault ≢ LogFault.NameTaken) }
{
    let header = header_lines(alloc, venue)?;
    let file = LogFile::Venue(venue.name.clone()?);
    begin_log(rt, alloc, folder, file, header.as_slice())
}

/// The lines of a log, of which none waits, and which are told there.
fn new_log(
    alloc: Global,
    lines: Arc<ChangeCount, Global>,
) -> Result<Arc<VenueLog, Global>, LogFault>
    ensures { IfErr result (λ fault. fault ≡ LogFault.OutOfMemory) }
{
    Ok(Arc::new(alloc, VenueLog::new(alloc, lines))?)
}

impl<F: Write + Drop> DayLogs<F> {
    /// The lines of the desk are written to this file.
    pub(crate) fn new(alloc: Global, sweeps: F) -> Result<DayLogs<F>, LogFault>
        ensures some { IfOk result (λ logs. (logs.venues.items ≡ []) × (length logs.writers.items ≡ 1)) }
        ensures only { IfErr result (λ fault. fault ≡ LogFault.OutOfMemory) }
    {
        let log = new_log(alloc, Arc::new(alloc, ChangeCount::new())?)?;
        let mut writers = Vec::new(alloc);
        writers.push(FileWriter::new(log.clone()?, sweeps))?;
        Ok(DayLogs {
            venues: Vec::new(alloc),
            sweeps: log,
            writers,
        })
    }

    /// The lines of the next venue are written to this file.
    pub(crate) fn add(&mut self, alloc: Global, file: F) -> Result<(), LogFault>
        ensures more { OnOk result ((length self.new.venues.items ≡ length self.old.venues.items + 1)
            × (length self.new.writers.items ≡ length self.old.writers.items + 1)) }
        ensures only { IfErr result (λ fault. fault ≡ LogFault.OutOfMemory) }
    {
        let log = new_log(alloc, self.sweeps.shared_lines()?)?;
        self.writers.push(FileWriter::new(log.clone()?, file))?;
        self.venues.push(log)?;
        Ok(())
    }
}

/// Begins the logs of a day, whose files aren't there.
fn begin_logs<R: Files>(
    rt: &R,
    alloc: Global,
    folder: &str,
    venues: &[Venue],
) -> Result<DayLogs<R::File>, LogFault>
    ensures venues { IfOk result (λ logs. length logs.venues.items ≡ length venues.now) }
    ensures writers { IfOk result (λ logs. length logs.writers.items ≡ length venues.now + 1) }
    ensures taken { IfErr result (λ fault. fault ≢ LogFault.NameTaken) }
{
    let sweeps = begin_log(rt, alloc, folder, LogFile::Sweeps, SWEEPS_HEADER)?;
    let mut logs = DayLogs::new(alloc, sweeps)?;
    for venue in venues {
        let file = begin_venue(rt, alloc, folder, venue)?;
        logs.add(alloc, file)?;
    }
    Ok(logs)
}

/// Looks that no log of a day is in a folder yet, and makes nothing. Of several that are there the first is named: the
/// venues' come in order, and then `sweeps.log`.
pub fn check_new_logs<R: Files>(
    rt: &R,
    alloc: Global,
    folder: &str,
    venues: &[Venue],
) -> Result<(), LogFault>
    ensures { result ≡ Err LogFault.NameTaken ↔ is_name_taken venues.now ≡ true }
{
    if is_name_taken(venues) {
        return Err(LogFault::NameTaken);
    }
    check_files(rt, alloc, folder, venues)
}

/// Begins the logs of a day in a folder, which is made where it isn't there: a file for each venue, and one for the
/// lines of the desk, each with its first line. Where one of the files is there already (`check_new_logs`) none is
/// made, nor the folder. Where the system refuses a file after that look, those before it stay.
pub fn open_logs<R: Files>(
    rt: &R,
    alloc: Global,
    folder: &str,
    venues: &[Venue],
) -> Result<DayLogs<R::File>, LogFault>
    ensures venues { IfOk result (λ logs. length logs.venues.items ≡ length venues.now) }
    ensures writers { IfOk result (λ logs. length logs.writers.items ≡ length venues.now + 1) }
    ensures taken { result ≡ Err LogFault.NameTaken ↔ is_name_taken venues.now ≡ true }
{
    check_new_logs(rt, alloc, folder, venues)?;
    match fs::create_dir_all(rt, folder) {
        Ok(()) => {}
        Err(_) => return Err(LogFault::NoFolder),
    }
    begin_logs(rt, alloc, folder, venues)
}
