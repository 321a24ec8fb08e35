//! The log of a venue, made of its journal.

ghost use Rattle.std.specs.Prelude.{◌≡◌, ℕ, IfOk, IfSome, MatchResult, Some};
ghost use Rattle.std.specs.BTreeMap.{get_by_text};
ghost use Rattle.std.specs.Option.{IsSomeAnd};
ghost use Rattle.journal_folder.specs.Found.{IsFoundOf};
ghost use Rattle.journal_log.specs.Head.{head_words};
ghost use Rattle.journal_command.specs.Fault.{IsOfFolder, IsStop};
ghost use Rattle.journal_command.specs.Logged.{LogsJournal};
ghost use Rattle.journal_command.specs.Running.{KeepsBefore};

use crate::fault::CommandFault;
use crate::said::fault_of;
use journal_folder::{FolderFault, Found, list_journals, read_journal};
use journal_log::{LogFault, VenueHead, print_log, read_venue_head};
use std::alloc::{AllocError, Global};
use std::collections::BTreeMap;
use std::fs::{File, Files};
use std::io::Write;

/// The fault where the journal of this name can't be read, or no dispatcher goes on with it.
fn broken_fault(alloc: Global, folder: &str, name: &str, why: FolderFault) -> CommandFault
    ensures { IsOfFolder result }
{
    match why {
        FolderFault::OutOfMemory | FolderFault::CantRead { .. } => {
            fault_of(alloc, folder, name, why)
        }
        _ => CommandFault::broken(alloc, name, why),
    }
}

/// What is found of the journal of this name, if it is listed.
fn read_listed<F: Files<File = File>>(
    files: &F,
    alloc: Global,
    folder: &str,
    journals: &BTreeMap<String, usize>,
    name: &str,
) -> Result<Found, CommandFault>
    ensures { MatchResult result
        (λ found. IsSomeAnd (get_by_text journals.now name.now) (λ count. IsFoundOf count found)) IsOfFolder }
{
    let Some(last) = journals.get(name) else {
        return Err(CommandFault::no_venue(alloc, name));
    };
    match read_journal(files, alloc, folder, name, *last) {
        Ok(found) => Ok(found),
        Err(fault) => Err(broken_fault(alloc, folder, name, fault)),
    }
}

/// What is found of the journal of this name.
fn read_named<F: Files<File = File>>(
    files: &F,
    alloc: Global,
    folder: &str,
    name: &str,
) -> Result<Found, CommandFault>
    ensures { MatchResult result (λ found. (count : ℕ) × IsFoundOf count found) IsOfFolder }
{
    let journals = match list_journals(files, alloc, folder) {
        Ok(journals) => journals,
        Err(FolderFault::OutOfMemory) => return Err(CommandFault::OutOfMemory),
        Err(_) => return Err(CommandFault::read_failed(alloc, folder)),
    };
    if journals.is_empty() {
        return Err(CommandFault::NoJournal);
    }
    read_listed(files, alloc, folder, &journals, name)
}

/// The head of a journal, if it is one of a venue that this program knows.
fn head_of(alloc: Global, found: &Found) -> Result<Option<VenueHead>, AllocError>
    ensures { IfOk result (λ head. IfSome head (λ head. found.now.words ≡ Some (head_words head))) }
{
    match found.words() {
        Some(words) => read_venue_head(alloc, words),
        None => Ok(None),
    }
}

/// The fault where the log of this name's journal ends early.
fn stop_fault(alloc: Global, name: &str, why: LogFault) -> CommandFault
    ensures { IsStop why result }
{
    match why {
        LogFault::Line { number, why } => CommandFault::bad_line(alloc, name, number, why),
        LogFault::WriteFailed => CommandFault::WriteFailed,
        LogFault::OutOfMemory => CommandFault::LogWantsMemory,
    }
}

/// Prints the log of the venue of this name, made of its journal.
pub(crate) fn log_venue<F: Files<File = File>, W: Write>(
    files: &F,
    alloc: Global,
    folder: &str,
    name: &str,
    out: &mut W,
) -> Result<(), CommandFault>
    ensures { MatchResult result (λ _. LogsJournal (W.contents out.old) (W.contents out.new))
        (KeepsBefore (W.contents out.old) (W.contents out.new)) }
{
    let found = read_named(files, alloc, folder, name)?;
    let Some(head) = head_of(alloc, &found)? else {
        return Err(CommandFault::other_head(alloc, name));
    };
    match print_log(alloc, head, found.lines(), out) {
        Ok(()) => {}
        Err(why) => return Err(stop_fault(alloc, name, why)),
    }
    Ok(())
}
