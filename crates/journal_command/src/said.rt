//! What is said of the journals in a folder.

ghost use Rattle.std.specs.Prelude.{◌≡◌, ◌≢◌, ◌++◌, ℕ, true, false, [], map, string_bytes, IfErr, IfOk, OnOk};
ghost use Rattle.std.specs.Option.{unwrap_or};
ghost use Rattle.journal_command.specs.Fault.{IsOfFolder};
ghost use Rattle.journal_command.specs.Judged.{IsSaid, Listed, Says, SaysNext};
ghost use Rattle.journal_command.specs.Shown.{broken_text};

use crate::command::Request;
use crate::fault::CommandFault;
use crate::text::{add_found, add_title, broken_text};
use journal_folder::{FolderFault, Found, journal_path, list_journals, read_journal};
use std::alloc::Global;
use std::collections::BTreeMap;
use std::fs::{File, Files};

/// What is printed of journals, and whether one of them is broken.
#[derive(Drop)]
pub(crate) struct Said {
    pub text: Vec<u8>,
    pub is_broken: bool,
}

impl Said {
    /// Nothing is said yet.
    fn new(alloc: Global) -> Said
        ensures text { result.text.items ≡ [] }
        ensures is_broken { result.is_broken ≡ false }
    {
        Said {
            text: Vec::new(alloc),
            is_broken: false,
        }
    }

    /// Says why a journal of this name can't be gone on with. A fault that isn't of what its files have is handed on.
    fn say_broken(
        &mut self,
        alloc: Global,
        request: &Request<'_>,
        name: &str,
        fault: FolderFault,
    ) -> Result<(), CommandFault>
        ensures text { OnOk result (self.new.text.items ≡ self.old.text.items ++ unwrap_or (broken_text fault) []) }
        ensures broken { OnOk result (self.new.is_broken ≡ true) }
        ensures only { IfErr result IsOfFolder }
    {
        let Some(text) = broken_text(alloc, fault)? else {
            return Err(fault_of(alloc, request.folder, name, fault));
        };
        self.text.extend_from_slice(text.as_slice())?;
        self.is_broken = true;
        Ok(())
    }

    /// Says what reading a journal of this name gave.
    #[tactic(auto, using(crate::proofs::Say::found_said))]
    fn say(
        &mut self,
        alloc: Global,
        request: &Request<'_>,
        name: &str,
        read: Result<Found, FolderFault>,
    ) -> Result<(), CommandFault>
        ensures said { OnOk result ((files : ℕ) → IsSaid files read → SaysNext request.now.tells_lines name.now
            files self.old.text.items self.old.is_broken self.new.text.items self.new.is_broken) }
        ensures only { IfErr result IsOfFolder }
    {
        add_title(alloc, &mut self.text, name)?;
        match read {
            Ok(found) => {
                add_found(alloc, &mut self.text, &found, request.tells_lines)?;
                Ok(())
            }
            Err(fault) => {
                self.say_broken(alloc, request, name, fault)?;
                Ok(())
            }
        }
    }
}

/// The fault that ends the run where a file of a journal can't be read.
pub(crate) fn fault_of(alloc: Global, folder: &str, name: &str, fault: FolderFault) -> CommandFault
    ensures { IsOfFolder result }
{
    match fault {
        FolderFault::OutOfMemory => CommandFault::OutOfMemory,
        FolderFault::CantRead { file } => match journal_path(alloc, folder, name, file) {
            Ok(path) => CommandFault::ReadFailed { path },
            Err(_) => CommandFault::OutOfMemory,
        },
        _ => CommandFault::read_failed(alloc, folder),
    }
}

/// What is said of these journals in the folder that is asked for, each with how many files it has.
fn say_all<F: Files<File = File>>(
    files: &F,
    alloc: Global,
    request: &Request<'_>,
    journals: &BTreeMap<String, usize>,
) -> Result<Said, CommandFault>
    ensures said { IfOk result (λ said. Says request.now.tells_lines
        (map (λ j. (string_bytes j.0, j.1)) journals.now.entries) [] said.text.items said.is_broken) }
    ensures only { IfErr result IsOfFolder }
{
    let mut said = Said::new(alloc);
    for (name, last) in journals {
        let read = read_journal(files, alloc, request.folder, name.as_str(), *last);
        said.say(alloc, request, name.as_str(), read)?;
    }
    Ok(said)
}

/// What is said of the journals in the folder that is asked for.
pub(crate) fn say_folder<F: Files<File = File>>(
    files: &F,
    alloc: Global,
    request: &Request<'_>,
) -> Result<Said, CommandFault>
    ensures said { IfOk result (λ said. (listed : Listed) × (listed ≢ [])
        × Says request.now.tells_lines listed [] said.text.items said.is_broken) }
    ensures only { IfErr result IsOfFolder }
{
    let journals = match list_journals(files, alloc, request.folder) {
        Ok(journals) => journals,
        Err(FolderFault::OutOfMemory) => return Err(CommandFault::OutOfMemory),
        Err(_) => return Err(CommandFault::read_failed(alloc, request.folder)),
    };
    if journals.is_empty() {
        return Err(CommandFault::NoJournal);
    }
    say_all(files, alloc, request, &journals)
}
