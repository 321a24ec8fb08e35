//! The folder of a day.

ghost use Rattle.std.specs.Prelude.{◌≡◌, [], IfOk, length};
ghost use Rattle.std.specs.BTreeMap.{get_by_text};
ghost use Rattle.std.specs.Option.{unwrap_or};
ghost use Rattle.journal_tape.specs.Told.{no_lines};
ghost use Rattle.journal_folder.specs.Found.{IsFoundUnder};
ghost use Rattle.journal_folder.specs.NextFile.{next_number};
ghost use Rattle.journal_folder.specs.Reads.{Reads};

use crate::durable::Durable;
use crate::fault::FolderFault;
use crate::folder_journal::FolderJournal;
use crate::found::{Found, read_journal};
use crate::listed::list_journals;
use crate::reads::FolderReads;
use std::alloc::Global;
use std::collections::BTreeMap;
use std::fs;
use std::fs::{File, Files, OpenOptions};

/// The folder of a day's journals, whose lock this program has. It is free again once this value is gone, also where
/// the process is killed.
#[derive(Drop)]
pub struct DayFolder<'a, R: Files<File = File>> {
    rt: &'a R,
    alloc: Global,
    path: &'a str,
    durable: Durable,
    lock: File,
    pub reads: FolderReads,
}

/// The file whose lock is taken.
fn open_lock<R: Files<File = File>>(
    rt: &R,
    alloc: Global,
    folder: &str,
) -> Result<File, FolderFault> {
    let path = format!(in alloc; "{folder}/lock")?;
    match OpenOptions::new()
        .write(true)
        .create(true)
        .open(rt, path.as_str())
    {
        Ok(file) => Ok(file),
        Err(_) => Err(FolderFault::NoFolder),
    }
}

impl<'a, R: Files<File = File>> DayFolder<'a, R> {
    /// Makes the folder where it isn't there, and takes its lock.
    pub fn open(
        rt: &'a R,
        alloc: Global,
        path: &'a str,
        durable: Durable,
    ) -> Result<DayFolder<'a, R>, FolderFault>
        ensures reads { IfOk result (λ folder. folder.reads.journals ≡ []) }
        ensures durable { IfOk result (λ folder. folder.durable ≡ durable) }
    {
        match fs::create_dir_all(rt, path) {
            Ok(()) => {}
            Err(_) => return Err(FolderFault::NoFolder),
        }
        let lock = open_lock(rt, alloc, path)?;
        match lock.try_lock() {
            Ok(()) => {}
            Err(_) => return Err(FolderFault::Taken),
        }
        Ok(DayFolder {
            rt,
            alloc,
            path,
            durable,
            lock,
            reads: FolderReads::new(),
        })
    }

    /// The lines of a journal that count, where its heads have these words; none where no file of it is there.
    pub fn read(&mut self, name: &str, words: &str) -> Result<Found, FolderFault>
        ensures { Reads name.now words.now result self.old.reads.journals self.new.reads.journals }
    {
        let journals = list_journals(self.rt, self.alloc, self.path)?;
        let found = self.read_listed(&journals, name, words)?;
        self.reads = self.reads.with(name.as_bytes(), &found);
        Ok(found)
    }

    /// Those of a journal of which the greatest number that a file has is listed.
    fn read_listed(
        &self,
        journals: &BTreeMap<String, usize>,
        name: &str,
        words: &str,
    ) -> Result<Found, FolderFault>
        ensures { IsFoundUnder (unwrap_or (get_by_text journals.now name.now) 0) words.now result }
    {
        let files = match journals.get(name) {
            Some(files) => *files,
            None => 0,
        };
        let found = read_journal(self.rt, self.alloc, self.path, name, files)?;
        if found.has_other_words(words.as_bytes()) {
            return Err(FolderFault::OtherWords {
                file: found.files(),
            });
        }
        Ok(found)
    }

    /// Goes on with a journal behind the lines that were found in it: its next file is begun, of so many bytes.
    pub fn go_on(
        &self,
        name: &'a str,
        words: &'a str,
        found: &Found,
        room: usize,
    ) -> Result<FolderJournal<'a, R>, FolderFault>
        ensures told { IfOk result (λ journal. journal.told.lines ≡ no_lines) }
        ensures name { IfOk result (λ journal. journal.place.name.now ≡ name.now) }
        ensures words { IfOk result (λ journal. journal.place.words.now ≡ words.now) }
        ensures before { IfOk result (λ journal. journal.before ≡ length found.now.lines) }
        ensures start { IfOk result (λ journal. journal.start ≡ length found.now.lines) }
        ensures file { IfOk result (λ journal. journal.file ≡ next_number found.now.files) }
        ensures durable { IfOk result (λ journal. journal.place.durable ≡ self.now.durable) }
    {
        FolderJournal::begin(
            self.rt,
            self.alloc,
            self.path,
            name,
            words,
            found,
            room,
            self.durable,
        )
    }
}
