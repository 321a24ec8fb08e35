//! A journal in files.

ghost use Rattle.std.specs.Prelude.{◌≡◌, ◌≤◌, ◌+◌, ◌-◌, ◌++◌, ◌∷◌, [], true, false, drop, length, OnOk, IfOk, map};
ghost use Rattle.journal_tape.specs.Told.{all_kept, no_lines};
ghost use Rattle.journal_folder.specs.Head.{head_text};
ghost use Rattle.journal_folder.specs.NextFile.{IsNextFile, next_number};

use crate::durable::Durable;
use crate::fault::FolderFault;
use crate::file_tape::{FileTape, Making};
use crate::found::Found;
use crate::head::head_line;
use crate::listed::journal_path;
use crate::room::room_for;
use journal_tape::{Journal, JournalFault, JournalWriter, Told};
use std::alloc::Global;
use std::fs;
use std::fs::{File, Files};

/// Where the files of a journal are, and how they are made.
#[derive(Drop)]
struct Place<'a, R: Files<File = File>> {
    rt: &'a R,
    alloc: Global,
    folder: &'a str,
    name: &'a str,
    words: &'a str,
    room: usize,
    durable: Durable,
}

/// The file that is begun next.
#[derive(Drop)]
struct NextFile {
    number: usize,
    making: Making,
}

impl NextFile {
    /// The file behind this one, once that has lines.
    fn go_past(&mut self, file: usize, has_lines: bool)
        ensures past { has_lines ≡ true → self.new.number ≡ next_number file }
        ensures here { has_lines ≡ false → self.new.number ≡ self.old.number }
    {
        if has_lines {
            self.number = file.saturating_add(1);
            self.making = Making::New;
        }
    }
}

/// A journal whose lines are kept in the files of a folder. Where a write or a sync fails, or a file is full, the next
/// file is begun: its head says how many lines count before it, and it has those that aren't kept. So nothing that a
/// failed call may have left in a file counts.
#[derive(Drop)]
pub struct FolderJournal<'a, R: Files<File = File>> {
    place: Place<'a, R>,
    file: usize,
    before: usize,
    start: usize,
    kept: usize,
    next_file: NextFile,
    waiting: Vec<Vec<u8>>,
    pub told: Told,
    pub writer: JournalWriter<FileTape>,
    pub ghost told_is: { told.lines.unkept ≡ writer.told.lines.unkept },
    pub ghost waiting_is: { map (λ v. v.items) waiting.items ≡ writer.told.lines.unkept },
    pub ghost counted: { kept ≡ before + length told.lines.kept },
    pub ghost begins: { before ≤ start },
    pub ghost started: { start ≤ kept },
    pub ghost next_number: { IsNextFile next_file.number file start kept },
    pub ghost file_has: { writer.told.lines.kept
        ≡ head_text file start place.words.now ∷ drop (start - before) told.lines.kept },
}

impl<'a, R: Files<File = File>> Place<'a, R> {
    /// Puts the folder itself on the disk, so that a file that was made in it is found there.
    fn sync(&self) -> Result<(), JournalFault> {
        if self.durable == Durable::Process {
            return Ok(());
        }
        let Ok(folder) = fs::open(self.rt, self.folder) else {
            return Err(JournalFault::NotWritten);
        };
        match folder.sync_all() {
            Ok(()) => Ok(()),
            Err(_) => Err(JournalFault::NotWritten),
        }
    }

    /// Puts the files that were found on the disk. Their last lines may have been written without a sync, and count
    /// from now on.
    fn sync_found(&self, files: usize) -> Result<(), FolderFault> {
        if self.durable == Durable::Process {
            return Ok(());
        }
        for before in 0..files {
            let file = before + 1;
            let path = journal_path(self.alloc, self.folder, self.name, file)?;
            let Ok(found) = fs::open(self.rt, path.as_str()) else {
                return Err(FolderFault::CantRead { file });
            };
            if found.sync_all().is_err() {
                return Err(FolderFault::CantWrite { file });
            }
        }
        Ok(())
    }

    /// Makes a file of this number, with room for its head and these lines. The head is kept by one write before
    /// anything else is told.
    fn begin(
        &self,
        file: usize,
        after: usize,
        lines: &[Vec<u8>],
        making: &mut Making,
    ) -> Result<JournalWriter<FileTape>, JournalFault>
        ensures head { IfOk result (λ writer. writer.told.lines.kept ≡ head_text file after self.now.words.now ∷ []) }
        ensures unkept { IfOk result (λ writer. writer.told.lines.unkept ≡ []) }
    {
        let Ok(path) = journal_path(self.alloc, self.folder, self.name, file) else {
            return Err(JournalFault::OutOfMemory);
        };
        let Ok(head) = head_line(self.alloc, file, after, self.words) else {
            return Err(JournalFault::OutOfMemory);
        };
        let room = room_for(self.room, head.as_slice(), lines);
        let made = FileTape::make(self.rt, path.as_str(), making, room, self.durable);
        let Ok(tape) = made else {
            return Err(JournalFault::NotWritten);
        };
        self.sync()?;
        let mut writer = JournalWriter::new(self.alloc, tape, room);
        writer.tell(head.as_slice())?;
        match writer.keep_lines() {
            Ok(()) => Ok(writer),
            Err(_) => Err(JournalFault::NotWritten),
        }
    }
}

/// Tells lines to a journal that was told none.
fn tell_all(writer: &mut JournalWriter<FileTape>, lines: &[Vec<u8>]) -> Result<(), JournalFault>
    ensures told { OnOk result (writer.new.told.lines.unkept
        ≡ writer.old.told.lines.unkept ++ map (λ v. v.items) lines.now) }
    ensures kept { writer.new.told.lines.kept ≡ writer.old.told.lines.kept }
{
    for line in lines {
        writer.tell(line.as_slice())?;
    }
    Ok(())
}

impl<'a, R: Files<File = File>> FolderJournal<'a, R> {
    /// Goes on behind the lines that were found: the next file is begun.
    pub(crate) fn begin(
        rt: &'a R,
        alloc: Global,
        folder: &'a str,
        name: &'a str,
        words: &'a str,
        found: &Found,
        room: usize,
        durable: Durable,
    ) -> Result<FolderJournal<'a, R>, FolderFault>
        ensures told { IfOk result (λ journal. journal.told.lines ≡ no_lines) }
        ensures name { IfOk result (λ journal. journal.place.name.now ≡ name.now) }
        ensures words { IfOk result (λ journal. journal.place.words.now ≡ words.now) }
        ensures before { IfOk result (λ journal. journal.before ≡ length found.now.lines) }
        ensures start { IfOk result (λ journal. journal.start ≡ length found.now.lines) }
        ensures file { IfOk result (λ journal. journal.file ≡ next_number found.now.files) }
        ensures durable { IfOk result (λ journal. journal.place.durable ≡ durable) }
    {
        let place = Place {
            rt,
            alloc,
            folder,
            name,
            words,
            room,
            durable,
        };
        place.sync_found(found.files())?;
        let file = found.files().saturating_add(1);
        let count = found.count();
        let mut making = Making::New;
        let Ok(writer) = place.begin(file, count, &[], &mut making) else {
            return Err(FolderFault::CantWrite { file });
        };
        Ok(FolderJournal {
            place,
            file,
            before: count,
            start: count,
            kept: count,
            next_file: NextFile {
                number: file,
                making,
            },
            waiting: Vec::new(alloc),
            told: Told::new(),
            writer,
        })
    }

    /// Begins the next file, with the lines that aren't kept. It has the number of the last one as long as that has no
    /// line behind its head: so a disk that is full gets no file for each try.
    fn begin_next(&mut self) -> Result<(), JournalFault>
        ensures told { self.new.told.lines ≡ self.old.told.lines }
    {
        let number = self.next_file.number;
        let mut writer = self.place.begin(
            number,
            self.kept,
            self.waiting.as_slice(),
            &mut self.next_file.making,
        )?;
        tell_all(&mut writer, self.waiting.as_slice())?;
        self.file = number;
        self.start = self.kept;
        self.writer = writer;
        Ok(())
    }

    /// Keeps the lines in the last file.
    fn keep_here(&mut self) -> bool
        ensures kept { result ≡ true → self.new.told.lines ≡ all_kept self.old.told.lines }
        ensures same { result ≡ false → self.new.told.lines ≡ self.old.told.lines }
    {
        let Some(kept) = self.kept.checked_add(self.waiting.len()) else {
            return false;
        };
        match self.writer.keep_lines() {
            Ok(()) => {
                self.next_file.go_past(self.file, kept > self.start);
                self.kept = kept;
                self.waiting.clear();
                self.told = self.told.all_kept();
                true
            }
            Err(_) => false,
        }
    }
}

impl<'a, R: Files<File = File>> Journal for FolderJournal<'a, R> {
    ghost kept = { λ j. j.told.lines.kept };

    ghost unkept = { λ j. j.told.lines.unkept };

    fn tell(&mut self, line: &[u8]) -> Result<(), JournalFault> {
        let Ok(copy) = line.to_vec(self.place.alloc) else {
            return Err(JournalFault::OutOfMemory);
        };
        if self.waiting.push(copy).is_err() {
            return Err(JournalFault::OutOfMemory);
        }
        match self.writer.tell(line) {
            Ok(()) => {
                self.told = self.told.with(line);
                Ok(())
            }
            Err(fault) => {
                let _ = self.waiting.pop();
                Err(fault)
            }
        }
    }

    fn keep(&mut self) -> Result<(), JournalFault> {
        if self.keep_here() {
            return Ok(());
        }
        self.begin_next()?;
        if self.keep_here() {
            return Ok(());
        }
        Err(JournalFault::NotWritten)
    }

    fn is_kept(&self) -> bool {
        self.waiting.is_empty()
    }
}
