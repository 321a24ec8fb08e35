//! The files of a day's journals.

ghost use Rattle.std.specs.Prelude.{◌≡◌, ◌+◌, ◌&&◌, ◌==◌, ◌<◌, ◌∷◌, ◌++◌, [], None, Some, length, map, reverse, slice_get, string_bytes, true, IfErr, IfOk, MatchOption, Ok, Err};
ghost use Rattle.std.specs.List.{AllZip, list_all};
ghost use Rattle.std.specs.Option.{IsSomeAnd};
ghost use Rattle.day_restart.specs.DayJournal.{GoesBehind};
ghost use Rattle.day_restart.specs.Ending.{IsOpenFault, ended_at};
ghost use Rattle.day_restart.specs.Files.{HasWords, desk_name};
ghost use Rattle.day_restart.specs.Words.{desk_head, venue_head};

use crate::day_journal::DayJournal;
use crate::gone::tell_gone;
use crate::words::{desk_words, venue_words};
use desk_config::{Day, Venue};
use desk_words::{VenueName, shown};
use journal_folder::{DayFolder, Durable, FolderFault, Found, RestartFault};
use journal_words::{DeskDeed, read_desk};
use std::alloc::{AllocError, Global};
use std::fs::{File, Files};
use std::sync::Arc;
use std::sync::atomic::AtomicBool;
use std::time::Clock;

/// How many bytes a file of a journal has room for.
const ROOM: usize = 1_048_576;

/// The name of the desk's journal.
const DESK: &str = "desk";

/// The words in the heads of a day's journals.
#[derive(Debug, Drop)]
pub struct JournalNames {
    desk: String,
    /// Of each venue, in order.
    venues: Vec<String>,
}

impl JournalNames {
    /// Those of a day of these venues.
    pub fn new(alloc: Global, day: Day, venues: &[Venue]) -> Result<JournalNames, AllocError>
        ensures length { IfOk result (λ names. length names.venues.items ≡ length venues.now) }
        ensures desk { IfOk result (λ names. string_bytes names.desk ≡ desk_head day venues.now) }
        ensures venues { IfOk result (λ names. map string_bytes names.venues.items
            ≡ map (venue_head day) venues.now) }
    {
        let mut words = Vec::new(alloc);
        for venue in venues {
            words.push(venue_words(alloc, day, venue)?)?;
        }
        Ok(JournalNames {
            desk: desk_words(alloc, day, venues)?,
            venues: words,
        })
    }
}

/// The journals that a day tells: that of the desk, and that of each venue's worker, in order; and whether each of them
/// is failing, in the same order.
#[derive(Drop)]
pub struct DayJournals<J: Drop> {
    pub desk: J,
    pub venues: Vec<J>,
    pub failing: Vec<Arc<AtomicBool, Global>>,
}

/// The folder of a day's journals, with what was found in it. Its lock is held.
#[derive(Drop)]
pub struct DayFiles<'a, R: Files<File = File>> {
    path: &'a str,
    folder: DayFolder<'a, R>,
    desk: Found,
    venues: Vec<Found>,
}

/// Why a venue's journal can't be used.
fn venue_fault(name: &VenueName, fault: FolderFault) -> RestartFault
    ensures { IsOpenFault result }
{
    match name.clone() {
        Ok(name) => RestartFault::Venue(name, fault),
        Err(_) => RestartFault::OutOfMemory,
    }
}

/// Refuses a day that ended, saying when.
fn check_open(lines: &[Vec<u8>]) -> Result<(), RestartFault>
    ensures { MatchOption (ended_at (map (λ l. l.items) lines.now)) (result ≡ Ok tt)
        (λ time. result ≡ Err (RestartFault.Ended time)) }
{
    let Some(line) = lines.last() else {
        return Ok(());
    };
    match read_desk(line.as_slice()) {
        Ok(said) => match said.deed {
            DeskDeed::End => Err(RestartFault::Ended(shown(line.as_slice()))),
            _ => Ok(()),
        },
        Err(_) => Ok(()),
    }
}

/// Reads the journal of each venue, in order.
fn read_venues<R: Files<File = File>>(
    alloc: Global,
    folder: &mut DayFolder<'_, R>,
    names: &JournalNames,
    venues: &[Venue],
) -> Result<Vec<Found>, RestartFault>
    requires names { length names.now.venues.items ≡ length venues.now }
    ensures length { IfOk result (λ found. length found.items ≡ length venues.now) }
    ensures names { IfOk result (λ _. map (λ r. r.name) folder.new.reads.journals
        ≡ reverse (map (λ v. v.name) venues.now) ++ map (λ r. r.name) folder.old.reads.journals) }
    ensures found { IfOk result (λ found. map (λ r. r.found) folder.new.reads.journals
        ≡ reverse found.items ++ map (λ r. r.found) folder.old.reads.journals) }
    ensures words { IfOk result (λ found. AllZip HasWords (map string_bytes names.now.venues.items) found.items) }
    ensures fault { IfErr result IsOpenFault }
{
    let mut found = Vec::new(alloc);
    for (place, venue) in venues.iter().enumerate() {
        match folder.read(venue.name.as_str(), names.venues[place].as_str()) {
            Ok(lines) => found.push(lines)?,
            Err(fault) => return Err(venue_fault(&venue.name, fault)),
        }
    }
    Ok(found)
}

/// The journal of a venue, which goes on behind these lines. Where there are some it is told that the connection of the
/// life before is gone.
fn behind<'a, R: Files<File = File> + Clock>(
    rt: &R,
    found: &Found,
    journal: DayJournal<'a, R>,
) -> Result<DayJournal<'a, R>, AllocError>
    requires { journal ≡ record { kept = found.now.lines; unkept = [] } }
    ensures { IfOk result (GoesBehind found.now.lines) }
{
    if found.count() == 0 {
        return Ok(journal);
    }
    let mut journal = journal;
    if !tell_gone(rt, &mut journal) {
        return Err(AllocError);
    }
    Ok(journal)
}

impl<'a, R: Files<File = File> + Clock> DayFiles<'a, R> {
    /// Takes the lock of a day's folder, which is made where it isn't there, and reads the journals in it. A day that
    /// ended is refused.
    pub fn open(
        rt: &'a R,
        alloc: Global,
        path: &'a str,
        durable: Durable,
        names: &JournalNames,
        venues: &[Venue],
    ) -> Result<DayFiles<'a, R>, RestartFault>
        requires names { length names.now.venues.items ≡ length venues.now }
        ensures venues { IfOk result (λ files. length files.venues.items ≡ length venues.now) }
        ensures names { IfOk result (λ files. map (λ r. r.name) files.folder.reads.journals
            ≡ reverse (desk_name ∷ map (λ v. v.name) venues.now)) }
        ensures found { IfOk result (λ files. map (λ r. r.found) files.folder.reads.journals
            ≡ reverse (files.desk ∷ files.venues.items)) }
        ensures desk_words { IfOk result (λ files. HasWords (string_bytes names.now.desk) files.desk) }
        ensures venue_words { IfOk result (λ files. AllZip HasWords
            (map string_bytes names.now.venues.items) files.venues.items) }
        ensures open { IfOk result (λ files. ended_at files.desk.lines ≡ None) }
        ensures fault { IfErr result IsOpenFault }
    {
        let mut folder = match DayFolder::open(rt, alloc, path, durable) {
            Ok(folder) => folder,
            Err(fault) => return Err(RestartFault::Folder(fault)),
        };
        let desk = match folder.read(DESK, names.desk.as_str()) {
            Ok(found) => found,
            Err(fault) => return Err(RestartFault::Desk(fault)),
        };
        check_open(desk.lines())?;
        let venues = read_venues(alloc, &mut folder, names, venues)?;
        Ok(DayFiles {
            path,
            folder,
            desk,
            venues,
        })
    }

    /// The lines of the desk.
    pub fn desk(&self) -> &[Vec<u8>]
        ensures { map (λ l. l.items) result.now ≡ self.now.desk.lines }
    {
        self.desk.lines()
    }

    /// Those of the venue at a place.
    pub fn venue(&self, place: usize) -> &[Vec<u8>]
        requires { place < length self.now.venues.items }
        ensures { IsSomeAnd (slice_get self.now.venues.items place)
            (λ found. map (λ l. l.items) result.now ≡ found.lines) }
    {
        self.venues[place].lines()
    }

    /// Whether no line was kept: the day is new.
    pub fn is_new(&self) -> bool
        ensures { result ≡ (length self.now.desk.lines == 0)
            && list_all (λ found. length found.lines == 0) self.now.venues.items }
    {
        self.desk.count() == 0 && self.venues.iter().all(|found| found.count() == 0)
    }

    /// Whether no file of a journal is there: the day wasn't begun.
    pub fn are_none(&self) -> bool
        ensures { result ≡ (self.now.desk.files == 0)
            && list_all (λ found. found.files == 0) self.now.venues.items }
    {
        self.desk.files() == 0 && self.venues.iter().all(|found| found.files() == 0)
    }

    /// Where the file is whose lock is held.
    fn lock_path(&self, alloc: Global) -> Result<String, AllocError> {
        let path = self.path;
        format!(in alloc; "{path}/lock")
    }

    /// Goes on with a journal behind its lines, in a new file. Whether it is failing is told by the flag.
    fn go_on_with(
        &self,
        rt: &'a R,
        alloc: Global,
        name: &'a str,
        words: &'a str,
        found: &Found,
        flag: Arc<AtomicBool, Global>,
    ) -> Result<Result<DayJournal<'a, R>, FolderFault>, AllocError>
        ensures { IfOk result (λ gone. IfOk gone (λ journal. journal
            ≡ record { kept = found.now.lines; unkept = [] })) }
    {
        let lock = self.lock_path(alloc)?;
        match self.folder.go_on(name, words, found, ROOM) {
            Ok(journal) => Ok(Ok(DayJournal::new(rt, alloc, lock, found, journal, flag))),
            Err(fault) => Ok(Err(fault)),
        }
    }

    /// Goes on with each journal behind its lines, in a new file. That of a venue with lines is told that the
    /// connection of the life before is gone.
    pub fn go_on(
        &self,
        rt: &'a R,
        alloc: Global,
        names: &'a JournalNames,
        venues: &'a [Venue],
    ) -> Result<DayJournals<DayJournal<'a, R>>, RestartFault>
        requires names { length names.now.venues.items ≡ length venues.now }
        requires venues { length self.now.venues.items ≡ length venues.now }
        ensures desk { IfOk result (λ journals. journals.desk
            ≡ record { kept = self.now.desk.lines; unkept = [] }) }
        ensures venues { IfOk result (λ journals. AllZip GoesBehind (map (λ f. f.lines) self.now.venues.items)
            journals.venues.items) }
        ensures failing { IfOk result (λ journals. length journals.failing.items ≡ length venues.now + 1) }
        ensures fault { IfErr result IsOpenFault }
    {
        let mut failing = Vec::new(alloc);
        let mut journals = Vec::new(alloc);
        let flag = Arc::new(alloc, AtomicBool::new(false))?;
        failing.push(flag.clone()?)?;
        let desk = match self.go_on_with(rt, alloc, DESK, names.desk.as_str(), &self.desk, flag)? {
            Ok(journal) => journal,
            Err(fault) => return Err(RestartFault::Desk(fault)),
        };
        for (place, venue) in venues.iter().enumerate() {
            let flag = Arc::new(alloc, AtomicBool::new(false))?;
            failing.push(flag.clone()?)?;
            let found = &self.venues[place];
            let words = names.venues[place].as_str();
            match self.go_on_with(rt, alloc, venue.name.as_str(), words, found, flag)? {
                Ok(journal) => journals.push(behind(rt, found, journal)?)?,
                Err(fault) => return Err(venue_fault(&venue.name, fault)),
            }
        }
        Ok(DayJournals {
            desk,
            venues: journals,
            failing,
        })
    }
}
