//! A day goes on with its journals.

ghost use Rattle.std.specs.Prelude.{◌≡◌, ◌≤◌, [], List, length, map, Some, IfErr, IfOk};
ghost use Rattle.release_lock.specs.Noted.{IsNoted};
ghost use Rattle.session_worker.specs.Keeping.{Told};
ghost use Rattle.std.specs.List.{AllZip};
ghost use Rattle.day_restart.specs.DayJournal.{GoesBehind};
ghost use Rattle.day_restart.specs.Restored.{PlacesAgain};
ghost use Rattle.day_restart.specs.Told.{TellsDay};
ghost use Rattle.venue_words.specs.Dialect.{dialect_of};
ghost use Rattle.desk_venues.specs.Faults.{IsNoMismatch};
ghost use Rattle.desk_venues.specs.Starts.{workers_from};
ghost use Rattle.desk_day.specs.Audited.{AreBegun, HasKept};
ghost use Rattle.desk_run.specs.GoingOn.{all_noted, durable_of};
ghost use Rattle.desk_day.specs.Opening.{new_starts};

use crate::running::JournalAt;
use day_restart::{
    DayFiles, DayJournal, DayJournals, JournalNames, Placed, RestoredDay, VenuePast, restore_day,
};
use desk_config::{Durable, Venue};
use desk_day::{BegunDay, Past};
use desk_floor::{HaltMark, JournalWatch, Refs};
use desk_venues::DayFault;
use desk_words::{VenueName, shown};
use exec_collector::Accounts;
use journal_folder::{FolderFault, JournalRefused, RestartFault};
use release_lock::Run;
use std::alloc::{AllocError, Global};
use std::collections::VecDeque;
use std::fs::{File, Files};
use std::sync::atomic::AtomicBool;
use std::sync::{Arc, Wait};
use std::time::Clock;
use venue_words::VenueDialect;

/// What of a restored day isn't yet where it is used.
#[derive(Drop)]
pub(crate) struct Again {
    pub refs: Vec<Placed>,
    pub shares: u64,
    pub told: day_restart::Restored,
}

/// Why the day isn't run, by its folder's name.
fn refused(alloc: Global, folder: &str, fault: RestartFault) -> DayFault
    ensures { IsNoMismatch result }
{
    if fault == RestartFault::OutOfMemory {
        return DayFault::OutOfMemory;
    }
    match String::from_str(alloc, folder) {
        Ok(folder) => DayFault::NoJournal(JournalRefused { folder, fault }),
        Err(_) => DayFault::OutOfMemory,
    }
}

/// What the journals outlive, as their files know it.
fn durable_of(durable: Durable) -> journal_folder::Durable
    ensures { result ≡ durable_of durable }
{
    match durable {
        Durable::Process => journal_folder::Durable::Process,
        Durable::Power => journal_folder::Durable::Power,
    }
}

/// The files of a day's journals, read, whose lock is held.
pub(crate) fn open_files<'a, R: Files<File = File> + Clock>(
    rt: &'a R,
    alloc: Global,
    at: JournalAt<'a>,
    names: &JournalNames,
    venues: &[Venue],
) -> Result<DayFiles<'a, R>, DayFault>
    requires { length names.now.venues.items ≡ length venues.now }
    ensures venues { IfOk result (λ files. length files.venues.items ≡ length venues.now) }
    ensures only { IfErr result IsNoMismatch }
{
    match DayFiles::open(rt, alloc, at.folder, durable_of(at.durable), names, venues) {
        Ok(files) => Ok(files),
        Err(fault) => Err(refused(alloc, at.folder, fault)),
    }
}

/// The names of venues, in order.
fn names_of(alloc: Global, venues: &[Venue]) -> Result<Vec<VenueName>, AllocError>
    ensures { IfOk result (λ names. names.items ≡ map (λ v. v.name) venues.now) }
{
    let mut names = Vec::new(alloc);
    for venue in venues {
        names.push(venue.name.clone()?)?;
    }
    Ok(names)
}

/// What is found of the lives before of venues, in order.
fn pasts_of<'p, R: Files<File = File> + Clock>(
    alloc: Global,
    venues: &'p [Venue],
    files: &'p DayFiles<'_, R>,
) -> Result<Vec<VenuePast<'p, VenueDialect>>, AllocError>
    requires { length files.now.venues.items ≡ length venues.now }
    ensures dialects { IfOk result (λ pasts. map (λ p. p.dialect) pasts.items
        ≡ map (λ v. dialect_of v.words) venues.now) }
    ensures lines { IfOk result (λ pasts. map (λ p. map (λ l. l.items) p.lines.now) pasts.items
        ≡ map (λ f. f.lines) files.now.venues.items) }
    ensures names { IfOk result (λ pasts. map (λ p. p.name.now) pasts.items ≡ map (λ v. v.name) venues.now) }
{
    let mut pasts = Vec::new(alloc);
    for venue in venues {
        let lines = files.venue(pasts.len());
        pasts.push(VenuePast {
            name: &venue.name,
            dialect: venue.words.dialect(),
            lines,
        })?;
    }
    Ok(pasts)
}

/// A day that was begun, made anew from its files.
pub(crate) fn restored<L: Run, M: Accounts, R: Files<File = File> + Wait + Clock>(
    rt: &R,
    alloc: Global,
    at: JournalAt<'_>,
    venues: &[Venue],
    files: &DayFiles<'_, R>,
    begun: BegunDay<L, M>,
) -> Result<(BegunDay<L, M>, Again), DayFault>
    requires venues { length venues.now ≤ 16 }
    requires files { length files.now.venues.items ≡ length venues.now }
    requires new { begun.desk.desk.sweeps ≡ [] }
    requires starts { begun.starts.items ≡ new_starts venues.now }
    ensures begun { IfOk result (λ done. (told : List Told)
        → AllZip HasKept (map (λ f. f.lines) files.now.venues.items) told
        → AreBegun 0 venues.now (workers_from venues.now done.0.starts.items told)) }
    ensures desk { IfOk result (λ done. PlacesAgain (map (λ v. v.name) venues.now) files.now.desk.lines
        done.0.desk.desk) }
    ensures noted { IfOk result (λ done. IsNoted done.0.desk
        (Some (record { kept = files.now.desk.lines; unkept = [] }))) }
    ensures told { IfOk result (λ done. TellsDay (map (λ v. v.name) venues.now) files.now.desk.lines
        (map (λ v. v.name) venues.now) done.1.refs.items done.1.shares done.0.starts.items done.1.told) }
    ensures many { IfOk result (λ done. length done.0.starts.items ≡ length venues.now) }
    ensures parts { IfOk result (λ done. done.0.seat.parts ≡ begun.seat.parts) }
    ensures only { IfErr result IsNoMismatch }
{
    let BegunDay {
        mut desk,
        collector,
        mut seat,
        starts,
    } = begun;
    let names = names_of(alloc, venues)?;
    let pasts = pasts_of(alloc, venues, files)?;
    let done = restore_day(
        rt,
        alloc,
        names.as_slice(),
        files.desk(),
        pasts.as_slice(),
        &mut desk,
        &collector,
        &mut seat,
        starts,
    );
    let RestoredDay {
        starts,
        refs,
        shares,
        told,
    } = match done {
        Ok(done) => done,
        Err(fault) => return Err(refused(alloc, at.folder, fault)),
    };
    let begun = BegunDay {
        desk,
        collector,
        seat,
        starts,
    };
    Ok((begun, Again { refs, shares, told }))
}

/// The references of sweeps that were placed in lives before.
fn refs_of(alloc: Global, placed: Vec<Placed>) -> Result<Refs, AllocError>
    ensures { IfOk result (λ refs. refs.book.placed ≡ all_noted [] placed.items) }
{
    let mut refs = Refs::new(alloc);
    for one in placed {
        refs.note_again(one.reference, one.placement)?;
    }
    Ok(refs)
}

/// The journals of the desk and of these venues, of which others say whether each is failing.
fn watched(
    alloc: Global,
    venues: &[Venue],
    failing: Vec<Arc<AtomicBool, Global>>,
) -> Result<Vec<JournalWatch>, AllocError> {
    let mut watched = Vec::new(alloc);
    let mut failing = VecDeque::from(failing);
    if let Some(flag) = failing.pop_front() {
        watched.push(JournalWatch::new(shown(b"desk"), flag))?;
    }
    for venue in venues {
        if let Some(flag) = failing.pop_front() {
            watched.push(JournalWatch::new(shown(venue.name.as_bytes()), flag))?;
        }
    }
    Ok(watched)
}

/// What tells whether the desk is halted, in the folder of its journals.
fn halt_mark<R: Files<File = File>>(
    rt: &R,
    alloc: Global,
    folder: &str,
) -> Result<HaltMark, DayFault>
    ensures { IfErr result IsNoMismatch }
{
    let path = format!(in alloc; "{folder}/halted")?;
    match HaltMark::open(rt, path.as_str()) {
        Ok(mark) => Ok(mark),
        Err(_) => Err(refused(alloc, folder, RestartFault::Folder(FolderFault::NoFolder))),
    }
}

/// What a day goes on with, and its journals, each behind its lines.
pub(crate) fn past_of<'a, R: Files<File = File> + Clock>(
    rt: &'a R,
    alloc: Global,
    at: JournalAt<'_>,
    names: &'a JournalNames,
    venues: &'a [Venue],
    files: &DayFiles<'a, R>,
    placed: Vec<Placed>,
    shares: u64,
) -> Result<Past<DayJournal<'a, R>>, DayFault>
    requires names { length names.now.venues.items ≡ length venues.now }
    requires files { length files.now.venues.items ≡ length venues.now }
    ensures desk { IfOk result (λ past. past.desk ≡ record { kept = files.now.desk.lines; unkept = [] }) }
    ensures venues { IfOk result (λ past. AllZip GoesBehind (map (λ f. f.lines) files.now.venues.items)
        past.venues.items) }
    ensures refs { IfOk result (λ past. past.refs.book.placed ≡ all_noted [] placed.items) }
    ensures shares { IfOk result (λ past. past.shares ≡ shares) }
    ensures only { IfErr result IsNoMismatch }
{
    // The mark is made before the journals' files, with which its folder is put on the disk.
    let halt_mark = halt_mark(rt, alloc, at.folder)?;
    let DayJournals {
        desk,
        venues: journals,
        failing,
    } = match files.go_on(rt, alloc, names, venues) {
        Ok(journals) => journals,
        Err(fault) => return Err(refused(alloc, at.folder, fault)),
    };
    Ok(Past {
        refs: refs_of(alloc, placed)?,
        shares,
        desk,
        venues: journals,
        watched: watched(alloc, venues, failing)?,
        halt_mark: Some(halt_mark),
    })
}
