//! What is found of a journal.

ghost use Rattle.std.specs.Prelude.{◌≡◌, ◌≤◌, ℕ, List, length, drop, map, IfErr, MatchResult, Some};
ghost use Rattle.std.specs.Option.{option_map};
ghost use Rattle.journal_folder.specs.Found.{GoesOn, HasLinesOf, IsFoundOf, IsRefused, IsSound, IsTaken, IsUnread, MayBeDamaged, MayRefuse, MayRefuseLines};
ghost use Rattle.journal_folder.specs.Found.{filled, head_fault, none_found, other_words};

use crate::fault::FolderFault;
use crate::head::{Head, read_head};
use crate::listed::journal_path;
use journal_record::lines_of;
use journal_tape::text_of;
use std::alloc::Global;
use std::fs::{self, File, Files};
use std::io::ErrorKind;
use std::marker::Model;

/// The lines of a journal that count, in order, without its heads.
#[derive(Debug, Drop)]
pub struct Found {
    lines: Vec<Vec<u8>>,
    files: usize,
    words: Option<Vec<u8>>,
    torn: usize,
    stray: usize,
}

impl Model for Found {
    ghost use Rattle.std.specs.Prelude.{map};
    ghost use Rattle.std.specs.Option.{option_map};
    ghost use Rattle.journal_folder.specs.Found.{FoundParts};

    ghost Value = { FoundParts };

    ghost view = { λ f. record {
      lines = map (λ line. line.items) f.lines.items;
      files = f.files;
      words = option_map (λ words. words.items) f.words;
      torn = f.torn;
      stray = f.stray;
    } };
}

/// The lines of a file, how many bytes behind them are the beginning of a line, and how many bytes behind the first
/// NUL are none.
#[derive(Drop)]
struct FileLines {
    lines: Vec<Vec<u8>>,
    torn: usize,
    stray: usize,
}

/// How many bytes behind a text aren't NUL.
fn filled_behind(bytes: &[u8], end: usize) -> usize
    requires { end ≤ length bytes.now }
    ensures { result ≡ filled (drop end bytes.now) }
{
    bytes[end..].iter().filter(|byte| **byte != 0).count()
}

/// What a file with these bytes has.
#[tactic(auto, using(crate::proofs::Founds::within, crate::proofs::Founds::text_within))]
fn file_lines(alloc: Global, file: usize, bytes: &[u8]) -> Result<FileLines, FolderFault>
    ensures { MatchResult result
        (λ read. IsSound bytes.now (map (λ line. line.items) read.lines.items) read.torn read.stray)
        (MayBeDamaged file bytes.now) }
{
    let text = text_of(bytes);
    let read = lines_of(alloc, text)?;
    if read.end.is_damaged() {
        return Err(FolderFault::Damaged {
            file,
            line: read.lines.len() + 1,
            at: read.bytes,
        });
    }
    Ok(FileLines {
        torn: text.len() - read.bytes,
        stray: filled_behind(bytes, text.len()),
        lines: read.lines,
    })
}

impl Found {
    /// Nothing, where no file is there.
    pub fn new(alloc: Global) -> Found
        ensures { result ≡ none_found }
    {
        Found {
            lines: Vec::new(alloc),
            files: 0,
            words: None,
            torn: 0,
            stray: 0,
        }
    }

    /// The lines.
    pub fn lines(&self) -> &[Vec<u8>]
        ensures { map (λ line. line.items) result.now ≡ self.now.lines }
    {
        self.lines.as_slice()
    }

    /// How many lines.
    pub fn count(&self) -> usize
        ensures { result ≡ length self.now.lines }
    {
        self.lines.len()
    }

    /// How many files.
    pub fn files(&self) -> usize
        ensures { result ≡ self.now.files }
    {
        self.files
    }

    /// The words of the heads; none where no file has one.
    pub fn words(&self) -> Option<&[u8]>
        ensures { option_map (λ words. words.now) result ≡ self.now.words }
    {
        match &self.words {
            Some(words) => Some(words.as_slice()),
            None => None,
        }
    }

    /// How many bytes of the last file are the beginning of a line, which doesn't count.
    pub fn torn(&self) -> usize
        ensures { result ≡ self.now.torn }
    {
        self.torn
    }

    /// How many bytes behind the first NUL of the last file are none: a write was under way when power was lost, or
    /// they are damage.
    pub fn stray(&self) -> usize
        ensures { result ≡ self.now.stray }
    {
        self.stray
    }

    /// Whether the heads have other words than these.
    pub fn has_other_words(&self, words: &[u8]) -> bool
        ensures { result ≡ other_words self.now.words words.now }
    {
        match &self.words {
            Some(found) => found.as_slice() != words,
            None => false,
        }
    }

    /// Why a file of this number can't have this head.
    fn head_fault(&self, file: usize, head: &Head<'_>) -> Option<FolderFault>
        ensures { result ≡ head_fault file self.now (Some (head.now.file, head.now.after, head.now.words.now)) }
    {
        if head.file != file as u64 {
            return Some(FolderFault::NoHead { file });
        }
        let found = self.lines.len();
        if head.after > found as u64 {
            return Some(FolderFault::LinesGone {
                file,
                after: head.after,
                found,
            });
        }
        if self.has_other_words(head.words) {
            return Some(FolderFault::OtherWords { file });
        }
        None
    }

    /// Puts the lines of a file with this head behind those that count before it.
    #[tactic(auto, using(crate::proofs::Founds::gone_on))]
    fn go_on(
        &mut self,
        alloc: Global,
        head: &Head<'_>,
        mut more: Vec<Vec<u8>>,
    ) -> Result<(), FolderFault>
        ensures { MatchResult result (λ _. GoesOn self.old head.now.after head.now.words.now
            (map (λ line. line.items) more.items) self.new) (λ fault. fault ≡ FolderFault.OutOfMemory) }
    {
        let words = head.words.to_vec(alloc)?;
        self.lines.truncate(head.after as usize);
        self.lines.append(&mut more)?;
        self.words = Some(words);
        Ok(())
    }

    /// Takes the lines of a file, of which the first is its head.
    #[tactic(auto, using(crate::proofs::Founds::first_of))]
    fn take_lines(
        &mut self,
        alloc: Global,
        file: usize,
        mut lines: Vec<Vec<u8>>,
    ) -> Result<(), FolderFault>
        ensures { MatchResult result (λ _. HasLinesOf self.old file (map (λ line. line.items) lines.items) self.new)
            (MayRefuseLines self.old file (map (λ line. line.items) lines.items)) }
    {
        if lines.is_empty() {
            return Ok(());
        }
        let line = lines.remove(0);
        let Some(head) = read_head(line.as_slice()) else {
            return Err(FolderFault::NoHead { file });
        };
        match self.head_fault(file, &head) {
            Some(fault) => Err(fault),
            None => self.go_on(alloc, &head, lines),
        }
    }

    /// Takes the lines of the file of this number. One whose head isn't whole has none: it was being made when its life
    /// ended. At `Err` what was found is of no use any more.
    #[tactic(auto, using(crate::proofs::Founds::refused, crate::proofs::Founds::damaged))]
    pub fn take_file(&mut self, alloc: Global, file: usize, bytes: &[u8]) -> Result<(), FolderFault>
        ensures { MatchResult result (λ _. IsTaken self.old file bytes.now self.new)
            (MayRefuse self.old file bytes.now) }
    {
        let read = file_lines(alloc, file, bytes)?;
        self.files = file;
        self.torn = read.torn;
        self.stray = read.stray;
        self.take_lines(alloc, file, read.lines)
    }
}

/// The bytes of a file.
fn read_file<R: Files<File = File>>(
    rt: &R,
    alloc: Global,
    path: &str,
    file: usize,
) -> Result<Vec<u8>, FolderFault>
    ensures { IfErr result IsUnread }
{
    match fs::read(&(rt, alloc), path) {
        Ok(bytes) => Ok(bytes),
        Err(error) => match error.kind() {
            ErrorKind::NotFound => Err(FolderFault::Gone { file }),
            ErrorKind::OutOfMemory => Err(FolderFault::OutOfMemory),
            _ => Err(FolderFault::CantRead { file }),
        },
    }
}

/// Reads so many files of a journal, in order.
#[tactic(auto, using(crate::proofs::Founds::unread, crate::proofs::Founds::breaks))]
pub fn read_journal<R: Files<File = File>>(
    rt: &R,
    alloc: Global,
    folder: &str,
    name: &str,
    files: usize,
) -> Result<Found, FolderFault>
    ensures { MatchResult result (IsFoundOf files) IsRefused }
{
    let mut found = Found::new(alloc);
    for before in 0..files {
        let file = before + 1;
        let path = journal_path(alloc, folder, name, file)?;
        let bytes = read_file(rt, alloc, path.as_str(), file)?;
        found.take_file(alloc, file, bytes.as_slice())?;
    }
    Ok(found)
}
