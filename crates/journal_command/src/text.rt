//! What is printed of a journal.

ghost use Rattle.std.specs.Prelude.{◌≡◌, ◌++◌, IfOk, OnOk, map};
ghost use Rattle.std.specs.Option.{option_map};
ghost use Rattle.journal_command.specs.Shown.{broken_text, damaged_text, gone_text, headless_text, other_text, short_text};
ghost use Rattle.journal_command.specs.Shown.{end_text, found_text, is_whole, line_shown, lines_shown, title_text, torn_text, whole_text, words_text};

use journal_folder::{FolderFault, Found};
use std::alloc::{AllocError, Global};

/// Puts the line with the name of a journal behind a text.
pub(crate) fn add_title(alloc: Global, text: &mut Vec<u8>, name: &str) -> Result<(), AllocError>
    ensures { OnOk result (text.new.items ≡ text.old.items ++ title_text name.now) }
{
    let title = format!(in alloc; "journal {name}\n")?;
    text.extend_from_slice(title.as_bytes())
}

/// Puts the line with the words of the heads behind a text, if there are any.
fn add_words(text: &mut Vec<u8>, words: Option<&[u8]>) -> Result<(), AllocError>
    ensures { OnOk result
        (text.new.items ≡ text.old.items ++ words_text (option_map (λ words. words.now) words.entry)) }
{
    match words {
        Some(words) => {
            text.extend_from_slice(b"words ")?;
            text.extend_from_slice(words)?;
            text.extend_from_slice(b"\n")
        }
        None => Ok(()),
    }
}

/// Puts a line of this number behind a text, as it is printed.
fn add_line(alloc: Global, text: &mut Vec<u8>, number: usize, line: &[u8]) -> Result<(), AllocError>
    ensures { OnOk result (text.new.items ≡ text.old.items ++ line_shown number line.now) }
{
    let front = format!(in alloc; "line {number} ")?;
    text.extend_from_slice(front.as_bytes())?;
    text.extend_from_slice(line)?;
    text.extend_from_slice(b"\n")
}

/// Puts lines behind a text, as they are printed.
fn add_lines(alloc: Global, text: &mut Vec<u8>, lines: &[Vec<u8>]) -> Result<(), AllocError>
    ensures { OnOk result (text.new.items ≡ text.old.items
        ++ lines_shown 1 (map (λ line. line.items) lines.now)) }
{
    let mut number = 0;
    for line in lines {
        number += 1;
        add_line(alloc, text, number, line.as_slice())?;
    }
    Ok(())
}

/// Whether nothing is behind the lines of a journal.
fn is_whole(found: &Found) -> bool
    ensures { result ≡ is_whole found.now }
{
    found.torn() == 0 && found.stray() == 0
}

/// The line on the end of a journal with nothing behind its lines.
fn whole_text(alloc: Global, files: usize, lines: usize) -> Result<Vec<u8>, AllocError>
    ensures { IfOk result (λ text. text.items ≡ whole_text files lines) }
{
    let text = format!(in alloc; "end whole files {files} lines {lines}\n")?;
    Ok(text.into_bytes())
}

/// The line on the end of a journal behind whose lines are bytes of a torn line, or stray ones.
fn torn_text(
    alloc: Global,
    files: usize,
    lines: usize,
    torn: usize,
    stray: usize,
) -> Result<Vec<u8>, AllocError>
    ensures { IfOk result (λ text. text.items ≡ torn_text files lines torn stray) }
{
    let text = format!(in alloc;
        "end torn files {files} lines {lines} bytes {torn} stray {stray}\n"
    )?;
    Ok(text.into_bytes())
}

/// The line on the end of a journal that can be gone on with.
fn end_text(alloc: Global, found: &Found) -> Result<Vec<u8>, AllocError>
    ensures { IfOk result (λ text. text.items ≡ end_text found.now) }
{
    let (files, lines) = (found.files(), found.count());
    if is_whole(found) {
        Ok(whole_text(alloc, files, lines)?)
    } else {
        Ok(torn_text(alloc, files, lines, found.torn(), found.stray())?)
    }
}

/// Puts what was found of a journal behind a text.
pub(crate) fn add_found(
    alloc: Global,
    text: &mut Vec<u8>,
    found: &Found,
    tells_lines: bool,
) -> Result<(), AllocError>
    ensures { OnOk result (text.new.items ≡ text.old.items ++ found_text tells_lines found.now) }
{
    add_words(text, found.words())?;
    if tells_lines {
        add_lines(alloc, text, found.lines())?;
    }
    text.extend_from_slice(end_text(alloc, found)?.as_slice())
}

/// The line on a file that is gone.
fn gone_text(alloc: Global, file: usize) -> Result<Vec<u8>, AllocError>
    ensures { IfOk result (λ text. text.items ≡ gone_text file) }
{
    let text = format!(in alloc; "broken file {file} is gone\n")?;
    Ok(text.into_bytes())
}

/// The line on a file that is damaged.
fn damaged_text(alloc: Global, file: usize, line: usize, at: usize) -> Result<Vec<u8>, AllocError>
    ensures { IfOk result (λ text. text.items ≡ damaged_text file line at) }
{
    let text = format!(in alloc; "broken file {file} is damaged at line {line}, byte {at}\n")?;
    Ok(text.into_bytes())
}

/// The line on a file with no head.
fn headless_text(alloc: Global, file: usize) -> Result<Vec<u8>, AllocError>
    ensures { IfOk result (λ text. text.items ≡ headless_text file) }
{
    let text = format!(in alloc; "broken file {file} has no head of a journal\n")?;
    Ok(text.into_bytes())
}

/// The line on a file before which lines are gone.
fn short_text(alloc: Global, file: usize, after: u64, found: usize) -> Result<Vec<u8>, AllocError>
    ensures { IfOk result (λ text. text.items ≡ short_text file after found) }
{
    let text = format!(in alloc;
        "broken file {file} follows {after} lines, of which {found} are there\n"
    )?;
    Ok(text.into_bytes())
}

/// The line on a file of another journal.
fn other_text(alloc: Global, file: usize) -> Result<Vec<u8>, AllocError>
    ensures { IfOk result (λ text. text.items ≡ other_text file) }
{
    let text = format!(in alloc; "broken file {file} is of another day, desk or venue\n")?;
    Ok(text.into_bytes())
}

/// The line on a journal that can't be gone on with by what its files have; none of another fault.
pub(crate) fn broken_text(alloc: Global, fault: FolderFault) -> Result<Option<Vec<u8>>, AllocError>
    ensures { IfOk result (λ text. option_map (λ text. text.items) text ≡ broken_text fault) }
{
    match fault {
        FolderFault::Gone { file } => Ok(Some(gone_text(alloc, file)?)),
        FolderFault::Damaged { file, line, at } => Ok(Some(damaged_text(alloc, file, line, at)?)),
        FolderFault::NoHead { file } => Ok(Some(headless_text(alloc, file)?)),
        FolderFault::LinesGone { file, after, found } => {
            Ok(Some(short_text(alloc, file, after, found)?))
        }
        FolderFault::OtherWords { file } => Ok(Some(other_text(alloc, file)?)),
        _ => Ok(None),
    }
}
