//! The head of a file.

ghost use Rattle.std.specs.Prelude.{◌≡◌, ◌==◌, IfOk, position};
ghost use Rattle.std.specs.Option.{option_map};
ghost use Rattle.journal_folder.specs.Head.{behind, count_of, has_leading_zero, head_of, head_text, numbered, parts_round};

use fix_tags::read_number;
use std::alloc::{AllocError, Global};

/// The first line of each file: its number, from 1, how many lines count in the files before it, heads left out, and
/// the words of the journal, as its date, desk and venue.
#[derive(Clone, Copy, Debug)]
pub struct Head<'a> {
    pub file: u64,
    pub after: u64,
    pub words: &'a [u8],
}

/// The line of a head: `journal 1 file 2 after 1024 WORDS`.
pub fn head_line(
    alloc: Global,
    file: usize,
    after: usize,
    words: &str,
) -> Result<Vec<u8>, AllocError>
    ensures { IfOk result (λ line. line.items ≡ head_text file after words.now) }
{
    let line = format!(in alloc; "journal 1 file {file} after {after} {words}")?;
    Ok(line.into_bytes())
}

/// Whether a number is written with a zero before it.
fn has_leading_zero(text: &[u8]) -> bool
    ensures { result ≡ has_leading_zero text.now }
{
    matches!(text, [b'0', _, ..])
}

/// A number up to 999,999,999,999, without a sign or zeros before it.
pub(crate) fn count_of(text: &[u8]) -> Option<u64>
    ensures { result ≡ count_of text.now }
{
    if has_leading_zero(text) {
        return None;
    }
    read_number(text)
}

/// What stands behind the front of a text, if it has this front.
fn behind<'a>(text: &'a [u8], front: &[u8]) -> Option<&'a [u8]>
    ensures { option_map (λ rest. rest.now) result ≡ behind front.now text.entry.now }
{
    if text.starts_with(front) {
        Some(&text[front.len()..])
    } else {
        None
    }
}

fn first_space(text: &[u8]) -> Option<usize>
    ensures { result ≡ position (λ c. c == 32) text.now }
{
    text.iter().position(|byte| *byte == b' ')
}

/// What stands before the first space and what stands after it, where there is one.
fn parts_round(text: &[u8]) -> Option<(&[u8], &[u8])>
    ensures { option_map (λ parts. (parts.0.now, parts.1.now)) result ≡ parts_round 32 text.now }
{
    let at = first_space(text)?;
    Some((&text[..at], &text[at + 1..]))
}

/// The number behind the front of a text, and what stands after it.
fn numbered<'a>(text: &'a [u8], front: &[u8]) -> Option<(u64, &'a [u8])>
    ensures { option_map (λ parts. (parts.0, parts.1.now)) result ≡ numbered front.now text.entry.now }
{
    let (number, rest) = parts_round(behind(text, front)?)?;
    let number = count_of(number)?;
    Some((number, rest))
}

/// The head that a line is, if it is one.
pub fn read_head(line: &[u8]) -> Option<Head<'_>>
    ensures { option_map (λ head. (head.file, head.after, head.words.now)) result ≡ head_of line.now }
{
    let (file, rest) = numbered(line, b"journal 1 file ")?;
    let (after, words) = numbered(rest, b"after ")?;
    Some(Head { file, after, words })
}
