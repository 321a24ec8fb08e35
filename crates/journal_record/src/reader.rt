//! The lines of a text, one after the other.

ghost use Rattle.std.specs.Prelude.{◌≡◌, ◌≢◌, ◌↔◌, ◌+◌, ◌<◌, ℕ, List, [], Some, None, true, MatchResult, MatchOption, length, drop};
ghost use Rattle.std.specs.Option.{option_map};
ghost use Rattle.journal_record.specs.Record.{marked, sum_after};
ghost use Rattle.journal_record.specs.Reading.{IsDamaged, IsNext, first_line, new_reader};

use crate::damage::Damage;
use crate::sum::{MARK_LEN, mark_of, sum_after};
use memchr::memchr;
use std::marker::Model;

/// A text of lines that is read from its front. The lines lie where the text has them, and it takes no memory.
#[derive(Drop)]
pub struct LineReader<'a> {
    text: &'a [u8],
    lines: usize,
    at: usize,
    sum: u32,
}

impl<'a> Model for LineReader<'a> {
    ghost use Rattle.std.specs.Prelude.{◌≤◌, drop, length};
    ghost use Rattle.journal_record.specs.Reading.{ReaderParts};

    ghost Value = { ReaderParts };

    ghost view = { λ r. record { rest = drop r.at r.text.now; lines = r.lines; at = r.at; sum = r.sum } };

    ghost invariant = { λ r. (r.at ≤ length r.text.now) × (r.lines ≤ r.at) };
}

/// The first line of a text, without its end.
#[tactic(auto, using(crate::proofs::Ends::line_found, crate::proofs::Ends::no_line))]
fn first_line(text: &[u8]) -> Option<&[u8]>
    ensures { MatchOption result (first_line text.now ≡ None)
        (λ whole. (first_line text.now ≡ Some (whole.now, drop (length whole.now + 1) text.now))
        × (length whole.now < length text.now)) }
{
    let end = memchr(b'\n', text)?;
    Some(&text[..end])
}

/// The line of a whole line that is the record of one, where the lines before it have this sum.
fn line_of(sum: u32, whole: &[u8]) -> Option<&[u8]>
    ensures { MatchOption result ((line : List ℕ) → whole.now ≢ marked sum line)
        (λ line. whole.now ≡ marked sum line.now) }
{
    if whole.len() < MARK_LEN {
        return None;
    }
    let line = &whole[MARK_LEN..];
    let mark = mark_of(sum_after(sum, line));
    if whole[..MARK_LEN] == mark[..] {
        Some(line)
    } else {
        None
    }
}

impl<'a> LineReader<'a> {
    /// Reads this text from its front.
    pub fn new(text: &'a [u8]) -> LineReader<'a>
        ensures { result ≡ new_reader text.now }
    {
        LineReader {
            text,
            lines: 0,
            at: 0,
            sum: 0,
        }
    }

    /// What is left of the text.
    fn rest(&self) -> &'a [u8]
        ensures { result.now ≡ self.now.rest }
    {
        &self.text[self.at..]
    }

    /// The next line, or none behind the last end of a line. At a line that is damaged nothing is read, now and later.
    pub fn next(&mut self) -> Result<Option<&'a [u8]>, Damage>
        ensures { MatchResult result (λ line. IsNext self.old (option_map (λ l. l.now) line) self.new)
            (λ damage. IsDamaged self.old damage × (self.new ≡ self.old)) }
    {
        let Some(whole) = first_line(self.rest()) else {
            return Ok(None);
        };
        let Some(line) = line_of(self.sum, whole) else {
            return Err(Damage {
                line: self.lines + 1,
                at: self.at,
            });
        };
        self.sum = sum_after(self.sum, line);
        self.lines += 1;
        self.at += whole.len() + 1;
        Ok(Some(line))
    }

    /// How many lines were read.
    pub fn lines(&self) -> usize
        ensures { result ≡ self.now.lines }
    {
        self.lines
    }

    /// How many bytes they take.
    pub fn at(&self) -> usize
        ensures { result ≡ self.now.at }
    {
        self.at
    }

    /// Whether nothing is left of the text.
    pub fn is_at_end(&self) -> bool
        ensures { result ≡ true ↔ self.now.rest ≡ [] }
    {
        self.at == self.text.len()
    }
}
