//! The lines of a whole text.

ghost use Rattle.std.specs.Prelude.{◌≡◌, ◌++◌, ◌∷◌, [], IfOk, OnOk, map};
ghost use Rattle.journal_record.specs.Reading.{HasAll};

use crate::judging::TextEnd;
use crate::reader::LineReader;
use std::alloc::{AllocError, Global};

/// The lines of a text that count, how many bytes they take, and what is behind them.
#[derive(Debug, Drop)]
pub struct TextLines {
    pub lines: Vec<Vec<u8>>,
    pub bytes: usize,
    pub end: TextEnd,
}

/// Puts a copy of a line behind others.
fn push_line(alloc: Global, lines: &mut Vec<Vec<u8>>, line: &[u8]) -> Result<(), AllocError>
    ensures { OnOk result (map (λ line. line.items) lines.new.items
        ≡ map (λ line. line.items) lines.old.items ++ line.now ∷ []) }
{
    lines.push(line.to_vec(alloc)?)?;
    Ok(())
}

/// The lines that were read so far, and what is behind them.
fn read_so_far(reader: &LineReader<'_>, lines: Vec<Vec<u8>>, end: TextEnd) -> TextLines
    ensures { result ≡ record { lines = lines; bytes = reader.now.at; end = end } }
{
    TextLines {
        lines,
        bytes: reader.at(),
        end,
    }
}

/// Reads the lines of a text to its end, or to the first that is damaged.
pub fn lines_of(alloc: Global, text: &[u8]) -> Result<TextLines, AllocError>
    ensures { IfOk result
        (λ read. HasAll text.now (map (λ line. line.items) read.lines.items) read.bytes read.end) }
{
    let mut reader = LineReader::new(text);
    let mut lines = Vec::new(alloc);
    loop {
        match reader.next() {
            Ok(Some(line)) => push_line(alloc, &mut lines, line)?,
            Ok(None) if reader.is_at_end() => return Ok(read_so_far(
                &reader,
                lines,
                TextEnd::Whole,
            )),
            Ok(None) => return Ok(read_so_far(&reader, lines, TextEnd::Torn)),
            Err(_) => return Ok(read_so_far(&reader, lines, TextEnd::Damaged)),
        }
    }
}
