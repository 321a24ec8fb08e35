//! What a whole text says.

ghost use Rattle.std.specs.Prelude.{◌≡◌};
ghost use Rattle.journal_record.specs.Reading.{IsJudged, is_damaged};

use crate::reader::LineReader;

/// How a text goes on behind the lines that count.
#[derive(Clone, Copy, Debug, PartialEq, Eq)]
pub enum TextEnd {
    /// Not at all.
    Whole,
    /// With the beginning of a line, whose end isn't there.
    Torn,
    /// With a whole line that is the record of none.
    Damaged,
}

impl TextEnd {
    /// Whether a line is damaged.
    pub fn is_damaged(self) -> bool
        ensures { result ≡ is_damaged self }
    {
        matches!(self, TextEnd::Damaged)
    }
}

/// How many lines of a text count, how many bytes they take, and what is behind them.
#[derive(Clone, Copy, Debug, PartialEq, Eq)]
pub struct Judged {
    pub lines: usize,
    pub bytes: usize,
    pub end: TextEnd,
}

/// What was read so far, and what is behind it.
fn judged_so_far(reader: &LineReader<'_>, end: TextEnd) -> Judged
    ensures { result ≡ record { lines = reader.now.lines; bytes = reader.now.at; end = end } }
{
    Judged {
        lines: reader.lines(),
        bytes: reader.at(),
        end,
    }
}

/// Reads a text to its end, or to its first line that is damaged.
pub fn judge(text: &[u8]) -> Judged
    ensures { IsJudged text.now result }
{
    let mut reader = LineReader::new(text);
    loop {
        match reader.next() {
            Ok(Some(_)) => {}
            Ok(None) if reader.is_at_end() => return judged_so_far(&reader, TextEnd::Whole),
            Ok(None) => return judged_so_far(&reader, TextEnd::Torn),
            Err(_) => return judged_so_far(&reader, TextEnd::Damaged),
        }
    }
}
