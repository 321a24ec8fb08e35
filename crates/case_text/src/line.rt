//! The kinds of a line.

/// A line of a case file.
#[derive(Clone, Copy, Debug, PartialEq, Eq)]
pub enum Line<'a> {
    /// What was wanted of the command before: `> ..` or `= ..`.
    Wanted,
    /// A comment, an empty line, or `shows ..`.
    Note,
    /// The name of the case that begins.
    Case(&'a str),
    Command(&'a str),
}

impl<'a> Line<'a> {
    /// The line of this text.
    pub fn of(text: &'a str) -> Line<'a> {
        match text.as_bytes() {
            [b'>' | b'=', b' ', ..] => Line::Wanted,
            [] | [b'#', ..] => Line::Note,
            _ if text.starts_with("shows ") => Line::Note,
            _ => match text.strip_prefix("case ") {
                Some(name) => Line::Case(name),
                None => Line::Command(text),
            },
        }
    }
}
