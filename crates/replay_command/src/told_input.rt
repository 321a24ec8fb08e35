//! How far a script is read, as it is told to a terminal.

ghost use Rattle.std.specs.Prelude.{◌≡◌};

use std::io::{self, IsTerminal, Read, Write};

/// After how many bytes it is told again how far a script is read.
const TOLD_EVERY: u64 = 1 << 20;

/// An input of which it is told to a terminal, each mebibyte, how many lines of it were read.
#[derive(Drop)]
pub struct ToldInput<'a, R, E> {
    input: R,
    err: &'a mut E,
    lines: u64,
    // The bytes that were read since it was told last.
    bytes: u64,
}

impl<'a, R, E: Write + IsTerminal> ToldInput<'a, R, E> {
    /// An input of which nothing was read.
    pub fn new(input: R, err: &'a mut E) -> ToldInput<'a, R, E>
        ensures { result.input ≡ input }
    {
        ToldInput {
            input,
            err,
            lines: 0,
            bytes: 0,
        }
    }

    /// Counts a piece that was read, and tells where it is time to.
    fn count(&mut self, piece: &[u8])
        ensures { self.new.input ≡ self.old.input }
    {
        let lines = piece.iter().filter(|byte| **byte == b'\n').count();
        self.lines = self.lines.saturating_add(lines as u64);
        self.bytes = self.bytes.saturating_add(piece.len() as u64);
        if self.bytes >= TOLD_EVERY {
            self.bytes = 0;
            self.tell();
        }
    }

    /// Tells a terminal how far the input is read.
    fn tell(&mut self)
        ensures { self.new.input ≡ self.old.input }
    {
        if self.err.is_terminal() {
            let lines = self.lines;
            let _ = writeln!(self.err, "dispatch: {lines} lines read");
        }
    }
}

impl<'a, R: Read, E: Write + IsTerminal> Read for ToldInput<'a, R, E> {
    ghost remaining = { λ told. R.remaining told.input };

    fn read(&mut self, buf: &mut [u8]) -> io::Result<usize> {
        let count = self.input.read(buf)?;
        self.count(&buf[..count]);
        Ok(count)
    }
}
