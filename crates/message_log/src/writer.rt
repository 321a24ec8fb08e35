//! Where the lines are written.

ghost use Rattle.std.specs.Prelude.{◌≡◌, true, false, not, OnOk};
ghost use Rattle.std.specs.Io.KnownBytes.{Appends};
ghost use Rattle.message_log.specs.Queue.{can_take, handed_over, settled};
ghost use Rattle.message_log.specs.Writer.{batch_text};

use crate::queue::LogQueue;
use std::io;
use std::io::Write;

/// A log that is written. A write that fails may leave the beginning of a line there; the next one begins a line of its
/// own.
#[derive(Debug, Drop)]
pub struct LogWriter<W: Drop> {
    out: W,
    is_torn: bool,
}

impl<W: Write + Drop> LogWriter<W> {
    /// A log that goes on behind what was written there.
    pub fn new(out: W) -> LogWriter<W>
        ensures out { result.out ≡ out }
        ensures whole { result.is_torn ≡ false }
    {
        LogWriter {
            out,
            is_torn: false,
        }
    }

    fn try_write(&mut self, lines: &[u8]) -> io::Result<()>
        ensures bytes { OnOk result (Appends (W.contents self.old.out) (W.contents self.new.out)
            (batch_text self.old.is_torn lines.now)) }
        ensures torn { self.new.is_torn ≡ self.old.is_torn }
    {
        if self.is_torn {
            self.out.write_all(b"\n")?;
        }
        self.out.write_all(lines)?;
        self.out.flush()
    }

    /// Writes lines, and says whether all of them are written.
    pub fn write(&mut self, lines: &[u8]) -> bool
        ensures bytes { result ≡ true → Appends (W.contents self.old.out) (W.contents self.new.out)
            (batch_text self.old.is_torn lines.now) }
        ensures torn { self.new.is_torn ≡ not result }
    {
        let is_written = self.try_write(lines).is_ok();
        self.is_torn = !is_written;
        is_written
    }

    /// Writes the lines that wait, and settles them: they are kept where all of them are written, else lost. Nothing
    /// happens where none wait, or where others were handed over and aren't settled.
    pub fn write_waiting(&mut self, queue: &mut LogQueue)
        ensures settled { can_take queue.old ≡ true →
            queue.new ≡ settled (not self.new.is_torn) (handed_over queue.old) }
        ensures bytes { can_take queue.old ≡ true → self.new.is_torn ≡ false → Appends (W.contents self.old.out)
            (W.contents self.new.out) (batch_text self.old.is_torn queue.old.lines) }
        ensures queue { can_take queue.old ≡ false → queue.new ≡ queue.old }
        ensures out { can_take queue.old ≡ false → self.new ≡ self.old }
    {
        if let Some(lines) = queue.take() {
            let is_written = self.write(lines.as_slice());
            queue.settle(is_written);
        }
    }
}
