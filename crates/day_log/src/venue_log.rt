//! The lines of a log between the thread that puts them and the one that writes them.

ghost use Rattle.std.specs.Prelude.{◌≡◌, ◌++◌, IfOk, IfSome, IsSomeAnd, codes};
ghost use Rattle.message_log.specs.declared.direction.Direction.TheVariants.{Sent};
ghost use Rattle.message_log.specs.Line.{line_text};

use crate::counts::LogCounts;
use change_count::ChangeCount;
use fix_tags::Stamp;
use message_log::{Direction, LogQueue, log_line};
use std::alloc::{AllocError, Global};
use std::sync::{Arc, Mutex, Wait};
use std::time::Duration;

/// How many bytes of lines wait to be written, at most.
const ROOM: usize = 1_048_576;

/// The lines of one log, of a venue or of the desk, that wait to be written, 1 MiB of them at most, behind a lock. No
/// line is made and nothing is written while the lock is held.
#[derive(Drop)]
pub struct VenueLog {
    alloc: Global,
    queue: Mutex<LogQueue>,
    // Tells who writes that a line waits.
    lines: Arc<ChangeCount, Global>,
}

/// The line of a message that has a text. None where it has none, or there is no memory for its line.
fn line_of(
    alloc: Global,
    stamp: &Stamp,
    direction: Direction,
    message: Option<&[u8]>,
) -> Option<Vec<u8>>
    ensures { IfSome result (λ line. IsSomeAnd message.entry (λ text.
        line.items ≡ line_text stamp.now direction text.now)) }
{
    match message {
        Some(text) => log_line(alloc, stamp, direction, text).ok(),
        None => None,
    }
}

/// The line of a remark, which whoever reads the log passes over: `# 20261124-14:30:00.123 > by alice`.
fn remark_line(alloc: Global, stamp: &Stamp, words: &[u8]) -> Result<Vec<u8>, AllocError>
    ensures { IfOk result (λ line. line.items ≡ codes "# " ++ line_text stamp.now Sent words.now) }
{
    let mut line = Vec::new(alloc);
    line.extend_from_slice(b"# ")?;
    line.extend_from_slice(&log_line(alloc, stamp, Direction::Sent, words)?)?;
    Ok(line)
}

impl VenueLog {
    /// No line waits yet. It tells each line there.
    pub fn new(alloc: Global, lines: Arc<ChangeCount, Global>) -> VenueLog {
        VenueLog {
            alloc,
            queue: Mutex::new(LogQueue::new(alloc, ROOM)),
            lines,
        }
    }

    /// Where the day's logs tell their lines.
    pub(crate) fn shared_lines(&self) -> Result<Arc<ChangeCount, Global>, AllocError> {
        self.lines.clone()
    }

    /// How many lines were put into the day's logs.
    pub(crate) fn lines_put(&self) -> u64 {
        self.lines.count()
    }

    /// Waits until more lines than these are put into one of the day's logs, so long at most, or for `wake_writer`.
    pub(crate) fn wait_for_line(&self, rt: &impl Wait, put: u64, most: Duration) {
        self.lines.wait(rt, put, most);
    }

    /// Who writes the lines of the day's logs is to look whether the day is over.
    pub fn wake_writer(&self) {
        self.lines.tell();
    }

    /// Puts the line of a message behind those that wait. It is lost, and counted so, where the message has no text, or
    /// there is no room or memory for its line.
    pub fn note(
        &self,
        rt: &impl Wait,
        stamp: &Stamp,
        direction: Direction,
        message: Option<&[u8]>,
    ) {
        match line_of(self.alloc, stamp, direction, message) {
            Some(line) => {
                self.put(rt, line.as_slice());
                self.lines.tell();
            }
            None => self.queue.lock(rt).lose(),
        }
    }

    /// Puts a remark behind the lines that wait. It is lost, and counted so, where there is no room or memory for it.
    pub fn remark(&self, rt: &impl Wait, stamp: &Stamp, words: &[u8]) {
        match remark_line(self.alloc, stamp, words) {
            Ok(line) => {
                self.put(rt, line.as_slice());
                self.lines.tell();
            }
            Err(_) => self.queue.lock(rt).lose(),
        }
    }

    fn put(&self, rt: &impl Wait, line: &[u8]) {
        let _ = self.queue.lock(rt).put(line);
    }

    /// Hands over the lines that wait, in order; none where there is none.
    pub(crate) fn take(&self, rt: &impl Wait) -> Option<Vec<u8>> {
        self.queue.lock(rt).take()
    }

    /// Counts the lines that were handed over as kept where they were written, else as lost.
    pub(crate) fn settle(&self, rt: &impl Wait, is_written: bool) {
        self.queue.lock(rt).settle(is_written);
    }

    /// How many lines are kept, lost and waiting, all at one moment.
    pub fn counts(&self, rt: &impl Wait) -> LogCounts {
        let queue = self.queue.lock(rt);
        LogCounts {
            kept: queue.kept(),
            lost: queue.lost(),
            waiting: queue.waiting(),
        }
    }
}
