//! What writes the lines of a log.

use crate::venue_log::VenueLog;
use message_log::LogWriter;
use std::alloc::Global;
use std::io::Write;
use std::sync::atomic::{AtomicBool, Ordering};
use std::sync::{Arc, Wait};
use std::thread;
use std::time::{Clock, Duration};

/// How many milliseconds the writer rests behind each write, so that lines are written together.
const REST_MILLIS: u64 = 20;

/// How many milliseconds it waits for a line before it looks anew whether the day is over. `VenueLog::wake_writer` ends
/// the wait.
const LOOK_MILLIS: u64 = 500;

/// What writes the lines of a log, in order, behind its first line.
#[derive(Drop)]
pub struct FileWriter<W: Write + Drop> {
    log: Arc<VenueLog, Global>,
    out: LogWriter<W>,
}

impl<W: Write + Drop> FileWriter<W> {
    /// The lines of this log are written behind what stands there.
    pub fn new(log: Arc<VenueLog, Global>, out: W) -> FileWriter<W> {
        FileWriter {
            log,
            out: LogWriter::new(out),
        }
    }

    /// Writes the lines that wait, while the log's lock is free, and counts them: as kept where all of them are
    /// written, else as lost. It says whether there were any.
    fn write_waiting(&mut self, rt: &impl Wait) -> bool {
        let Some(lines) = self.log.take(rt) else {
            return false;
        };
        let is_written = self.out.write(lines.as_slice());
        self.log.settle(rt, is_written);
        true
    }
}

/// Writes the lines that wait in each log, and says whether there were any.
fn write_all<W: Write + Drop>(rt: &impl Wait, writers: &mut [FileWriter<W>]) -> bool {
    let mut has_written = false;
    for writer in writers.iter_mut() {
        if writer.write_waiting(rt) {
            has_written = true;
        }
    }
    has_written
}

/// How many lines were put into the logs of these writers.
fn lines_put<W: Write + Drop>(writers: &[FileWriter<W>]) -> u64 {
    match writers.first() {
        Some(writer) => writer.log.lines_put(),
        None => 0,
    }
}

/// Waits until more lines are put into the logs of these writers, or the day is over.
fn wait_for_line<W: Write + Drop>(rt: &impl Wait, writers: &[FileWriter<W>], put: u64) {
    if let Some(writer) = writers.first() {
        writer
            .log
            .wait_for_line(rt, put, Duration::from_millis(LOOK_MILLIS));
    }
}

/// Writes the lines of a day's logs, at most every 20 ms, until it is told that the day is over and no line waits: a
/// thread of its own runs it, and sleeps while no line waits. Where a write fails, as on a disk that is full, its lines
/// are lost, and it goes on.
pub fn write_until<W: Write + Drop, R: Wait + Clock>(
    rt: &R,
    writers: Vec<FileWriter<W>>,
    is_over: &AtomicBool,
) {
    let mut writers = writers;
    for _ in rt.forever() {
        let put = lines_put(writers.as_slice());
        let is_last = is_over.load(Ordering::SeqCst);
        let has_written = write_all(rt, writers.as_mut_slice());
        if is_last {
            if !has_written {
                return;
            }
            continue;
        }
        if has_written {
            thread::sleep(rt, Duration::from_millis(REST_MILLIS));
        }
        wait_for_line(rt, writers.as_slice(), put);
    }
}
