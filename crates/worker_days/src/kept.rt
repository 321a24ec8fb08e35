//! A day whose worker has a journal on a tape in memory: the lines that are kept are printed.

use crate::called_link::CalledLink;
use crate::course::Course;
use crate::day::early_caller;
use crate::scripted::{SENDS, SENDS_READS};
use day_trial::{DayFault, Script};
use dialect::Plain;
use exec_collector::Accounts;
use journal_record::LineReader;
use journal_tape::{JournalWriter, MemoryTape, text_of};
use kept_link::Teller;
use release_lock::Run;
use session_worker::Worker;
use std::alloc::Global;
use std::fmt::Write;
use std::str;
use std::sync::Wait;
use trial::{Floor, Post, Trial, TrialFault, near_end, on_floor, stopped_clock};

/// How many bytes the tape has.
const ROOM: usize = 4_096;

/// A day that is to be played.
#[derive(Drop)]
struct Keeping<'c> {
    alloc: Global,
    link: Script,
    course: Course<'c>,
}

/// A journal of no lines.
fn new_journal(alloc: Global) -> Result<Teller<JournalWriter<MemoryTape>>, DayFault> {
    let tape = MemoryTape::zeros(alloc, ROOM)?;
    Ok(Teller::new(alloc, JournalWriter::new(alloc, tape, ROOM)))
}

/// Writes the lines that are kept on a tape, which has no more of them than bytes.
fn write_lines(tape: &MemoryTape, text: &mut String) -> Result<(), DayFault> {
    let bytes = tape.bytes();
    let mut lines = LineReader::new(text_of(bytes));
    for _ in bytes {
        match lines.next() {
            Ok(Some(line)) => {
                if let Ok(line) = str::from_utf8(line) {
                    writeln!(text, "kept {line}")?;
                }
            }
            _ => break,
        }
    }
    Ok(())
}

impl<'c, R: Wait> Trial<R> for Keeping<'c> {
    type End = Result<String, DayFault>;

    fn run<L: Run, M: Accounts>(self, rt: &R, floor: Floor<L, M>) -> Result<String, DayFault> {
        let Keeping {
            alloc,
            link,
            course,
        } = self;
        let Floor {
            lock,
            collector,
            seat,
            mut posts,
        } = floor;
        let post = posts.pop().ok_or(TrialFault::Missing)?;
        let caller = early_caller(rt, alloc, &lock, &collector, seat, &post, course.early)?;
        let link = CalledLink::new(link, caller, post.drain.venue(), course);
        let Post { drain, seat } = post;
        if drain.popped() != 0 || seat.venue() != drain.venue() {
            return Err(DayFault::Trial(TrialFault::Missing));
        }
        let worker = Worker::with_journal(
            alloc,
            Plain,
            link,
            new_journal(alloc)?,
            stopped_clock()?,
            near_end(course.max_number)?,
            seat,
            drain,
            course.pace,
        );
        let end = worker.run(rt, &lock, &collector, course.turn_limit);
        let mut text = String::new(alloc);
        write_lines(end.journal.into_journal().tape(), &mut text)?;
        Ok(text)
    }
}

/// Of the day on which a leg is sent and another dropped, each line that the worker's journal has kept at its end.
pub fn tell_kept(rt: &impl Wait, alloc: Global, text: &mut String) -> Result<(), DayFault> {
    let keeping = Keeping {
        alloc,
        link: Script::new(alloc, SENDS_READS)?,
        course: SENDS,
    };
    text.push_str("journal: a leg is sent and another dropped\n")?;
    let lines = on_floor(rt, alloc, 1, keeping)??;
    text.push_str(&lines)?;
    Ok(())
}
