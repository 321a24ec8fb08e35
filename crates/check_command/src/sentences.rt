//! The sentences of a day.
ghost use Rattle.std.specs.Prelude.{◌≡◌, ℕ, ◌≤◌, List, false, length, IfErr, IfOk, OnOk};
ghost use Rattle.std.specs.Io.KnownBytes.{Appends};
ghost use Rattle.day_check.specs.DayText.{sweeps_text};
ghost use Rattle.day_check.specs.LogText.{path_line};
ghost use Rattle.day_check.specs.SweepsLog.{lines_heard};
ghost use Rattle.check_command.specs.DayRead.{is_broken_by, verdict_text};
ghost use Rattle.check_command.specs.Fault.{IsOfLogs};
ghost use Rattle.check_command.specs.Sentences.{JudgesDay, TellsDay, day_read, paths_of};

use crate::command::Request;
use crate::day::Day;
use crate::fault::CommandFault;
use crate::files::{line_at, open};
use command_line::print;
use day_check::{LogFault, Printing, broken_sentence, print_sweeps, read_sweeps, verdict_text};
use day_rules::{DeskDay, SENTENCES, Sentence, SentenceVerdict, VenueDay, judge};
use desk_words::VenueName;
use std::alloc::Global;
use std::fs::Files;
use std::io::Write;

/// What is printed of a sentence; where it is broken, with the line that breaks it.
fn sentence_said<F: Files>(
    files: &F,
    alloc: Global,
    printing: &Printing<'_>,
    day: &Day<'_>,
    sentence: Sentence,
    said: SentenceVerdict,
) -> Result<Vec<u8>, CommandFault>
    ensures only { IfErr result IsOfLogs }
    ensures told { IfOk result (λ text. (line : List ℕ) × (printing.now.is_json ≡ false → text.items
        ≡ verdict_text printing.now.form.now (paths_of day.now) printing.now.log.now
        (record { sentence = sentence; line = line }) said)) }
{
    match said {
        SentenceVerdict::Holds => Ok(verdict_text(alloc, printing, sentence, "holds")?),
        SentenceVerdict::Unjudged => Ok(verdict_text(alloc, printing, sentence, "not judged")?),
        SentenceVerdict::BrokenAt(place) => {
            let place = day.line_place(printing.log, place);
            let line = line_at(files, alloc, &place)?;
            Ok(broken_sentence(alloc, printing, sentence, &place, &line)?)
        }
    }
}

/// Whether a sentence is broken.
fn is_broken_by(said: SentenceVerdict) -> bool
    ensures { result ≡ is_broken_by said }
{
    matches!(said, SentenceVerdict::BrokenAt(_))
}

/// Whether a sentence of the sweep theorem is broken by the logs of a day's venues and of the lines that its desk took.
fn judge_day<F: Files, W: Write>(
    files: &F,
    alloc: Global,
    printing: &Printing<'_>,
    day: &Day<'_>,
    desk: &DeskDay,
    out: &mut W,
) -> Result<bool, CommandFault>
    ensures only { IfErr result IsOfLogs }
    ensures told { IfOk result
        (TellsDay printing.now (day_read printing.now day.now desk.now) (W.contents out.old) (W.contents out.new)) }
{
    let mut is_broken = false;
    for place in 0..7 {
        let sentence = SENTENCES[place];
        let said = judge(alloc, desk, &day.venues, sentence)?;
        let text = sentence_said(files, alloc, printing, day, sentence, said)?;
        print(&text, out)?;
        let is_by = is_broken_by(said);
        is_broken |= is_by;
    }
    Ok(is_broken)
}

/// Opens the log of a desk's lines, of which nothing is heard yet, and reads it.
fn open_and_read<F: Files, W: Write>(
    files: &F,
    alloc: Global,
    printing: &Printing<'_>,
    unheard: DeskDay,
    out: &mut W,
) -> Result<DeskDay, LogFault>
    ensures heard { IfOk result (λ desk. (lines : List (List ℕ)) × (desk ≡ lines_heard unheard lines)) }
    ensures printed { OnOk result (printing.now.is_json ≡ false
        → Appends (W.contents out.old) (W.contents out.new) (path_line printing.now.log.now)) }
{
    let mut input = open(files, alloc, printing.log)?;
    read_sweeps(alloc, printing, unheard, &mut input, out)
}

/// The same, where a fault names the log.
fn read_desk<F: Files, W: Write>(
    files: &F,
    alloc: Global,
    printing: &Printing<'_>,
    unheard: DeskDay,
    out: &mut W,
) -> Result<DeskDay, CommandFault>
    ensures only { IfErr result IsOfLogs }
    ensures heard { IfOk result (λ desk. (lines : List (List ℕ)) × (desk ≡ lines_heard unheard lines)) }
    ensures printed { OnOk result (printing.now.is_json ≡ false
        → Appends (W.contents out.old) (W.contents out.new) (path_line printing.now.log.now)) }
{
    match open_and_read(files, alloc, printing, unheard, out) {
        Ok(desk) => Ok(desk),
        Err(fault) => Err(CommandFault::of_log(alloc, printing.log, fault)),
    }
}

/// Prints what became of each sweep that was placed. A fault names the log of the desk's lines.
fn tell_sweeps<W: Write>(
    alloc: Global,
    printing: &Printing<'_>,
    desk: &DeskDay,
    venues: &[VenueDay],
    out: &mut W,
) -> Result<(), CommandFault>
    ensures only { IfErr result IsOfLogs }
    ensures printed { OnOk result (printing.now.is_json ≡ false
        → Appends (W.contents out.old) (W.contents out.new) (sweeps_text venues.now desk.now)) }
{
    match print_sweeps(alloc, printing, desk, venues, out) {
        Ok(()) => Ok(()),
        Err(fault) => Err(CommandFault::of_log(alloc, printing.log, fault)),
    }
}

/// Reads the log of the lines that a day's desk took, prints what became of its sweeps, and judges the day.
pub(crate) fn check_day<F: Files, W: Write>(
    files: &F,
    alloc: Global,
    request: &Request<'_>,
    day: &Day<'_>,
    path: &str,
    names: Vec<VenueName>,
    out: &mut W,
) -> Result<bool, CommandFault>
    requires { length names.items ≤ 16 }
    ensures only { IfErr result IsOfLogs }
    ensures judged { IfOk result
        (JudgesDay request.now day.now path.now names.items (W.contents out.old) (W.contents out.new)) }
{
    let printing = request.printing(path, true);
    let unheard = DeskDay::new(alloc, names);
    let desk = read_desk(files, alloc, &printing, unheard, out)?;
    tell_sweeps(alloc, &printing, &desk, &day.venues, out)?;
    let is_broken = judge_day(files, alloc, &printing, day, &desk, out)?;
    Ok(is_broken)
}
