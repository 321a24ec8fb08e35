//! What an event of a script costs: a day's script of so many events is made up, read and replayed.

mod day_script;

use day_script::DayScript;
use leg::VenueId;
use replay::run;
use schedule::ScriptFault;
use script::{Parts, Script, read_script};
use std::alloc::Global;
use std::io::Write;
use trial::TrialFault;

/// How far a run goes: each part does what the ones before it do.
#[derive(Clone, Copy, Debug, PartialEq, Eq)]
pub enum ReplayPart {
    /// The script is made up.
    Make,
    /// It is read.
    Read,
    /// The world of it is run.
    Run,
}

impl ReplayPart {
    /// The part of this name.
    pub fn named(name: &str) -> Option<ReplayPart> {
        match name {
            "make" => Some(ReplayPart::Make),
            "read" => Some(ReplayPart::Read),
            "run" => Some(ReplayPart::Run),
            _ => None,
        }
    }
}

/// The script of a text that was made up, which has no bad line.
fn script_of(alloc: Global, text: &str) -> Result<Script, TrialFault> {
    match read_script(alloc, text.as_bytes()) {
        Ok(script) => Ok(script),
        Err(ScriptFault::Line(_)) => Err(TrialFault::Refused),
        Err(ScriptFault::OutOfMemory) => Err(TrialFault::OutOfMemory),
    }
}

/// Replays the script, and writes how many orders were accepted, and how many notes the book was given.
fn replay_script<W: Write>(alloc: Global, script: Script, out: &mut W) -> Result<(), TrialFault> {
    let Parts {
        max_number,
        dialects,
        next,
        events,
    } = script.into_parts();
    let world = run(alloc, dialects, &next, max_number, events)?;
    let venue = VenueId::new(0)?;
    let accepted = world.accepted(venue).len();
    let given = world.given(venue).len();
    writeln!(out, "{accepted} orders accepted, {given} notes given")?;
    Ok(())
}

/// Makes up a script of so many events or a few more, goes as far as it is asked to, and writes how far it came.
pub fn run_replay<W: Write>(
    alloc: Global,
    part: ReplayPart,
    events: u64,
    out: &mut W,
) -> Result<(), TrialFault> {
    let mut day = DayScript::new(alloc)?;
    day.go_on(events)?;
    let made = day.events();
    writeln!(out, "{made} events")?;
    if part == ReplayPart::Make {
        return Ok(());
    }
    let script = script_of(alloc, day.text())?;
    if part == ReplayPart::Read {
        return Ok(());
    }
    replay_script(alloc, script, out)
}
