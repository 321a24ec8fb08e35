//! The commands that read a line in words, and spell it again.

use case_text::{Answers, PlayFault, shown};
use fix_tags::Stamp;
use journal_words::{
    Act, Deed, DeskDeed, LegAct, WordsFault, act_line, desk_line, heard_line, leg_line, read_deed,
    read_desk,
};
use leg::PlacedLeg;
use std::alloc::Global;

/// What a call is.
fn act_name(act: Act) -> &'static str {
    match act {
        Act::Connected => "connected",
        Act::Confirmed => "confirmed",
        Act::Quieted => "quieted",
        Act::Silenced => "silenced",
        Act::Closed => "closed",
        Act::Broke => "broke",
        Act::Abandoned => "abandoned",
    }
}

/// What became of a leg.
fn leg_act_name(act: LegAct) -> &'static str {
    match act {
        LegAct::Sent => "sent",
        LegAct::Dropped => "dropped",
        LegAct::Failed => "failed",
    }
}

/// Why a line can't be read.
fn tell_fault(alloc: Global, fault: WordsFault, answers: &mut Answers) -> Result<(), PlayFault> {
    if fault == WordsFault::OutOfMemory {
        return Err(PlayFault::OutOfMemory);
    }
    let said = format!(in alloc; "{fault}")?;
    answers.say(&said)
}

/// The line that is spelled.
fn tell_again(alloc: Global, line: &[u8], answers: &mut Answers) -> Result<(), PlayFault> {
    let line = shown(alloc, line)?;
    let said = format!(in alloc; "again {line}")?;
    answers.say(&said)
}

fn tell_act(
    alloc: Global,
    stamp: &Stamp,
    act: Act,
    answers: &mut Answers,
) -> Result<(), PlayFault> {
    answers.say(act_name(act))?;
    let line = act_line(alloc, stamp, act)?;
    tell_again(alloc, line.as_slice(), answers)
}

fn tell_leg(
    alloc: Global,
    stamp: &Stamp,
    act: LegAct,
    placed: &PlacedLeg,
    answers: &mut Answers,
) -> Result<(), PlayFault> {
    let (name, ordinal, leg) = (leg_act_name(act), placed.ordinal, &placed.leg);
    let said = format!(in alloc; "{name} {ordinal} {leg}")?;
    answers.say(&said)?;
    let line = leg_line(alloc, stamp, act, placed)?;
    tell_again(alloc, line.as_slice(), answers)
}

fn tell_heard(
    alloc: Global,
    stamp: &Stamp,
    fields: &[u8],
    answers: &mut Answers,
) -> Result<(), PlayFault> {
    let text = shown(alloc, fields)?;
    let said = format!(in alloc; "heard {text}")?;
    answers.say(&said)?;
    let line = heard_line(alloc, stamp, fields)?;
    tell_again(alloc, line.as_slice(), answers)
}

/// Reads the line of a venue's journal.
pub fn tell_deed(alloc: Global, line: &[u8], answers: &mut Answers) -> Result<(), PlayFault> {
    let mut fields = Vec::new(alloc);
    match read_deed(alloc, line, &mut fields) {
        Ok(read) => {
            let (stamp, deed) = (read.stamp, read.deed);
            match deed {
                Deed::Act(act) => tell_act(alloc, &stamp, act, answers),
                Deed::Leg(act, placed) => tell_leg(alloc, &stamp, act, &placed, answers),
                Deed::Heard => tell_heard(alloc, &stamp, fields.as_slice(), answers),
            }
        }
        Err(fault) => tell_fault(alloc, fault, answers),
    }
}

/// What was done at the desk.
fn tell_done(alloc: Global, deed: DeskDeed<'_>, answers: &mut Answers) -> Result<(), PlayFault> {
    match deed {
        DeskDeed::Place(number, asked) => {
            let asked = shown(alloc, asked)?;
            let said = format!(in alloc; "placed {number}: {asked}")?;
            answers.say(&said)
        }
        DeskDeed::Settle(asked) => {
            let asked = shown(alloc, asked)?;
            let said = format!(in alloc; "settled: {asked}")?;
            answers.say(&said)
        }
        DeskDeed::Pause(venue) => {
            let venue = shown(alloc, venue)?;
            let said = format!(in alloc; "paused {venue}")?;
            answers.say(&said)
        }
        DeskDeed::Resume(venue) => {
            let venue = shown(alloc, venue)?;
            let said = format!(in alloc; "resumed {venue}")?;
            answers.say(&said)
        }
        DeskDeed::Halt => answers.say("halted"),
        DeskDeed::End => answers.say("ended"),
    }
}

/// Reads the line of the desk's journal.
pub fn tell_desk(alloc: Global, line: &[u8], answers: &mut Answers) -> Result<(), PlayFault> {
    match read_desk(line) {
        Ok(read) => {
            tell_done(alloc, read.deed, answers)?;
            let line = desk_line(alloc, &read.stamp, &read.deed)?;
            tell_again(alloc, line.as_slice(), answers)
        }
        Err(fault) => tell_fault(alloc, fault, answers),
    }
}
