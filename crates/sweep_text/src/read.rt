//! A line, read.

ghost use Rattle.std.specs.Prelude.{◌≡◌, ◌≢◌, ◌≤◌, ◌<◌, [], ◌∷◌, Err, IfNone, IfOk, IfSome, IsSome, length};
ghost use Rattle.std.specs.List.{list_all};
ghost use Rattle.std.specs.Option.{option_map};
ghost use Rattle.desk_words.specs.Printable.{is_printable_byte};
ghost use Rattle.sweep_text.specs.Legs.{legs_of, result_map};
ghost use Rattle.sweep_text.specs.Line.{Answers, AnswersLegs, AskForLegs, FollowsLeg, alone, legs_say, line_says, ref_in, sweep_says};
ghost use Rattle.sweep_text.specs.Words.{words_of};
ghost use Rattle.text_pieces.specs.Pieces.{with_first};
ghost use Rattle.sweep_text.specs.declared.line_fault.LineFault.TheVariants.{OutOfMemory};

use crate::command::Command;
use crate::leg_words::read_leg;
use crate::line_fault::{LineFault, MAX_LINE};
use crate::words::Words;
use desk_words::{VenueName, shown};
use leg::{Legs, Routed, Sweep};
use std::alloc::Global;
use sweep_refs::{Submission, SweepRef};

/// The venue of the next leg, where `+` and a word follow a leg; none at the end of the line.
fn next_venue<'a>(words: &mut Words<'a>) -> Result<Option<&'a [u8]>, LineFault>
    ensures follows { FollowsLeg words.old
        (result_map (option_map (λ venue. venue.now)) result) words.new }
    ensures shorter { IfOk result (λ next. IfSome next (λ _. length words.new < length words.old)) }
{
    match words.next() {
        None => Ok(None),
        Some(b"+") => match words.next() {
            Some(venue) => Ok(Some(venue)),
            None => Err(LineFault::Short),
        },
        Some(word) => Err(LineFault::Extra(shown(word))),
    }
}

/// The legs that are left, parted by `+`, of which the first is for this venue.
#[tactic(auto, using(crate::proofs::LegsRead::steps))]
fn read_legs(
    alloc: Global,
    names: &[VenueName],
    first_venue: &[u8],
    words: &mut Words<'_>,
) -> Result<Vec<Routed>, LineFault>
    requires { length names.now ≤ 16 }
    ensures { AnswersLegs (legs_of names.now (first_venue.now ∷ words.old)) result }
{
    let mut legs = Vec::new(alloc);
    let mut venue = first_venue;
    loop {
        legs.push(read_leg(names, venue, words)?)?;
        match next_venue(words)? {
            Some(next) => venue = next,
            None => return Ok(legs),
        }
    }
}

/// The sweep of the words behind `sweep` and its reference, of which the first is for this venue; without words it is
/// one of no legs, which the desk refuses.
#[tactic(auto, using(crate::proofs::Faults::sweep_fault))]
fn read_sweep_under(
    alloc: Global,
    names: &[VenueName],
    reference: Option<SweepRef>,
    first_venue: Option<&[u8]>,
    words: &mut Words<'_>,
) -> Result<Command, LineFault>
    requires few { length names.now ≤ 16 }
    requires ended { IfNone first_venue (words.old ≡ []) }
    ensures answer { Answers (legs_say names.now reference
        (with_first (option_map (λ venue. venue.now) first_venue.entry) words.old)) result }
    ensures memory { result ≡ Err OutOfMemory → IsSome first_venue.entry }
{
    let legs = match first_venue {
        Some(venue) => read_legs(alloc, names, venue, words)?,
        None => Vec::new(alloc),
    };
    Ok(Command::Sweep(Submission {
        reference,
        sweep: Sweep {
            legs: Legs::new(legs),
        },
    }))
}

/// The reference of a word that begins with `ref=`.
fn ref_in(word: &[u8]) -> Result<SweepRef, LineFault>
    requires { 4 ≤ length word.now }
    ensures { result ≡ ref_in word.now }
{
    match SweepRef::new(&word[4..]) {
        Some(reference) => Ok(reference),
        None => Err(LineFault::BadReference(shown(word))),
    }
}

/// The sweep of the words behind `sweep`.
#[tactic(auto, unfolding(crate::specs::Line::sweep_says))]
fn read_sweep(
    alloc: Global,
    names: &[VenueName],
    words: &mut Words<'_>,
) -> Result<Command, LineFault>
    requires { length names.now ≤ 16 }
    ensures answer { Answers (sweep_says names.now words.old) result }
    ensures memory { result ≡ Err OutOfMemory → words.old ≢ [] }
{
    match words.next() {
        Some(word) if word.starts_with(b"ref=") => {
            let reference = ref_in(word)?;
            let venue = words.next();
            read_sweep_under(alloc, names, Some(reference), venue, words)
        }
        first => read_sweep_under(alloc, names, None, first, words),
    }
}

/// A command of one word, with nothing behind it.
fn alone(command: Command, words: &mut Words<'_>) -> Result<Command, LineFault>
    ensures { result ≡ alone command words.old }
{
    match words.next() {
        None => Ok(command),
        Some(word) => Err(LineFault::Extra(shown(word))),
    }
}

fn is_text(line: &[u8]) -> bool
    ensures { result ≡ list_all is_printable_byte line.now }
{
    line.iter().all(|byte| b' ' <= *byte && *byte <= b'~')
}

/// What a line asks for, without its end: `sweep ref=P7-3 NYSE BRK.B buy 100 10.25 + ARCA IBM sell 50 100`, where the
/// reference may be left out, `status`, `close`, or nothing where it is blank or begins with `#`; or its first fault.
/// Prices are in dollars, words are parted by spaces. Only legs take memory.
#[tactic(auto, unfolding(crate::specs::Line::line_says), using(crate::proofs::Faults::answers))]
pub fn read_line(alloc: Global, names: &[VenueName], line: &[u8]) -> Result<Command, LineFault>
    requires { length names.now ≤ 16 }
    ensures answer { Answers (line_says names.now line.now) result }
    ensures memory { result ≡ Err OutOfMemory → AskForLegs (words_of line.now) }
{
    if line.len() > MAX_LINE {
        return Err(LineFault::TooLong);
    }
    if !is_text(line) {
        return Err(LineFault::NotText);
    }
    let mut words = Words::new(line);
    match words.next() {
        None | Some([b'#', ..]) => Ok(Command::Nothing),
        Some(b"status") => alone(Command::Status, &mut words),
        Some(b"close") => alone(Command::Close, &mut words),
        Some(b"sweep") => read_sweep(alloc, names, &mut words),
        Some(word) => Err(LineFault::Unknown(shown(word))),
    }
}
