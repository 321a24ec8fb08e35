//! The lines of a venue's journal, read.

ghost use Rattle.std.specs.Prelude.{◌≡◌, ℕ, List, ◌++◌, codes, IfOk};
ghost use Rattle.std.specs.Option.{option_map};
ghost use Rattle.journal_words.specs.Reading.{Reads, ReadsDeed, ReadsTimed, behind_space, leg_of, only_terms, other_said, terms_in, timed_said, words_behind, words_said};

use crate::act::Act;
use crate::deed::{Deed, DeedLine};
use crate::fault::WordsFault;
use crate::leg_act::LegAct;
use crate::spell::any_venue;
use crate::split::split_at_space;
use dialect::{Plain, Spelling};
use fix_tags::{Stamp, read_number, read_stamp};
use leg::{Leg, PlacedLeg, Sweep, Terms};
use log_text::LineFault;
use message_log::Direction;
use std::alloc::{AllocError, Global};
use sweep_text::Command;

/// How many bytes a time has.
const TIME_LEN: usize = 21;

/// How many are before the words, a time and a space.
const HEAD_LEN: usize = 22;

/// `sweep V ` before these words.
fn as_sweep(alloc: Global, words: &[u8]) -> Result<Vec<u8>, AllocError>
    ensures { IfOk result (λ line. line.items ≡ codes "sweep V " ++ words.now) }
{
    let mut line = Vec::new(alloc);
    line.extend_from_slice(b"sweep V ")?;
    line.extend_from_slice(words)?;
    Ok(line)
}

/// The terms of a sweep of one leg.
fn only_terms(sweep: &Sweep) -> Option<Terms>
    ensures { result ≡ only_terms sweep.now.legs }
{
    match sweep.legs.as_slice() {
        [leg] => Some(leg.terms.clone().unwrap()),
        _ => None,
    }
}

/// The terms of these words, as `IBM buy 100 10.25`.
fn read_terms(alloc: Global, words: &[u8]) -> Result<Terms, WordsFault>
    ensures { Reads (terms_in words.now) result }
{
    let line = as_sweep(alloc, words)?;
    match sweep_text::read_line(alloc, &[any_venue()], line.as_slice()) {
        Ok(Command::Sweep(asked)) => only_terms(&asked.sweep).ok_or(WordsFault::Leg),
        Ok(_) => Err(WordsFault::Leg),
        Err(sweep_text::LineFault::OutOfMemory) => Err(WordsFault::OutOfMemory),
        Err(_) => Err(WordsFault::Leg),
    }
}

/// The leg of these words, as `3 S1L1 IBM buy 100 10.25`.
#[tactic(auto, unfolding(crate::specs::Reading::leg_of))]
fn read_leg(alloc: Global, words: &[u8]) -> Result<PlacedLeg, WordsFault>
    ensures { Reads (leg_of words.now) result }
{
    let (ordinal, rest) = split_at_space(words).ok_or(WordsFault::Leg)?;
    let ordinal = read_number(ordinal).ok_or(WordsFault::Leg)?;
    let (id, terms) = split_at_space(rest).ok_or(WordsFault::Leg)?;
    let id = Plain.read_id(id).ok_or(WordsFault::Leg)?;
    let terms = read_terms(alloc, terms)?;
    Ok(PlacedLeg {
        ordinal,
        leg: Leg { id, terms },
    })
}

/// What words say that aren't a message's.
fn read_words(alloc: Global, words: &[u8]) -> Result<Deed, WordsFault>
    ensures { (fields : List ℕ) → ReadsDeed (words_said words.now) result fields }
{
    match split_at_space(words) {
        None => match Act::of_word(words) {
            Some(act) => Ok(Deed::Act(act)),
            None => Err(WordsFault::Word),
        },
        Some((word, rest)) => match LegAct::of_word(word) {
            Some(act) => Ok(Deed::Leg(act, read_leg(alloc, rest)?)),
            None => Err(WordsFault::Word),
        },
    }
}

/// What is behind a space.
fn words_behind(rest: &[u8]) -> Option<&[u8]>
    ensures { option_map (λ words. words.now) result ≡ words_behind rest.now }
{
    match rest {
        [b' ', words @ ..] => Some(words),
        _ => None,
    }
}

/// What is behind a line's time, where it isn't a message's.
fn read_behind_time(alloc: Global, rest: &[u8]) -> Result<Deed, WordsFault>
    ensures { (fields : List ℕ) → ReadsDeed (behind_space rest.now) result fields }
{
    match words_behind(rest) {
        Some(words) => read_words(alloc, words),
        None => Err(WordsFault::Word),
    }
}

/// What a line says that isn't a message's.
#[tactic(auto, unfolding(crate::specs::Reading::other_said))]
fn read_other(alloc: Global, line: &[u8]) -> Result<DeedLine, WordsFault>
    ensures { (fields : List ℕ) → ReadsTimed (other_said line.now) result fields }
{
    if line.len() < HEAD_LEN {
        return Err(WordsFault::Time);
    }
    let (time, rest) = line.split_at(TIME_LEN);
    let Some(stamp) = read_stamp(time) else {
        return Err(WordsFault::Time);
    };
    match read_behind_time(alloc, rest) {
        Ok(deed) => Ok(DeedLine { stamp, deed }),
        Err(fault) => Err(fault),
    }
}

/// Reads a line without its end. The fields of a message are put into the list, in place of what it held.
pub fn read_deed(alloc: Global, line: &[u8], message: &mut Vec<u8>) -> Result<DeedLine, WordsFault>
    ensures { ReadsTimed (timed_said line.now) result message.new.items }
{
    match log_text::read_line(line, message) {
        Ok(said) => match said.direction {
            Direction::Received => Ok(DeedLine {
                stamp: said.stamp,
                deed: Deed::Heard,
            }),
            Direction::Sent => Err(WordsFault::Word),
        },
        Err(LineFault::Direction) => read_other(alloc, line),
        Err(LineFault::Short) => Err(WordsFault::Time),
        Err(LineFault::Time) => Err(WordsFault::Time),
        Err(LineFault::OutOfMemory) => Err(WordsFault::OutOfMemory),
        Err(_) => Err(WordsFault::Message),
    }
}
