//! The lines of the desk's journal, spelled and read.

ghost use Rattle.std.specs.Prelude.{◌≡◌, ◌++◌, codes, decimal, IfOk, OnOk};
ghost use Rattle.dialect.specs.Split.{parts_round};
ghost use Rattle.sweep_text.specs.Legs.{result_map};
ghost use Rattle.journal_words.specs.Desk.{alone_said, desk_behind_space, desk_deed_in, desk_parts_said, desk_said, desk_text, desk_words, placed_said, with_rest};

use crate::desk_deed::DeskDeed;
use crate::fault::WordsFault;
use crate::spell::{append_number, line_at};
use crate::split::{is_word, split_at_space};
use fix_tags::{Stamp, read_number, read_stamp};
use std::alloc::{AllocError, Global};

/// How many bytes a time has.
const TIME_LEN: usize = 21;

/// A deed of the desk, and when it was done.
#[derive(Clone, Copy, Debug)]
pub struct DeskLine<'a> {
    pub stamp: Stamp,
    pub deed: DeskDeed<'a>,
}

fn append_with(line: &mut Vec<u8>, word: &[u8], rest: &[u8]) -> Result<(), AllocError>
    ensures { OnOk result (line.new.items ≡ line.old.items ++ (word.now ++ rest.now)) }
{
    line.extend_from_slice(word)?;
    line.extend_from_slice(rest)?;
    Ok(())
}

fn append_place(line: &mut Vec<u8>, number: u64, asked: &[u8]) -> Result<(), AllocError>
    ensures { OnOk result (line.new.items
        ≡ line.old.items ++ (codes "place " ++ decimal number ++ codes " " ++ asked.now)) }
{
    line.extend_from_slice(b"place ")?;
    append_number(line, number)?;
    line.push(b' ')?;
    line.extend_from_slice(asked)?;
    Ok(())
}

fn append_deed(line: &mut Vec<u8>, deed: &DeskDeed<'_>) -> Result<(), AllocError>
    ensures { OnOk result (line.new.items ≡ line.old.items ++ desk_words (desk_deed_in deed.now)) }
{
    match *deed {
        DeskDeed::Place(number, asked) => append_place(line, number, asked),
        DeskDeed::Settle(asked) => append_with(line, b"settle ", asked),
        DeskDeed::Pause(venue) => append_with(line, b"pause ", venue),
        DeskDeed::Resume(venue) => append_with(line, b"resume ", venue),
        DeskDeed::Halt => append_with(line, b"halt", b""),
        DeskDeed::End => append_with(line, b"end", b""),
    }
}

/// The line of a deed, as `20261124-14:30:00.123 place 12 sweep NYSE IBM buy 100 10.25`. No text in it has an end of
/// line, or the journal refuses it.
pub fn desk_line(alloc: Global, stamp: &Stamp, deed: &DeskDeed<'_>) -> Result<Vec<u8>, AllocError>
    ensures { IfOk result (λ line. line.items ≡ desk_text stamp.now (desk_deed_in deed.now)) }
{
    let mut line = line_at(alloc, stamp)?;
    append_deed(&mut line, deed)?;
    Ok(line)
}

/// A word with nothing behind it.
fn read_alone(word: &[u8]) -> Result<DeskDeed<'_>, WordsFault>
    ensures { result_map desk_deed_in result ≡ alone_said word.now }
{
    match word {
        b"halt" => Ok(DeskDeed::Halt),
        b"end" => Ok(DeskDeed::End),
        _ => Err(WordsFault::Word),
    }
}

/// What is behind `place`: a number, and the line of a sweep.
fn read_place(rest: &[u8]) -> Result<DeskDeed<'_>, WordsFault>
    ensures { result_map desk_deed_in result ≡ placed_said (parts_round 32 rest.now) }
{
    let Some((number, asked)) = split_at_space(rest) else {
        return Err(WordsFault::Word);
    };
    match read_number(number) {
        Some(number) => Ok(DeskDeed::Place(number, asked)),
        None => Err(WordsFault::Word),
    }
}

fn read_with<'a>(word: &[u8], rest: &'a [u8]) -> Result<DeskDeed<'a>, WordsFault>
    ensures { result_map desk_deed_in result ≡ with_rest word.now rest.now }
{
    if is_word(word, b"place") {
        return read_place(rest);
    }
    if is_word(word, b"settle") {
        return Ok(DeskDeed::Settle(rest));
    }
    if is_word(word, b"pause") {
        return Ok(DeskDeed::Pause(rest));
    }
    if is_word(word, b"resume") {
        return Ok(DeskDeed::Resume(rest));
    }
    Err(WordsFault::Word)
}

fn read_words(words: &[u8]) -> Result<DeskDeed<'_>, WordsFault>
    ensures { result_map desk_deed_in result ≡ desk_parts_said words.now (parts_round 32 words.now) }
{
    match split_at_space(words) {
        Some((word, rest)) => read_with(word, rest),
        None => read_alone(words),
    }
}

fn read_behind_time(rest: &[u8]) -> Result<DeskDeed<'_>, WordsFault>
    ensures { result_map desk_deed_in result ≡ desk_behind_space rest.now }
{
    match rest {
        [b' ', words @ ..] => read_words(words),
        _ => Err(WordsFault::Word),
    }
}

/// Reads a line without its end. It takes no memory.
#[tactic(auto, unfolding(crate::specs::Desk::desk_said))]
pub fn read_desk(line: &[u8]) -> Result<DeskLine<'_>, WordsFault>
    ensures { result_map (λ line. (line.stamp, desk_deed_in line.deed)) result ≡ desk_said line.now }
{
    if line.len() < TIME_LEN {
        return Err(WordsFault::Time);
    }
    let (time, rest) = line.split_at(TIME_LEN);
    match read_stamp(time) {
        Some(stamp) => match read_behind_time(rest) {
            Ok(deed) => Ok(DeskLine { stamp, deed }),
            Err(fault) => Err(fault),
        },
        None => Err(WordsFault::Time),
    }
}
