//! A crash.

ghost use Rattle.std.specs.Prelude.{◌≡◌, ◌≤◌, ◌&&◌, nat_le, length};
ghost use Rattle.std.specs.Option.{option_map};
ghost use Rattle.script.specs.Crash.{crash_of_words, few_lost, lines_lost, loss_of_words, lost_word, sweeps_lost};

use crate::loss::{Loss, MAX_VENUES};
use crate::word::number_within;
use arrayvec::ArrayVec;
use text_pieces::Pieces;

/// The most that is lost of one kind.
const MAX_LOST: u64 = 999_999_999;

/// How many sweeps, or lines of a journal, are lost.
fn lost_word(word: &[u8]) -> Option<u64>
    ensures { result ≡ lost_word word.now }
{
    number_within(0, MAX_LOST, word)
}

/// How many lines are lost of each journal: of one venue at least, and of no more than there are.
fn few_lost(venues: u8, words: &mut Pieces<'_>) -> Option<ArrayVec<u64, MAX_VENUES>>
    requires { venues ≤ 16 }
    ensures { option_map (λ lines. lines.items) result ≡ few_lost venues words.old }
{
    let mut lines = ArrayVec::new();
    while let Some(word) = words.next() {
        if lines.len() >= usize::from(venues) {
            return None;
        }
        lines.push(lost_word(word)?);
    }
    if lines.is_empty() {
        return None;
    }
    Some(lines)
}

/// The loss of so many sweeps, and of the lines that stand behind `lines`.
fn lines_lost(venues: u8, sweeps: u64, words: &mut Pieces<'_>) -> Option<Loss>
    requires { venues ≤ 16 }
    ensures { result ≡ lines_lost venues sweeps words.old }
{
    let lines = few_lost(venues, words)?;
    Some(Loss::new(sweeps, lines))
}

/// The loss of the sweeps that stand behind `sweeps`, and of the lines behind them, if there are some.
fn sweeps_lost(venues: u8, words: &mut Pieces<'_>) -> Option<Loss>
    requires { venues ≤ 16 }
    ensures { result ≡ sweeps_lost venues words.old }
{
    let sweeps = lost_word(words.next()?)?;
    match words.next() {
        None => Some(Loss::new(sweeps, ArrayVec::new())),
        Some(b"lines") => lines_lost(venues, sweeps, words),
        Some(_) => None,
    }
}

/// The loss of the words behind `lost`.
fn loss_of_words(venues: u8, words: &mut Pieces<'_>) -> Option<Loss>
    requires { venues ≤ 16 }
    ensures { result ≡ loss_of_words venues words.old }
{
    match words.next()? {
        b"sweeps" => sweeps_lost(venues, words),
        b"lines" => lines_lost(venues, 0, words),
        _ => None,
    }
}

/// The loss of the words behind `crash`; with no word nothing is lost.
pub(crate) fn read_crash(venues: u8, words: &mut Pieces<'_>) -> Option<Loss>
    requires { venues ≤ 16 }
    ensures { result ≡ crash_of_words venues words.old }
{
    match words.next() {
        None => Some(Loss::new(0, ArrayVec::new())),
        Some(b"lost") => loss_of_words(venues, words),
        Some(_) => None,
    }
}
