//! The words of a line: numbers within limits, a side, a price.

ghost use Rattle.std.specs.Prelude.{◌≡◌, ◌≤◌, ◌&&◌, length, nat_le, IfSome};
ghost use Rattle.std.specs.Char.{is_ascii_graphic};
ghost use Rattle.std.specs.List.{list_all};
ghost use Rattle.std.specs.Str.{bytes_eq};
ghost use Rattle.schedule.specs.Script.{number_within, venue_word, count_word, shares_word, px_word, side_word, words_of};

use dialect::{LastPx, MAX_LAST_PX};
use fix_tags::read_number;
use leg::{MAX_SHARES, MAX_VENUE, Side, VenueId};
use text_pieces::Pieces;

/// The greatest number of a frame, an order or a trade.
const MAX_COUNT: u64 = 999_999_999;

/// The words of a line, parted by one space.
pub(crate) fn words_of(line: &[u8]) -> Pieces<'_>
    ensures { result ≡ words_of line.now }
{
    Pieces::new(b' ', line)
}

/// Whether a word is this name.
pub(crate) fn is_named(word: &[u8], name: &str) -> bool
    ensures { result ≡ bytes_eq word.now name.now }
{
    word == name.as_bytes()
}

/// A number within limits.
pub(crate) fn number_within(least: u64, most: u64, word: &[u8]) -> Option<u64>
    ensures value { result ≡ number_within least most word.now }
    ensures range { IfSome result (λ n. (least ≤ n) × (n ≤ most)) }
{
    match read_number(word) {
        Some(number) if least <= number && number <= most => Some(number),
        _ => None,
    }
}

/// The venue of a release, which the script need not have.
pub(crate) fn any_venue(word: &[u8]) -> Option<VenueId>
    ensures { result ≡ number_within 0 15 word.now }
{
    let number = number_within(0, u64::from(MAX_VENUE), word)?;
    VenueId::new(number as u8).ok()
}

/// One of so many venues, 1 to 16.
pub(crate) fn venue_word(venues: u8, word: &[u8]) -> Option<VenueId>
    requires low { 1 ≤ venues }
    requires high { venues ≤ 16 }
    ensures { result ≡ venue_word venues word.now }
{
    let number = number_within(0, u64::from(venues - 1), word)?;
    VenueId::new(number as u8).ok()
}

/// Which frame, order or trade, counted from 1.
pub(crate) fn count_word(word: &[u8]) -> Option<u64>
    ensures { result ≡ count_word word.now }
{
    number_within(1, MAX_COUNT, word)
}

/// The shares of a leg or of a trade.
pub(crate) fn shares_word(word: &[u8]) -> Option<u64>
    ensures value { result ≡ shares_word word.now }
    ensures range { IfSome result (λ n. (1 ≤ n) × (n ≤ MAX_SHARES)) }
{
    number_within(1, MAX_SHARES, word)
}

/// Whether a word is 1 to 20 printable bytes, 0x21 to 0x7E.
fn is_px(word: &[u8]) -> bool
    ensures { result
        ≡ (nat_le 1 (length word.now) && nat_le (length word.now) 20 && list_all is_ascii_graphic word.now) }
{
    !word.is_empty() && word.len() <= MAX_LAST_PX && word.iter().all(|byte| byte.is_ascii_graphic())
}

/// The price of a trade: 1 to 20 printable bytes.
#[tactic(auto, using(crate::proofs::Printable::px_is_text))]
pub(crate) fn px_word(word: &[u8]) -> Option<LastPx>
    ensures { result ≡ px_word word.now }
{
    if !is_px(word) {
        return None;
    }
    LastPx::new(word)
}

/// A side: `buy` or `sell`.
pub(crate) fn side_word(word: &[u8]) -> Option<Side>
    ensures { result ≡ side_word word.now }
{
    match word {
        b"buy" => Some(Side::Buy),
        b"sell" => Some(Side::Sell),
        _ => None,
    }
}
