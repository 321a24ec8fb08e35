//! The lines by which a person halts the desk, pauses a venue, and frees them again.

ghost use Rattle.std.specs.Prelude.{◌≡◌, ◌≤◌, ◌<◌, drop, length, option_map, position, IfSome};
ghost use Rattle.std.specs.Str.{IsTrimAscii, bytes_eq};
ghost use Rattle.desk_talk.specs.Hold.{hold_fault, hold_of, no_venue, venue_hold, venue_of};
ghost use Rattle.desk_talk.specs.declared.hold.Hold.TheVariants.{Pause, Unpause};

use desk_words::{VenueName, shown};
use leg::VenueId;
use sweep_text::LineFault;

/// What a person asks to be held or freed.
#[derive(Clone, Copy, Debug, PartialEq, Eq)]
pub(crate) enum Hold {
    Halt,
    Resume,
    Pause(VenueId),
    Unpause(VenueId),
}

/// Whether a name is this word.
fn is_name(name: &VenueName, word: &[u8]) -> bool
    ensures { result ≡ bytes_eq name.now word.now }
{
    name.as_bytes() == word
}

/// The place of a name.
fn place_of(names: &[VenueName], word: &[u8]) -> Option<usize>
    ensures value { result ≡ position (λ name. bytes_eq name word.now) names.now }
    ensures within { IfSome result (λ at. at < length names.now) }
{
    names.iter().position(|name| is_name(name, word))
}

/// The venue of a name.
fn venue_of(names: &[VenueName], word: &[u8]) -> Option<VenueId>
    requires { length names.now ≤ 16 }
    ensures { result ≡ venue_of names.now word.now }
{
    match place_of(names, word) {
        Some(place) => Some(VenueId::new(place as u8).unwrap()),
        None => None,
    }
}

/// A pause of the venue of a name.
fn pause_of(names: &[VenueName], word: &[u8]) -> Option<Hold>
    requires { length names.now ≤ 16 }
    ensures { result ≡ option_map (λ v. Pause v) (venue_of names.now word.now) }
{
    match venue_of(names, word) {
        Some(venue) => Some(Hold::Pause(venue)),
        None => None,
    }
}

/// The end of its pause.
fn unpause_of(names: &[VenueName], word: &[u8]) -> Option<Hold>
    requires { length names.now ≤ 16 }
    ensures { result ≡ option_map (λ v. Unpause v) (venue_of names.now word.now) }
{
    match venue_of(names, word) {
        Some(venue) => Some(Hold::Unpause(venue)),
        None => None,
    }
}

/// A line without the white space at its ends.
pub(crate) fn bare(line: &[u8]) -> &[u8]
    ensures { IsTrimAscii line.now result.now }
{
    line.trim_ascii()
}

/// A line without its first bytes.
fn from(line: &[u8], count: usize) -> &[u8]
    requires { count ≤ length line.now }
    ensures { result.now ≡ drop count line.now }
{
    &line[count..]
}

/// What a line asks of one venue: `pause NYSE` or `resume NYSE`.
fn venue_hold(names: &[VenueName], line: &[u8]) -> Option<Hold>
    requires { length names.now ≤ 16 }
    ensures { result ≡ venue_hold names.now line.now }
{
    if line.starts_with(b"pause ") {
        return pause_of(names, from(line, 6));
    }
    if line.starts_with(b"resume ") {
        return unpause_of(names, from(line, 7));
    }
    None
}

/// What a line asks to be held or freed, if it does: `halt`, `resume`, `pause NYSE` or `resume NYSE`.
pub(crate) fn hold_of(names: &[VenueName], line: &[u8]) -> Option<Hold>
    requires { length names.now ≤ 16 }
    ensures { result ≡ hold_of names.now line.now }
{
    if line == b"halt".as_slice() {
        return Some(Hold::Halt);
    }
    if line == b"resume".as_slice() {
        return Some(Hold::Resume);
    }
    venue_hold(names, line)
}

/// That no venue has this name.
fn no_venue(word: &[u8]) -> Option<LineFault>
    ensures { result ≡ no_venue word.now }
{
    Some(LineFault::NoVenue(shown(word)))
}

/// What is wrong with a line that asks something of a venue, where the desk has none of that name.
pub(crate) fn hold_fault(line: &[u8]) -> Option<LineFault>
    ensures { result ≡ hold_fault line.now }
{
    if line.starts_with(b"pause ") {
        return no_venue(from(line, 6));
    }
    if line.starts_with(b"resume ") {
        return no_venue(from(line, 7));
    }
    None
}
