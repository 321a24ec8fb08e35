//! A release.

ghost use Rattle.std.specs.Prelude.{◌≡◌, ◌≤◌, ◌∷◌, length};
ghost use Rattle.std.specs.Option.{option_map};
ghost use Rattle.schedule.specs.Script.{legs_of_words, release_of_words};
ghost use Rattle.script.specs.Reading.{ReadsLine, legs_from, more_legs};

use crate::kept::Kept;
use crate::line_fault::LineFault;
use crate::release_leg::read_leg;
use leg::{Legs, Sweep};
use schedule::Event;
use std::alloc::Global;
use text_pieces::Pieces;

/// The venue of the next leg, behind a word that is `+`.
fn next_venue<'a>(plus: &[u8], words: &mut Pieces<'a>) -> Option<&'a [u8]>
    ensures legs { more_legs (plus.now ∷ words.old) ≡ legs_from (option_map (λ venue. venue.now) result) words.new }
    ensures fewer { length words.new ≤ length words.old }
{
    match plus {
        b"+" => words.next(),
        _ => None,
    }
}

/// The legs of a release, parted by `+`, of which the first is for this venue.
fn read_legs(alloc: Global, first_venue: &[u8], words: &mut Pieces<'_>) -> Result<Legs, LineFault>
    ensures { ReadsLine (legs_of_words (first_venue.now ∷ words.old)) result }
{
    let mut legs = Kept::new(alloc);
    let mut venue = first_venue;
    loop {
        legs.keep(read_leg(venue, words).ok_or(LineFault::Bad)?);
        let Some(plus) = words.next() else {
            break;
        };
        venue = next_venue(plus, words).ok_or(LineFault::Bad)?;
    }
    match legs.finish() {
        Ok(legs) => Ok(Legs::new(legs)),
        Err(_) => Err(LineFault::OutOfMemory),
    }
}

/// The release of the words behind `release`; with no word it is one of no legs.
pub(crate) fn read_release(alloc: Global, words: &mut Pieces<'_>) -> Result<Event, LineFault>
    ensures { ReadsLine (release_of_words words.old) result }
{
    let legs = match words.next() {
        Some(venue) => read_legs(alloc, venue, words)?,
        None => Legs::new(Vec::new(alloc)),
    };
    Ok(Event::Release(Sweep { legs }))
}
