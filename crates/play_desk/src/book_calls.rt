//! The calls of a book, and what it answers.

use crate::note_words::{leg_id, note_of};
use crate::sweep_text::{any_venue, sweep_of};
use case_text::{Answers, PlayFault, number};
use leg::Totals;
use share_ledger::{Applied, Book, BookFault, BookedLeg};
use std::alloc::Global;

/// A book of so many venues.
pub fn new_book(alloc: Global, venues: &str) -> Result<Book, PlayFault> {
    let venues = number(venues)?;
    if venues < 1 || venues > 16 {
        return Err(PlayFault::NotUnderstood);
    }
    Book::new(alloc, venues as u8).map_err(|_| PlayFault::OutOfMemory)
}

fn tell_done(
    alloc: Global,
    answer: Result<(), BookFault>,
    answers: &mut Answers,
) -> Result<(), PlayFault> {
    match answer {
        Ok(()) => Ok(()),
        Err(fault) => {
            let text = format!(in alloc; "refused {fault}")?;
            answers.say(&text)
        }
    }
}

fn tell_totals(
    alloc: Global,
    totals: Option<Totals>,
    answers: &mut Answers,
) -> Result<(), PlayFault> {
    let Some(totals) = totals else {
        return answers.say("no sweep");
    };
    let Totals {
        filled,
        busted,
        cancelled,
        withdrawn,
        still_open,
    } = totals;
    let text = format!(in alloc;
        "filled {filled}, busted {busted}, cancelled {cancelled}, withdrawn {withdrawn}, open {still_open}"
    )?;
    answers.say(&text)
}

fn tell_leg(alloc: Global, leg: Option<BookedLeg>, answers: &mut Answers) -> Result<(), PlayFault> {
    let Some(BookedLeg { venue, parts }) = leg else {
        return answers.say("no leg");
    };
    let (venue, filled, busted) = (venue.number(), parts.filled(), parts.busted());
    let (cancelled, withdrawn) = (parts.cancelled(), parts.withdrawn());
    let still_open = parts.still_open();
    let text = format!(in alloc;
        "venue {venue}, filled {filled}, busted {busted}, cancelled {cancelled}, withdrawn {withdrawn}, open {still_open}"
    )?;
    answers.say(&text)
}

/// Opens a sweep under a number: the text is the number, and behind it the sweep's legs.
pub fn open(
    alloc: Global,
    book: &mut Book,
    text: &str,
    answers: &mut Answers,
) -> Result<(), PlayFault> {
    let (word, legs) = text.split_once(' ').unwrap_or((text, ""));
    let number = number(word)?;
    let sweep = sweep_of(alloc, legs)?;
    tell_done(alloc, book.open_sweep(number, &sweep), answers)
}

fn apply(
    alloc: Global,
    book: &mut Book,
    venue: &str,
    note: &[&str],
    answers: &mut Answers,
) -> Result<(), PlayFault> {
    let note = note_of(note)?;
    match book.apply(any_venue(venue)?, &note) {
        Ok(Applied::Moved) => answers.say("moved"),
        Ok(Applied::Duplicate) => answers.say("duplicate"),
        Ok(Applied::Overfill) => answers.say("overfill"),
        Ok(Applied::Stray) => answers.say("stray"),
        Err(fault) => tell_done(alloc, Err(fault), answers),
    }
}

/// A call of these words, but for the opening of a sweep.
pub fn call(
    alloc: Global,
    book: &mut Book,
    words: &[&str],
    answers: &mut Answers,
) -> Result<(), PlayFault> {
    match words {
        ["venue", venue, note @ ..] => apply(alloc, book, venue, note, answers),
        ["withdraw", id] => tell_done(alloc, book.withdraw(leg_id(id)?), answers),
        ["totals", sweep] => tell_totals(alloc, book.totals(number(sweep)?), answers),
        ["leg", id] => tell_leg(alloc, book.leg(leg_id(id)?), answers),
        ["number", "next"] => {
            let number = book.next_sweep();
            let text = format!(in alloc; "sweep {number}")?;
            answers.say(&text)
        }
        ["resolved", venue] => {
            let shares = book.venue_resolved(any_venue(venue)?);
            let text = format!(in alloc; "{shares} shares")?;
            answers.say(&text)
        }
        _ => Err(PlayFault::NotUnderstood),
    }
}
