//! The words in the heads of a day's journals.

ghost use Rattle.std.specs.Prelude.{◌≡◌, ◌++◌, IfOk, OnOk, string_bytes};
ghost use Rattle.day_log.specs.Header.{yes_or_no};
ghost use Rattle.day_restart.specs.Words.{day_part, desk_head, ids_part, in_one_line, table_part, terms_part, venue_head};

use day_log::{head_of_words, words_text};
use desk_config::{Day, Venue};
use desk_words::{Printable, shown};
use std::alloc::{AllocError, Global};

/// The words of the desk's journal: `day 2026-11-24 desk DESK`. The desk has the comp id that it has at its first
/// venue.
pub fn desk_words(alloc: Global, day: Day, venues: &[Venue]) -> Result<String, AllocError>
    ensures { IfOk result (λ words. string_bytes words ≡ desk_head day venues.now) }
{
    let mut words = format!(in alloc; "day {day} desk")?;
    if let Some(venue) = venues.first() {
        let sender: Printable<16> = shown(venue.sender.as_bytes());
        write!(words, " {sender}")?;
    }
    Ok(words)
}

/// Appends a text in one line, without its line ends, each byte as it is shown.
fn append_line(text: &[u8], words: &mut String) -> Result<(), AllocError>
    ensures { OnOk result (string_bytes words.new ≡ string_bytes words.old ++ in_one_line text.now) }
{
    for byte in text {
        if *byte == b'\n' {
            continue;
        }
        let byte: Printable<4> = shown(&[*byte]);
        write!(words, "{byte}")?;
    }
    Ok(())
}

/// Appends the lines of a venue's table, if it has one, in one line.
fn append_table(alloc: Global, venue: &Venue, words: &mut String) -> Result<(), AllocError>
    ensures { OnOk result (string_bytes words.new ≡ string_bytes words.old ++ table_part venue.now.words) }
{
    let table = head_of_words(alloc, &venue.words)?;
    if table.is_empty() {
        return Ok(());
    }
    words.push_str(" ")?;
    append_line(table.as_slice(), words)
}

/// Whether something is so, in a word.
fn yes_or_no(is_so: bool) -> &'static str
    ensures { result.now ≡ yes_or_no is_so }
{
    if is_so { "yes" } else { "no" }
}

/// Appends the day and a venue's name.
fn append_day(day: Day, venue: &Venue, words: &mut String) -> Result<(), AllocError>
    ensures { OnOk result (string_bytes words.new ≡ string_bytes words.old ++ day_part day venue.now) }
{
    let name = &venue.name;
    write!(words, "day {day} of {name}")
}

/// Appends the comp ids of a venue's session.
fn append_ids(venue: &Venue, words: &mut String) -> Result<(), AllocError>
    ensures { OnOk result (string_bytes words.new ≡ string_bytes words.old ++ ids_part venue.now) }
{
    let sender: Printable<16> = shown(venue.sender.as_bytes());
    let target: Printable<16> = shown(venue.target.as_bytes());
    write!(words, " sender {sender} target {target}")
}

/// Appends a venue's dialect and the terms of its session.
fn append_terms(venue: &Venue, words: &mut String) -> Result<(), AllocError>
    ensures { OnOk result (string_bytes words.new ≡ string_bytes words.old ++ terms_part venue.now) }
{
    let dialect = words_text(&venue.words);
    let heartbeat = venue.session.heartbeat;
    let next = yes_or_no(venue.session.next_expected);
    let most = venue.session.max_number;
    write!(
        words,
        " dialect {dialect} heartbeat {heartbeat} next_expected {next} max_number {most}"
    )
}

/// The words of a venue's journal: the day, the desk, and what the venue's session and its words are held by.
pub fn venue_words(alloc: Global, day: Day, venue: &Venue) -> Result<String, AllocError>
    ensures { IfOk result (λ words. string_bytes words ≡ venue_head day venue.now) }
{
    let mut words = String::new(alloc);
    append_day(day, venue, &mut words)?;
    append_ids(venue, &mut words)?;
    append_terms(venue, &mut words)?;
    append_table(alloc, venue, &mut words)?;
    Ok(words)
}
