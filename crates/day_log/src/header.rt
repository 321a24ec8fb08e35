//! What stands at the head of a log.

ghost use Rattle.std.specs.Prelude.{◌≡◌, Some, IfOk, string_bytes};
ghost use Rattle.day_log.specs.Header.{dialect_text, head_of_words, header_text, place_text, place_part, terms_part};
ghost use Rattle.day_log.specs.Header.{words_text, yes_or_no};

use desk_config::{Endpoint, SessionTerms, Venue};
use dialect::AnyDialect;
use std::alloc::{AllocError, Global};
use std::fmt;
use venue_words::{VenueWords, table_text};

/// The line at the head of `sweeps.log`.
pub const SWEEPS_HEADER: &[u8; 9] = b"# sweeps\n";

/// Where an exchange is, in words.
#[derive(Drop)]
struct PlaceText<'a>(&'a Endpoint);

impl<'a> fmt::Display for PlaceText<'a> {
    ghost output = { λ place. Some (place_text place.0.now) };

    fn fmt<W: fmt::Write>(&self, f: &mut fmt::Formatter<W>) -> fmt::Result {
        match self.0 {
            Endpoint::At(address) => write!(f, "{address}"),
            Endpoint::Simulated(_) => write!(f, "simulated"),
        }
    }
}

/// The name of a dialect, as a desk's file has it.
fn dialect_text(dialect: AnyDialect) -> &'static str
    ensures { result.now ≡ dialect_text dialect }
{
    match dialect {
        AnyDialect::Plain => "plain",
        AnyDialect::Split4 => "split",
        AnyDialect::Coded => "coded",
    }
}

/// The name of a venue's dialect, which is `words` where it has a table.
pub fn words_text(words: &VenueWords) -> &'static str
    ensures { result.now ≡ words_text words.now }
{
    match words {
        VenueWords::Preset(dialect) => dialect_text(*dialect),
        VenueWords::Table(_) => "words",
    }
}

/// Whether something is so, in a word.
#[derive(Drop)]
struct YesOrNo(bool);

impl fmt::Display for YesOrNo {
    ghost output = { λ is_so. Some (yes_or_no is_so.0) };

    fn fmt<W: fmt::Write>(&self, f: &mut fmt::Formatter<W>) -> fmt::Result {
        if self.0 {
            write!(f, "yes")
        } else {
            write!(f, "no")
        }
    }
}

/// The venue and where its exchange is.
fn place_part(alloc: Global, venue: &Venue) -> Result<String, AllocError>
    ensures { IfOk result (λ text. string_bytes text ≡ place_part venue.now) }
{
    let name = &venue.name;
    let place = PlaceText(&venue.endpoint);
    let mut text = String::new(alloc);
    write!(text, "# venue {name} address {place} sender ")?;
    Ok(text)
}

/// What its session is held by.
fn terms_part(alloc: Global, words: &VenueWords, terms: &SessionTerms) -> Result<String, AllocError>
    ensures { IfOk result (λ text. string_bytes text ≡ terms_part words.now terms.now) }
{
    let dialect = words_text(words);
    let heartbeat = terms.heartbeat;
    let next = YesOrNo(terms.next_expected);
    let mut text = String::new(alloc);
    write!(
        text,
        " dialect {dialect} heartbeat {heartbeat} next_expected {next}\n"
    )?;
    Ok(text)
}

/// The lines of a venue's table, if it has one, each with its end.
pub fn head_of_words(alloc: Global, words: &VenueWords) -> Result<Vec<u8>, AllocError>
    ensures { IfOk result (λ text. text.items ≡ head_of_words words.now) }
{
    match words {
        VenueWords::Preset(_) => Ok(Vec::new(alloc)),
        VenueWords::Table(table) => table_text(alloc, table),
    }
}

/// The lines at the head of a venue's log, each with its end: what the day's file says of the venue, and its table, if
/// it has one. Readers of logs pass them over, as each begins with `#`.
pub fn header_lines(alloc: Global, venue: &Venue) -> Result<Vec<u8>, AllocError>
    ensures { IfOk result (λ lines. lines.items ≡ header_text venue.now) }
{
    let mut lines = place_part(alloc, venue)?.into_bytes();
    lines.extend_from_slice(venue.sender.as_bytes())?;
    lines.extend_from_slice(b" target ")?;
    lines.extend_from_slice(venue.target.as_bytes())?;
    lines.extend_from_slice(terms_part(alloc, &venue.words, &venue.session)?.as_bytes())?;
    lines.extend_from_slice(&head_of_words(alloc, &venue.words)?)?;
    Ok(lines)
}
