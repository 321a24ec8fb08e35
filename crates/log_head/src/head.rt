//! The dialect that the head of a log names.
ghost use Rattle.std.specs.Prelude.{◌≡◌, option_map};
ghost use Rattle.log_head.specs.LogHead.{dialect_in, field_in, first_head, head_after, known, named, next_head};
ghost use Rattle.log_head.specs.LogHead.{piece_at};
ghost use Rattle.log_head.specs.LogHead.{says, table_in, text_in, with_id_of, with_mark_of, with_price_of};
ghost use Rattle.log_head.specs.LogHead.{with_symbol_of, word_at, words_in};
ghost use Rattle.log_head.specs.declared.head.Head.TheVariants.{Unknown};

use dialect::AnyDialect;
use std::str;
use venue_words::{VenueDialect, VenueWords, WordTable};

/// What the lines at the head of a log say of the dialect of its orders.
#[derive(Drop)]
pub enum Head {
    /// None that is known.
    Unknown,
    /// The venue has words of its own, whose table comes next.
    Awaited,
    Known(VenueWords),
}

/// What stands at a place of a line between spaces, where the first place is 0, if it has so many.
fn piece_at(line: &[u8], place: usize) -> Option<&[u8]>
    ensures { option_map (λ piece. piece.now) result ≡ piece_at line.now place }
{
    line.split(|byte| *byte == b' ').nth(place)
}

/// The text of these bytes, if they are UTF-8.
fn text_in(bytes: &[u8]) -> Option<&str>
    ensures { option_map (λ text. text.now) result ≡ text_in bytes.now }
{
    match str::from_utf8(bytes) {
        Ok(text) => Some(text),
        Err(_) => None,
    }
}

/// The word at a place of a line, of which the first is at 0, if it has so many.
fn word_at(line: &[u8], place: usize) -> Option<&str>
    ensures { option_map (λ word. word.now) result ≡ word_at line.now place }
{
    text_in(piece_at(line, place)?)
}

/// Whether the word at a place of a line is this one.
fn says(line: &[u8], place: usize, word: &str) -> bool
    ensures { result ≡ says line.now place word.now }
{
    match word_at(line, place) {
        Some(said) => said == word,
        None => false,
    }
}

/// What is known by the name of a dialect.
fn named(name: &str) -> Head
    ensures { result ≡ named name.now }
{
    if name == "words" {
        return Head::Awaited;
    }
    match AnyDialect::named(name) {
        Some(dialect) => Head::Known(VenueWords::Preset(dialect)),
        None => Head::Unknown,
    }
}

/// What the first line says, as
/// `# venue NYSE address 10.0.0.1:9001 sender DESK target NYSE dialect plain heartbeat 30 next_expected no`.
fn first_head(line: &[u8]) -> Head
    ensures { result ≡ first_head line.now }
{
    if !says(line, 1, "venue") || !says(line, 9, "dialect") {
        return Head::Unknown;
    }
    match word_at(line, 10) {
        Some(name) => named(name),
        None => Head::Unknown,
    }
}

fn with_id_of(line: &[u8], table: &WordTable) -> Option<WordTable>
    ensures { result ≡ with_id_of line.now table.now }
{
    table.with_id(word_at(line, 3)?.as_bytes())
}

fn with_mark_of(line: &[u8], table: &WordTable) -> Option<WordTable>
    ensures { result ≡ with_mark_of line.now table.now }
{
    table.with_mark(word_at(line, 5)?.as_bytes()).ok()
}

fn with_price_of(line: &[u8], table: &WordTable) -> Option<WordTable>
    ensures { result ≡ with_price_of line.now table.now }
{
    table.with_price(word_at(line, 7)?)
}

fn with_symbol_of(line: &[u8], table: &WordTable) -> Option<WordTable>
    ensures { result ≡ with_symbol_of line.now table.now }
{
    table.with_symbol(word_at(line, 9)?)
}

/// The table of a line as `# words id S12L3 mark 18=f price short symbol .`.
fn table_in(line: &[u8]) -> Option<WordTable>
    ensures { result ≡ table_in line.now }
{
    let table = with_id_of(line, &WordTable::preset(AnyDialect::Plain))?;
    let table = with_mark_of(line, &table)?;
    let table = with_price_of(line, &table)?;
    with_symbol_of(line, &table)
}

/// The field of a line as `# order 528=P`.
fn field_in(line: &[u8]) -> Option<&[u8]>
    ensures { option_map (λ field. field.now) result ≡ field_in line.now }
{
    line.strip_prefix(b"# order ")
}

/// What is known once a table was read.
fn known(table: Option<WordTable>) -> Head
    ensures { result ≡ known table }
{
    match table {
        Some(table) => Head::Known(VenueWords::Table(table)),
        None => Head::Unknown,
    }
}

/// What is known behind a line that follows the first one, where that is something else.
fn next_head(head: &Head, line: &[u8]) -> Option<Head>
    ensures { result ≡ next_head head.now line.now }
{
    match head {
        Head::Awaited if line.starts_with(b"# words ") => Some(known(table_in(line))),
        Head::Known(VenueWords::Table(table)) => {
            Some(known(table.with_field(field_in(line)?).ok()))
        }
        _ => None,
    }
}

impl Head {
    /// Nothing was read.
    pub fn new() -> Head
        ensures { result ≡ Unknown }
    {
        Head::Unknown
    }

    /// Reads a line of this number that stands before all messages.
    pub fn read(&mut self, number: u64, line: &[u8])
        ensures { self.new ≡ head_after number line.now self.old }
    {
        if number == 1 {
            *self = first_head(line);
        } else if let Some(next) = next_head(self, line) {
            *self = next;
        }
    }

    /// The dialect, if it is known.
    pub fn dialect(&self) -> Option<VenueDialect>
        ensures { result ≡ dialect_in self.now }
    {
        match self {
            Head::Known(words) => Some(words.dialect()),
            _ => None,
        }
    }

    /// The venue's words, if they are known.
    pub fn into_words(self) -> Option<VenueWords>
        ensures { result ≡ words_in self }
    {
        match self {
            Head::Known(words) => Some(words),
            _ => None,
        }
    }
}
