//! The head of a venue's journal.

ghost use Rattle.std.specs.Prelude.{◌≡◌, ◌++◌, codes, IfOk, IfSome, OnOk, string_bytes};
ghost use Rattle.journal_log.specs.Head.{behind_space, dialect_text, head_words, ids_part, in_one_line};
ghost use Rattle.journal_log.specs.Head.{log_head, most_part, place_part, table_lines, terms_part, words_text, yes_or_no};

use desk_words::{Printable, VenueName, shown};
use dialect::AnyDialect;
use fix_tags::{CompId, Config, read_number};
use log_head::Head;
use std::alloc::{AllocError, Global};
use std::marker::Model;
use std::str;
use venue_words::{VenueWords, table_text};

/// The most bytes of a day as text.
const MAX_DAY: usize = 10;

/// Whose journal it is: the day, the venue, and what the venue's session and its words are held by.
#[derive(Drop)]
pub struct VenueHead {
    pub day: Printable<MAX_DAY>,
    pub name: VenueName,
    pub config: Config,
    pub words: VenueWords,
}

impl Model for VenueHead {
    ghost use Rattle.journal_log.specs.Head.{HeadParts};

    ghost Value = { HeadParts };

    ghost view = { λ h. record { day = h.day; name = h.name; config = h.config; words = h.words } };
}

/// The name of a dialect, as a desk's file has it.
fn dialect_text(dialect: AnyDialect) -> &'static str
    ensures { result.now ≡ dialect_text dialect }
{
    match dialect {
        AnyDialect::Plain => "plain",
        AnyDialect::Split4 => "split",
        AnyDialect::Coded => "coded",
    }
}

/// The name of a venue's dialect, which is `words` where it has a table.
fn words_text(words: &VenueWords) -> &'static str
    ensures { result.now ≡ words_text words.now }
{
    match words {
        VenueWords::Preset(dialect) => dialect_text(*dialect),
        VenueWords::Table(_) => "words",
    }
}

/// The lines of a venue's table, if it has one, each with its end.
fn table_lines(alloc: Global, words: &VenueWords) -> Result<Vec<u8>, AllocError>
    ensures { IfOk result (λ text. text.items ≡ table_lines words.now) }
{
    match words {
        VenueWords::Preset(_) => Ok(Vec::new(alloc)),
        VenueWords::Table(table) => table_text(alloc, table),
    }
}

/// Whether something is so, in a word.
fn yes_or_no(is_so: bool) -> &'static str
    ensures { result.now ≡ yes_or_no is_so }
{
    if is_so { "yes" } else { "no" }
}

/// Appends a text in one line, without its line ends, each byte as it is shown.
fn append_line(text: &[u8], words: &mut String) -> Result<(), AllocError>
    ensures { OnOk result (string_bytes words.new ≡ string_bytes words.old ++ in_one_line text.now) }
{
    for byte in text {
        if *byte == b'\n' {
            continue;
        }
        let byte: Printable<4> = shown(&[*byte]);
        write!(words, "{byte}")?;
    }
    Ok(())
}

/// Appends the lines of a table, if there are any, in one line.
fn append_table(lines: &[u8], words: &mut String) -> Result<(), AllocError>
    ensures { OnOk result (string_bytes words.new ≡ string_bytes words.old ++ behind_space lines.now) }
{
    if lines.is_empty() {
        return Ok(());
    }
    words.push_str(" ")?;
    append_line(lines, words)
}

/// Appends the dialect and the terms of the session.
fn append_terms(
    venue_words: &VenueWords,
    config: &Config,
    words: &mut String,
) -> Result<(), AllocError>
    ensures { OnOk result
        (string_bytes words.new ≡ string_bytes words.old ++ terms_part venue_words.now config.now) }
{
    let dialect = words_text(venue_words);
    let heart = config.heart();
    let next = yes_or_no(config.has_next());
    write!(
        words,
        " dialect {dialect} heartbeat {heart} next_expected {next}"
    )
}

/// Appends the number that no message of the session reaches.
fn append_most(config: &Config, words: &mut String) -> Result<(), AllocError>
    ensures { OnOk result (string_bytes words.new ≡ string_bytes words.old ++ most_part config.now) }
{
    let most = config.max_number();
    write!(words, " max_number {most}")
}

/// The dialect and the terms of the session, with the end of the line.
fn terms_text(
    alloc: Global,
    venue_words: &VenueWords,
    config: &Config,
) -> Result<String, AllocError>
    ensures { IfOk result (λ text. string_bytes text ≡ terms_part venue_words.now config.now ++ codes "\n") }
{
    let mut text = String::new(alloc);
    append_terms(venue_words, config, &mut text)?;
    text.push_str("\n")?;
    Ok(text)
}

impl VenueHead {
    /// Appends the day, the venue and the comp ids.
    fn append_ids(&self, words: &mut String) -> Result<(), AllocError>
        ensures { OnOk result (string_bytes words.new ≡ string_bytes words.old ++ ids_part self.now) }
    {
        let day = &self.day;
        let name = &self.name;
        let me: Printable<16> = shown(self.config.me().as_bytes());
        let peer: Printable<16> = shown(self.config.peer().as_bytes());
        write!(words, "day {day} of {name} sender {me} target {peer}")
    }

    /// The words of the journal's heads.
    fn head_words(&self, alloc: Global) -> Result<String, AllocError>
        ensures { IfOk result (λ words. string_bytes words ≡ head_words self.now) }
    {
        let mut words = String::new(alloc);
        self.append_ids(&mut words)?;
        append_terms(&self.words, &self.config, &mut words)?;
        append_most(&self.config, &mut words)?;
        append_table(&table_lines(alloc, &self.words)?, &mut words)?;
        Ok(words)
    }

    /// The venue and the comp ids, as the log's head has them.
    fn place_part(&self, alloc: Global) -> Result<Vec<u8>, AllocError>
        ensures { IfOk result (λ text. text.items ≡ place_part self.now) }
    {
        let name = &self.name;
        let mut text = format!(in alloc; "# venue {name} address unknown sender ")?.into_bytes();
        text.extend_from_slice(self.config.me().as_bytes())?;
        text.extend_from_slice(b" target ")?;
        text.extend_from_slice(self.config.peer().as_bytes())?;
        Ok(text)
    }

    /// The lines at the head of the venue's log, each with its end. A journal doesn't have the venue's address.
    pub fn log_head(&self, alloc: Global) -> Result<Vec<u8>, AllocError>
        ensures { IfOk result (λ text. text.items ≡ log_head self.now) }
    {
        let mut text = self.place_part(alloc)?;
        text.extend_from_slice(terms_text(alloc, &self.words, &self.config)?.as_bytes())?;
        text.extend_from_slice(&table_lines(alloc, &self.words)?)?;
        Ok(text)
    }
}

/// The word behind this one at the front of a text, and what is behind the space that follows it.
fn word_behind<'a>(text: &'a str, word: &str) -> Option<(&'a str, &'a str)> {
    text.strip_prefix(word)?.split_once(' ')
}

/// Whether a word says that something is so.
fn is_so(word: &str) -> Option<bool> {
    match word {
        "yes" => Some(true),
        "no" => Some(false),
        _ => None,
    }
}

/// The words of a venue with this dialect and this table, which is in one line.
fn venue_words(
    alloc: Global,
    dialect: &str,
    table: &str,
) -> Result<Option<VenueWords>, AllocError> {
    let mut head = Head::new();
    let first = format!(in alloc; "# venue V address A sender S target T dialect {dialect}")?;
    head.read(1, first.as_bytes());
    let mut fields = table.split("# order ");
    if let Some(forms) = fields.next() {
        head.read(2, forms.as_bytes());
    }
    for field in fields {
        let line = format!(in alloc; "# order {field}")?;
        head.read(2, line.as_bytes());
    }
    Ok(head.into_words())
}

/// What is read of a head, before its words are.
#[derive(Drop)]
struct Terms<'a> {
    day: &'a str,
    name: &'a str,
    me: &'a str,
    peer: &'a str,
    dialect: &'a str,
    heart: &'a str,
    next: &'a str,
    most: &'a str,
    table: &'a str,
}

/// The parts of a head.
fn terms_in(words: &str) -> Option<Terms<'_>> {
    let (day, rest) = word_behind(words, "day ")?;
    let (name, rest) = word_behind(rest, "of ")?;
    let (me, rest) = word_behind(rest, "sender ")?;
    let (peer, rest) = word_behind(rest, "target ")?;
    let (dialect, rest) = word_behind(rest, "dialect ")?;
    let (heart, rest) = word_behind(rest, "heartbeat ")?;
    let (next, rest) = word_behind(rest, "next_expected ")?;
    let rest = rest.strip_prefix("max_number ")?;
    let (most, table) = match rest.split_once(' ') {
        Some(parts) => parts,
        None => (rest, ""),
    };
    Some(Terms {
        day,
        name,
        me,
        peer,
        dialect,
        heart,
        next,
        most,
        table,
    })
}

/// The terms of the session.
fn config_in(terms: &Terms<'_>) -> Option<Config> {
    let me = CompId::new(terms.me.as_bytes())?;
    let peer = CompId::new(terms.peer.as_bytes())?;
    let heart = read_number(terms.heart.as_bytes())?;
    let most = read_number(terms.most.as_bytes())?;
    let config = Config::new(me, peer, heart, most)?;
    if is_so(terms.next)? {
        Some(config.with_next())
    } else {
        Some(config)
    }
}

/// A head of which these may be the words.
fn head_in(alloc: Global, words: &str) -> Result<Option<VenueHead>, AllocError> {
    let Some(terms) = terms_in(words) else {
        return Ok(None);
    };
    let day = Printable::new(terms.day.as_bytes());
    let name = VenueName::new(terms.name.as_bytes());
    let config = config_in(&terms);
    let words = venue_words(alloc, terms.dialect, terms.table)?;
    match (day, name, config, words) {
        (Some(day), Some(name), Some(config), Some(words)) => Ok(Some(VenueHead {
            day,
            name,
            config,
            words,
        })),
        _ => Ok(None),
    }
}

/// The head of a venue's journal of which these are the words, or none: they aren't those of a venue's journal, or of
/// one that this program knows. A comp id or a table with a backslash is none of these, since a head tells it cut.
pub fn read_venue_head(alloc: Global, words: &[u8]) -> Result<Option<VenueHead>, AllocError>
    ensures { IfOk result (λ head. IfSome head (λ head. words.now ≡ head_words head)) }
{
    let Ok(text) = str::from_utf8(words) else {
        return Ok(None);
    };
    let Some(head) = head_in(alloc, text)? else {
        return Ok(None);
    };
    if head.head_words(alloc)?.as_bytes() == words {
        Ok(Some(head))
    } else {
        Ok(None)
    }
}
