//! What `dispatch run FILE --check` prints.

ghost use Rattle.std.specs.Prelude.{◌≡◌, ◌++◌, Some, IfOk, OnOk, string_bytes};
ghost use Rattle.std.specs.List.{flat_map};
ghost use Rattle.config_check.specs.Checked.{all_words, check_text, journal_line, journal_text, label_line, label_text, leg_words, limit_word};
ghost use Rattle.config_check.specs.Checked.{listen_line, listen_text, socket_line, socket_text, limits_line, page_line, page_text, place_text, right_word, symbol_word};
ghost use Rattle.config_check.specs.Checked.{symbol_words, user_line, venue_limits, venue_line, venue_lines};

use crate::venue_check::{append_backups, append_dress, append_named};
use day_log::{head_of_words, words_text};
use desk_config::{
    Address, Callers, DeskConfig, Endpoint, JournalTerms, SocketText, User, UserName, Venue,
};
use leg::Symbol;
use order_limits::LegLimits;
use std::alloc::{AllocError, Global};
use std::fmt;

/// Where a venue's exchange is, in words.
#[derive(Drop)]
struct PlaceText<'a>(&'a Endpoint);

impl<'a> fmt::Display for PlaceText<'a> {
    ghost output = { λ place. Some (place_text place.0.now) };

    fn fmt<W: fmt::Write>(&self, f: &mut fmt::Formatter<W>) -> fmt::Result {
        match self.0 {
            Endpoint::At(address) => write!(f, "at {address}"),
            Endpoint::Simulated(fill) => write!(f, "simulated fill {fill}"),
        }
    }
}

/// A venue, in words.
#[derive(Drop)]
struct VenueLine<'a>(&'a Venue);

impl<'a> fmt::Display for VenueLine<'a> {
    ghost output = { λ line. Some (venue_line line.0.now) };

    fn fmt<W: fmt::Write>(&self, f: &mut fmt::Formatter<W>) -> fmt::Result {
        let name = &self.0.name;
        let place = PlaceText(&self.0.endpoint);
        let dialect = words_text(&self.0.words);
        let heartbeat = self.0.session.heartbeat;
        write!(f, "venue {name} {place} {dialect} heartbeat {heartbeat}")
    }
}

/// What the desk is called, or where it trades, behind its key.
fn label_text(alloc: Global, key: &str, label: &UserName) -> Result<Vec<u8>, AllocError>
    ensures { IfOk result (λ text. text.items ≡ label_text key.now label.now) }
{
    let line = format!(in alloc; "{key} {label}\n")?;
    Ok(line.into_bytes())
}

/// What the desk is called, or where it trades, if the file says it.
fn label_line(alloc: Global, key: &str, label: &Option<UserName>) -> Result<Vec<u8>, AllocError>
    ensures { IfOk result (λ text. text.items ≡ label_line key.now label.now) }
{
    match label {
        Some(label) => label_text(alloc, key, label),
        None => Ok(Vec::new(alloc)),
    }
}

/// Appends a limit behind its key, if there is one.
fn append_limit(
    alloc: Global,
    key: &[u8],
    limit: Option<u64>,
    text: &mut Vec<u8>,
) -> Result<(), AllocError>
    ensures { OnOk result (text.new.items ≡ text.old.items ++ limit_word key.now limit) }
{
    if let Some(limit) = limit {
        text.extend_from_slice(b" ")?;
        text.extend_from_slice(key)?;
        let number = format!(in alloc; " {limit}")?;
        text.extend_from_slice(number.as_bytes())?;
    }
    Ok(())
}

/// Appends what a leg may have.
fn append_leg(alloc: Global, leg: LegLimits, text: &mut Vec<u8>) -> Result<(), AllocError>
    ensures { OnOk result (text.new.items ≡ text.old.items ++ leg_words leg) }
{
    append_limit(alloc, b"leg_shares", leg.shares, text)?;
    append_limit(alloc, b"leg_dollars", leg.dollars, text)
}

/// A symbol behind a space.
#[tactic(auto, unfolding(crate::specs::Checked::symbol_word))]
fn symbol_word(alloc: Global, symbol: &Symbol) -> Result<String, AllocError>
    ensures { IfOk result (λ word. string_bytes word ≡ symbol_word symbol.now) }
{
    format!(in alloc; " {symbol}")
}

/// Appends symbols.
fn append_symbols(alloc: Global, symbols: &[Symbol], text: &mut Vec<u8>) -> Result<(), AllocError>
    ensures { OnOk result (text.new.items ≡ text.old.items ++ symbol_words symbols.now) }
{
    if symbols.is_empty() {
        return Ok(());
    }
    text.extend_from_slice(b" symbols")?;
    for symbol in symbols {
        text.extend_from_slice(symbol_word(alloc, symbol)?.as_bytes())?;
    }
    Ok(())
}

/// What a file limits.
fn all_words(alloc: Global, config: &DeskConfig) -> Result<Vec<u8>, AllocError>
    ensures { IfOk result (λ text. text.items ≡ all_words config.now) }
{
    let mut text = Vec::new(alloc);
    append_leg(alloc, config.limits.leg, &mut text)?;
    append_limit(
        alloc,
        b"sweep_dollars",
        config.limits.sweep_dollars,
        &mut text,
    )?;
    append_limit(alloc, b"day_dollars", config.limits.day_dollars, &mut text)?;
    append_symbols(alloc, config.symbols.as_slice(), &mut text)?;
    Ok(text)
}

/// The line of what a leg for a venue may have, if that is limited.
fn venue_limits(alloc: Global, venue: &Venue) -> Result<Vec<u8>, AllocError>
    ensures { IfOk result (λ text. text.items ≡ venue_limits venue.now) }
{
    let mut words = Vec::new(alloc);
    append_leg(alloc, venue.limits, &mut words)?;
    let mut text = Vec::new(alloc);
    let name = &venue.name;
    let head = format!(in alloc; "limits of {name}")?;
    append_named(head.as_bytes(), words.as_slice(), &mut text)?;
    Ok(text)
}

/// The line of a venue: where it is, its dialect and its heartbeat interval; and behind it the lines of its table, if
/// it has one, as its log has them, its backups, what its messages carry besides, and what a leg for it may
/// have, if the file says it.
#[tactic(auto, unfolding(crate::specs::Checked::venue_lines))]
fn venue_lines(alloc: Global, venue: &Venue) -> Result<Vec<u8>, AllocError>
    ensures { IfOk result (λ text. text.items ≡ venue_lines venue.now) }
{
    let line = VenueLine(venue);
    let mut text = format!(in alloc; "{line}\n")?.into_bytes();
    text.extend_from_slice(&head_of_words(alloc, &venue.words)?)?;
    append_backups(alloc, venue, &mut text)?;
    append_dress(alloc, venue, &mut text)?;
    text.extend_from_slice(&venue_limits(alloc, venue)?)?;
    Ok(text)
}

/// Appends the lines of venues.
fn append_venues(alloc: Global, venues: &[Venue], text: &mut Vec<u8>) -> Result<(), AllocError>
    ensures { OnOk result (text.new.items ≡ text.old.items ++ flat_map venue_lines venues.now) }
{
    for venue in venues {
        text.extend_from_slice(&venue_lines(alloc, venue)?)?;
    }
    Ok(())
}

/// Where the journal is kept, and what it outlives.
fn journal_text(alloc: Global, journal: &JournalTerms) -> Result<Vec<u8>, AllocError>
    ensures { IfOk result (λ text. text.items ≡ journal_text journal.now) }
{
    let folder = &journal.folder;
    let durable = journal.durable;
    let line = format!(in alloc; "journal {folder} durable {durable}\n")?;
    Ok(line.into_bytes())
}

/// Where the journal is kept, if there is one.
fn journal_line(alloc: Global, config: &DeskConfig) -> Result<Vec<u8>, AllocError>
    ensures { IfOk result (λ text. text.items ≡ journal_line config.now.journal) }
{
    match &config.journal {
        Some(journal) => journal_text(alloc, journal),
        None => Ok(Vec::new(alloc)),
    }
}

/// Where the page is served.
fn page_text(alloc: Global, page: &Address, callers: Callers) -> Result<Vec<u8>, AllocError>
    ensures { IfOk result (λ text. text.items ≡ page_text callers page.now) }
{
    let line = format!(in alloc; "page at {page} callers {callers}\n")?;
    Ok(line.into_bytes())
}

/// Where the page is served, if it is.
fn page_line(alloc: Global, config: &DeskConfig) -> Result<Vec<u8>, AllocError>
    ensures { IfOk result (λ text. text.items ≡ page_line config.now.callers config.now.page) }
{
    match &config.page {
        Some(page) => page_text(alloc, page, config.callers),
        None => Ok(Vec::new(alloc)),
    }
}

/// Where lines are taken over TCP.
fn listen_text(alloc: Global, listen: &Address) -> Result<Vec<u8>, AllocError>
    ensures { IfOk result (λ text. text.items ≡ listen_text listen.now) }
{
    let line = format!(in alloc; "lines at {listen}\n")?;
    Ok(line.into_bytes())
}

/// Where lines are taken over TCP, if they are.
fn listen_line(alloc: Global, config: &DeskConfig) -> Result<Vec<u8>, AllocError>
    ensures { IfOk result (λ text. text.items ≡ listen_line config.now.listen) }
{
    match &config.listen {
        Some(listen) => listen_text(alloc, listen),
        None => Ok(Vec::new(alloc)),
    }
}

/// On which Unix socket lines are taken.
fn socket_text(alloc: Global, socket: &SocketText) -> Result<Vec<u8>, AllocError>
    ensures { IfOk result (λ text. text.items ≡ socket_text socket.now) }
{
    let line = format!(in alloc; "lines on {socket}\n")?;
    Ok(line.into_bytes())
}

/// On which Unix socket lines are taken, if they are.
fn socket_line(alloc: Global, config: &DeskConfig) -> Result<Vec<u8>, AllocError>
    ensures { IfOk result (λ text. text.items ≡ socket_line config.now.socket) }
{
    match &config.socket {
        Some(socket) => socket_text(alloc, socket),
        None => Ok(Vec::new(alloc)),
    }
}

/// Appends a word behind a space, where it holds.
fn append_right(may: bool, word: &[u8], text: &mut Vec<u8>) -> Result<(), AllocError>
    ensures { OnOk result (text.new.items ≡ text.old.items ++ right_word may word.now) }
{
    if may {
        text.extend_from_slice(word)?;
    }
    Ok(())
}

/// A user, and what the user may do.
fn user_line(alloc: Global, user: &User) -> Result<Vec<u8>, AllocError>
    ensures { IfOk result (λ text. text.items ≡ user_line user.now) }
{
    let name = &user.name;
    let mut text = format!(in alloc; "user {name} may")?.into_bytes();
    append_right(user.may.read, b" read", &mut text)?;
    append_right(user.may.trade, b" trade", &mut text)?;
    append_right(user.may.close, b" close", &mut text)?;
    append_right(user.may.halt, b" halt", &mut text)?;
    text.extend_from_slice(b"\n")?;
    Ok(text)
}

/// Appends the lines of users.
fn append_users(alloc: Global, users: &[User], text: &mut Vec<u8>) -> Result<(), AllocError>
    ensures { OnOk result (text.new.items ≡ text.old.items ++ flat_map user_line users.now) }
{
    for user in users {
        text.extend_from_slice(&user_line(alloc, user)?)?;
    }
    Ok(())
}

/// The line of what the file limits, if it limits anything.
fn limits_line(alloc: Global, config: &DeskConfig) -> Result<Vec<u8>, AllocError>
    ensures { IfOk result (λ text. text.items ≡ limits_line config.now) }
{
    let words = all_words(alloc, config)?;
    let mut text = Vec::new(alloc);
    append_named(b"limits", words.as_slice(), &mut text)?;
    Ok(text)
}

/// What the desk is called; the lines of the venues; where the journal is kept, the page is served and lines are taken,
/// if they are; the users; what is limited; and that the file is a day's.
pub fn check_text(alloc: Global, config: &DeskConfig) -> Result<Vec<u8>, AllocError>
    ensures { IfOk result (λ text. text.items ≡ check_text config.now) }
{
    let mut text = Vec::new(alloc);
    text.extend_from_slice(&label_line(alloc, "desk", &config.label.name)?)?;
    text.extend_from_slice(&label_line(alloc, "environment", &config.label.environment)?)?;
    append_venues(alloc, config.venues.as_slice(), &mut text)?;
    text.extend_from_slice(&journal_line(alloc, config)?)?;
    text.extend_from_slice(&page_line(alloc, config)?)?;
    text.extend_from_slice(&listen_line(alloc, config)?)?;
    text.extend_from_slice(&socket_line(alloc, config)?)?;
    append_users(alloc, config.users.as_slice(), &mut text)?;
    text.extend_from_slice(&limits_line(alloc, config)?)?;
    text.extend_from_slice(b"file ok\n")?;
    Ok(text)
}
