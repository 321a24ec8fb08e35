//! A configuration as a case shows it.

use case_text::{Answers, PlayFault};
use desk_config::{ConfigFault, DeskConfig, Endpoint, User, UserToken, Venue};
use dialect::{AnyDialect, Extra};
use order_limits::LegLimits;
use std::alloc::{AllocError, Global};
use std::str;
use venue_words::{VenueWords, table_text};

/// What the desk does, but for its venues.
fn desk_text(alloc: Global, config: &DeskConfig) -> Result<String, AllocError> {
    let callers = config.callers;
    let mut text = format!(in alloc; "desk callers {callers}")?;
    if let Some(log) = &config.log {
        write!(text, " log {log}")?;
    }
    if let Some(journal) = &config.journal {
        let folder = &journal.folder;
        let durable = journal.durable;
        write!(text, " journal {folder} durable {durable}")?;
    }
    if let Some(page) = &config.page {
        write!(text, " page {page}")?;
    }
    if let Some(listen) = &config.listen {
        write!(text, " listen {listen}")?;
    }
    if let Some(socket) = &config.socket {
        write!(text, " socket {socket}")?;
    }
    if let Some(token) = &config.token {
        write!(text, " token {token}")?;
    }
    for host in &config.hosts {
        write!(text, " host {host}")?;
    }
    if let Some(name) = &config.label.name {
        write!(text, " name {name}")?;
    }
    if let Some(environment) = &config.label.environment {
        write!(text, " environment {environment}")?;
    }
    Ok(text)
}

/// Appends a limit behind its key, if there is one.
fn write_limit(text: &mut String, key: &str, limit: Option<u64>) -> Result<(), AllocError> {
    match limit {
        Some(limit) => write!(text, " {key} {limit}"),
        None => Ok(()),
    }
}

/// Appends what a leg may have.
fn write_leg_limits(text: &mut String, leg: LegLimits) -> Result<(), AllocError> {
    write_limit(text, "leg_shares", leg.shares)?;
    write_limit(text, "leg_dollars", leg.dollars)
}

/// What is limited; nothing where nothing is.
fn limits_text(alloc: Global, config: &DeskConfig) -> Result<String, AllocError> {
    let mut text = String::new(alloc);
    write_leg_limits(&mut text, config.limits.leg)?;
    write_limit(&mut text, "sweep_dollars", config.limits.sweep_dollars)?;
    write_limit(&mut text, "day_dollars", config.limits.day_dollars)?;
    for symbol in &config.symbols {
        write!(text, " symbol {symbol}")?;
    }
    Ok(text)
}

/// Where a venue's exchange is.
fn endpoint_text(alloc: Global, endpoint: &Endpoint) -> Result<String, AllocError> {
    match endpoint {
        Endpoint::At(address) => format!(in alloc; "at {address}"),
        Endpoint::Simulated(fill) => format!(in alloc; "simulated fill {fill}"),
    }
}

/// Where else it is dialled.
fn ways_text(alloc: Global, venue: &Venue) -> Result<String, AllocError> {
    let mut text = String::new(alloc);
    for backup in venue.backups.iter() {
        if let Some(address) = backup {
            write!(text, " backup {address}")?;
        }
    }
    Ok(text)
}

/// Fields, each behind what carries it.
fn write_fields(text: &mut String, what: &str, fields: &[Extra]) -> Result<(), AllocError> {
    for field in fields {
        let tag = field.tag;
        let value = str::from_utf8(field.value.as_slice()).unwrap_or("?");
        write!(text, " {what} {tag}={value}")?;
    }
    Ok(())
}

/// What its messages carry besides.
fn dress_text(alloc: Global, venue: &Venue) -> Result<String, AllocError> {
    let mut text = String::new(alloc);
    write_fields(&mut text, "header", venue.dress.header())?;
    write_fields(&mut text, "logon", venue.dress.logon())?;
    if let Some(file) = &venue.password_file {
        write!(text, " password_file {file}")?;
    }
    Ok(text)
}

fn write_right(text: &mut String, may: bool, name: &str) -> Result<(), AllocError> {
    if may { write!(text, " {name}") } else { Ok(()) }
}

/// A user: its name, how it is known, and what it may do.
fn user_text(alloc: Global, user: &User) -> Result<String, AllocError> {
    let name = &user.name;
    let mut text = format!(in alloc; "user {name}")?;
    match &user.token {
        UserToken::Text(token) => write!(text, " token {token}")?,
        UserToken::File(file) => write!(text, " token_file {file}")?,
    }
    write!(text, " may")?;
    write_right(&mut text, user.may.read, "read")?;
    write_right(&mut text, user.may.trade, "trade")?;
    write_right(&mut text, user.may.close, "close")?;
    write_right(&mut text, user.may.halt, "halt")?;
    Ok(text)
}

fn dialect_name(dialect: AnyDialect) -> &'static str {
    match dialect {
        AnyDialect::Plain => "plain",
        AnyDialect::Split4 => "split",
        AnyDialect::Coded => "coded",
    }
}

/// How a venue spells its orders: the name of its dialect, or the lines of its table, each in brackets.
fn words_text(alloc: Global, words: &VenueWords) -> Result<String, AllocError> {
    match words {
        VenueWords::Preset(dialect) => String::from_str(alloc, dialect_name(*dialect)),
        VenueWords::Table(table) => {
            let lines = table_text(alloc, table)?;
            let mut text = String::new(alloc);
            let shown = str::from_utf8(&lines).unwrap_or("?");
            for line in shown.lines() {
                write!(text, "[{line}]")?;
            }
            Ok(text)
        }
    }
}

/// The two ends of a session.
fn ends_text(alloc: Global, venue: &Venue) -> Result<String, AllocError> {
    let sender = str::from_utf8(venue.sender.as_bytes()).unwrap_or("?");
    let target = str::from_utf8(venue.target.as_bytes()).unwrap_or("?");
    format!(in alloc; "{sender} to {target}")
}

/// How a venue's session is held.
fn session_text(alloc: Global, venue: &Venue) -> Result<String, AllocError> {
    let dialect = words_text(alloc, &venue.words)?;
    let heartbeat = venue.session.heartbeat;
    let next = if venue.session.next_expected {
        " next_expected"
    } else {
        ""
    };
    let reopen = if venue.session.reopen { " reopen" } else { "" };
    let max = venue.session.max_number;
    format!(in alloc; "{dialect} heartbeat {heartbeat}{next}{reopen} max_number {max}")
}

fn venue_text(alloc: Global, venue: &Venue) -> Result<String, AllocError> {
    let name = &venue.name;
    let endpoint = endpoint_text(alloc, &venue.endpoint)?;
    let ends = ends_text(alloc, venue)?;
    let session = session_text(alloc, venue)?;
    let ways = ways_text(alloc, venue)?;
    let dress = dress_text(alloc, venue)?;
    let mut text = format!(in alloc; "venue {name} {endpoint}{ways} {ends} {session}{dress}")?;
    write_leg_limits(&mut text, venue.limits)?;
    Ok(text)
}

/// The desk in a line, and each venue and each user in a line of its own.
pub fn say_config(
    alloc: Global,
    config: &DeskConfig,
    answers: &mut Answers,
) -> Result<(), PlayFault> {
    let desk = desk_text(alloc, config)?;
    answers.say(desk.as_str())?;
    let limits = limits_text(alloc, config)?;
    if !limits.is_empty() {
        let line = format!(in alloc; "limits{limits}")?;
        answers.say(line.as_str())?;
    }
    for venue in config.venues.iter() {
        let text = venue_text(alloc, venue)?;
        answers.say(text.as_str())?;
    }
    for user in config.users.iter() {
        let text = user_text(alloc, user)?;
        answers.say(text.as_str())?;
    }
    Ok(())
}

/// A fault, of which TOML's own take several lines.
pub fn say_fault(
    alloc: Global,
    fault: &ConfigFault,
    answers: &mut Answers,
) -> Result<(), PlayFault> {
    let text = format!(in alloc; "{fault}")?;
    for line in text.as_str().lines() {
        let said = format!(in alloc; "fault {line}")?;
        answers.say(said.as_str())?;
    }
    Ok(())
}
