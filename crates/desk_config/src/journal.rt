//! Where a day's journal is kept.

ghost use Rattle.std.specs.Prelude.{◌≡◌, IfOk, option_map, string_bytes};
ghost use Rattle.dialect.specs.Split.{parts_round};
ghost use Rattle.desk_config.specs.Journal.{behind_day, day_parts, durable_named, folder_on, has_percent, has_stray_percent, pattern_of};

use crate::config::FolderText;
use crate::day::Day;
use std::alloc::{AllocError, Global};
use std::fmt;
use std::marker::Model;

/// What a journal outlives.
#[derive(Clone, Copy, Debug, PartialEq, Eq)]
pub enum Durable {
    /// The end of the process, however it comes.
    Process,
    /// A loss of power.
    Power,
}

impl Durable {
    ghost use Rattle.std.specs.Prelude.{◌≡◌};

    /// What is called `process` or `power`.
    pub fn named(name: &str) -> Option<Durable>
        ensures { result ≡ durable_named name.now }
    {
        match name {
            "process" => Some(Durable::Process),
            "power" => Some(Durable::Power),
            _ => None,
        }
    }
}

impl fmt::Display for Durable {
    ghost use Rattle.std.specs.Prelude.{Some};
    ghost use Rattle.desk_config.specs.Journal.{durable_text};

    ghost output = { λ durable. Some (durable_text durable) };

    fn fmt<W: fmt::Write>(&self, f: &mut fmt::Formatter<W>) -> fmt::Result {
        match self {
            Durable::Process => write!(f, "process"),
            Durable::Power => write!(f, "power"),
        }
    }
}

/// What stands before the first `%` of a text, and what behind it.
fn round_percent(text: &str) -> Option<(&str, &str)>
    ensures { option_map (λ parts. (parts.0.now, parts.1.now)) result ≡ parts_round 37 text.now }
{
    text.split_once('%')
}

/// What stands behind `%Y-%m-%d`, of what stands behind the `%`.
fn behind_day(rest: &str) -> Option<&str>
    ensures { option_map (λ behind. behind.now) result ≡ behind_day rest.now }
{
    rest.strip_prefix("Y-%m-%d")
}

/// What stands before `%Y-%m-%d` in a text, and what behind it, where this is its first `%`.
#[tactic(auto, unfolding(crate::specs::Journal::day_parts))]
fn day_parts(text: &str) -> Option<(&str, &str)>
    ensures { option_map (λ parts. (parts.0.now, parts.1.now)) result ≡ day_parts text.now }
{
    let (before, rest) = round_percent(text)?;
    let behind = behind_day(rest)?;
    Some((before, behind))
}

fn has_percent(text: &str) -> bool
    ensures { result ≡ has_percent text.now }
{
    text.as_bytes().iter().any(|byte| *byte == b'%')
}

/// Whether a text has a `%` outside of one `%Y-%m-%d`.
fn has_stray_percent(text: &str) -> bool
    ensures { result ≡ has_stray_percent text.now }
{
    match day_parts(text) {
        Some((_, behind)) => has_percent(behind),
        None => has_percent(text),
    }
}

/// The name of a folder in which `%Y-%m-%d` may stand once, for the day.
#[derive(Debug, PartialEq, Eq, Drop)]
pub struct DayPattern {
    text: FolderText,
}

impl Model for DayPattern {
    ghost use Rattle.std.specs.Prelude.{ℕ, List};

    ghost Value = { List ℕ };

    ghost view = { λ pattern. pattern.text };

    ghost inverse = { λ text. record { text = text } };
}

impl DayPattern {
    /// The pattern that a text of 1 to 200 printable characters is.
    pub fn new(text: &str) -> Option<DayPattern>
        ensures { result ≡ pattern_of text.now }
    {
        if has_stray_percent(text) {
            return None;
        }
        let text = FolderText::new(text.as_bytes())?;
        Some(DayPattern { text })
    }

    /// The folder of a day.
    pub fn folder_on(&self, alloc: Global, day: Day) -> Result<String, AllocError>
        ensures { IfOk result (λ folder. string_bytes folder ≡ folder_on self.now day) }
    {
        match day_parts(self.text.as_str()) {
            Some((before, behind)) => format!(in alloc; "{before}{day}{behind}"),
            None => String::from_str(alloc, self.text.as_str()),
        }
    }
}

impl fmt::Display for DayPattern {
    ghost use Rattle.std.specs.Prelude.{Some};

    ghost output = { λ text. Some text };

    fn fmt<W: fmt::Write>(&self, f: &mut fmt::Formatter<W>) -> fmt::Result {
        let text = &self.text;
        write!(f, "{text}")
    }
}

/// Where a day's journal is kept, and what it outlives.
#[derive(Debug, Drop)]
pub struct JournalTerms {
    pub folder: DayPattern,
    pub durable: Durable,
}
