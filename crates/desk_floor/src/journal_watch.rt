//! Whether the journals of a day are kept.

ghost use Rattle.std.specs.Prelude.{◌≡◌, IfSome, Some, not};
ghost use Rattle.desk_floor.specs.JournalNews.{journal_json, journal_text};

use desk_words::Printable;
use json_lines::Line;
use std::alloc::{AllocError, Global};
use std::fmt;
use std::sync::Arc;
use std::sync::atomic::{AtomicBool, Ordering};

/// A journal of the day, and whether its last lines couldn't be kept.
#[derive(Drop)]
pub struct JournalWatch {
    name: Printable<16>,
    is_failing: Arc<AtomicBool, Global>,
}

impl JournalWatch {
    /// The journal of this name, of which another thread says whether it is failing.
    pub fn new(name: Printable<16>, is_failing: Arc<AtomicBool, Global>) -> JournalWatch
        ensures { result.name ≡ name }
    {
        JournalWatch { name, is_failing }
    }

    /// What is told of it, where it stands otherwise than it was told to. The lines of one that is failing aren't lost:
    /// they are tried again, and nothing goes out before they are kept.
    pub fn news(&self, was_failing: bool) -> Option<JournalNews<'_>>
        ensures { IfSome result (λ news. (news.name.now ≡ self.now.name) × (news.is_failing ≡ not was_failing)) }
    {
        let is_failing = self.is_failing.load(Ordering::SeqCst);
        if is_failing == was_failing {
            return None;
        }
        Some(JournalNews {
            name: &self.name,
            is_failing,
        })
    }
}

/// That a journal can't be written, or can again.
#[derive(Drop)]
pub struct JournalNews<'a> {
    pub name: &'a Printable<16>,
    pub is_failing: bool,
}

impl<'a> fmt::Display for JournalNews<'a> {
    ghost output = { λ news. Some (journal_text news) };

    fn fmt<W: fmt::Write>(&self, f: &mut fmt::Formatter<W>) -> fmt::Result {
        let name = self.name;
        if self.is_failing {
            write!(f, "journal {name} can't be written")
        } else {
            write!(f, "journal {name} is written again")
        }
    }
}

impl<'a> Line for JournalNews<'a> {
    ghost json = { journal_json };

    fn json(&self, alloc: Global) -> Result<String, AllocError> {
        let name = self.name;
        if self.is_failing {
            format!(in alloc; "{{\"journal\":\"{name}\",\"failing\":true}}")
        } else {
            format!(in alloc; "{{\"journal\":\"{name}\",\"failing\":false}}")
        }
    }
}
