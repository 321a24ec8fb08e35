//! How many executions a log tells.
ghost use Rattle.std.specs.Prelude.{◌≡◌, Some, IfOk};
ghost use Rattle.day_check.specs.ExecutionText.{counted, counted_answer, counted_untaken, counts_line, counts_text, no_executions, untaken_counts};

use crate::finding::{number, text};
use crate::json::json_line;
use desk_executions::Untaken;
use std::alloc::{AllocError, Global};
use std::fmt;

/// How many executions a log tells, and how many of them the desk's book doesn't take, by the reason. The counts stop
/// at the greatest number of 64 bits.
#[derive(Clone, Copy, Debug, PartialEq, Eq)]
pub struct ExecutionCounts {
    pub all: u64,
    pub duplicates: u64,
    pub overfills: u64,
    pub strays: u64,
    /// How many can't be read.
    pub unread: u64,
}

impl ExecutionCounts {
    /// Before any execution.
    pub(crate) fn new() -> ExecutionCounts
        ensures { result ≡ no_executions }
    {
        ExecutionCounts {
            all: 0,
            duplicates: 0,
            overfills: 0,
            strays: 0,
            unread: 0,
        }
    }

    fn with_untaken(self, untaken: Option<Untaken>) -> ExecutionCounts
        ensures { result ≡ counted_untaken untaken self }
    {
        match untaken {
            None => self,
            Some(Untaken::Duplicate) => ExecutionCounts {
                duplicates: self.duplicates.saturating_add(1),
                ..self
            },
            Some(Untaken::Overfill) => ExecutionCounts {
                overfills: self.overfills.saturating_add(1),
                ..self
            },
            Some(Untaken::Stray) => ExecutionCounts {
                strays: self.strays.saturating_add(1),
                ..self
            },
            Some(Untaken::Unread) => ExecutionCounts {
                unread: self.unread.saturating_add(1),
                ..self
            },
        }
    }

    /// With one more, which the book doesn't take for this reason, or takes.
    fn with(self, untaken: Option<Untaken>) -> ExecutionCounts
        ensures { result ≡ counted untaken self }
    {
        let more = ExecutionCounts {
            all: self.all.saturating_add(1),
            ..self
        };
        more.with_untaken(untaken)
    }

    /// With the execution of a line, if it tells one, to which the book gives this answer.
    pub(crate) fn with_answer(self, answer: Option<Option<Untaken>>) -> ExecutionCounts
        ensures { result ≡ counted_answer answer self }
    {
        match answer {
            Some(untaken) => self.with(untaken),
            None => self,
        }
    }
}

/// How many executions the book doesn't take, by the reason.
#[derive(Drop)]
struct UntakenCounts(ExecutionCounts);

impl fmt::Display for UntakenCounts {
    ghost output = { λ counts. Some (untaken_counts counts.0) };

    #[tactic(auto, unfolding(crate::specs::ExecutionText::untaken_counts))]
    fn fmt<W: fmt::Write>(&self, f: &mut fmt::Formatter<W>) -> fmt::Result {
        let ExecutionCounts {
            duplicates,
            overfills,
            strays,
            unread,
            ..
        } = self.0;
        write!(
            f,
            " duplicate {duplicates} overfill {overfills} stray {strays} unread {unread}"
        )
    }
}

impl fmt::Display for ExecutionCounts {
    ghost output = { λ counts. Some (counts_text counts) };

    fn fmt<W: fmt::Write>(&self, f: &mut fmt::Formatter<W>) -> fmt::Result {
        let all = self.all;
        let untaken = UntakenCounts(*self);
        write!(f, "executions {all}{untaken}")
    }
}

/// The line of the counts.
pub(crate) fn counts_line(alloc: Global, counts: ExecutionCounts) -> Result<Vec<u8>, AllocError>
    ensures { IfOk result (λ text. text.items ≡ counts_line counts) }
{
    Ok(format!(in alloc; "{counts}\n")?.into_bytes())
}

/// The counts as an object of JSON, in a line.
pub(crate) fn counts_json(
    alloc: Global,
    log: &str,
    counts: ExecutionCounts,
) -> Result<Vec<u8>, AllocError> {
    let members = [
        text("log", log),
        number("executions", counts.all),
        number("duplicate", counts.duplicates),
        number("overfill", counts.overfills),
        number("stray", counts.strays),
        number("unread", counts.unread),
    ];
    json_line(alloc, &members)
}
