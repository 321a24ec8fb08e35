//! What is told to who follows the day.

ghost use Rattle.std.specs.Prelude.{◌≡◌, ◌++◌, IfOk, codes, string_bytes};
ghost use Rattle.desk_json.specs.Event.{audit_json, event_text};

use crate::executions_written::execution_json;
use crate::outcome::{closing_json, refusal_json};
use crate::quoted::quoted;
use crate::standing::VenueRow;
use crate::sweeps_written::{day_json, sweep_json};
use crate::venues_written::venue_json;
use desk_answers::Refusal;
use desk_executions::Execution;
use desk_news::{DayTotals, PaidSweep, Told};
use std::alloc::{AllocError, Global};

/// How the audit of a day ended.
#[derive(Debug, PartialEq, Eq, Drop)]
pub enum Audit {
    /// It found nothing wrong.
    Whole,
    /// What it found.
    Failed(Told),
}

/// A change of the day.
#[derive(Debug, Drop)]
pub enum Event {
    /// The parts of a sweep changed, or what was paid for it.
    Sweep(PaidSweep),
    /// An exchange said something of an order.
    Execution(Execution),
    /// A venue stands otherwise than before.
    Venue(VenueRow),
    /// A sweep was refused, whoever handed it in.
    Refused(Refusal),
    /// A sweep was refused, since the day is closing.
    RefusedAtClose,
    /// The sums of the day changed.
    Day(DayTotals),
    /// The day is closed: nothing comes behind it.
    Closed(Audit),
}

/// How an audit ended, as `{"audit":"ok"}`.
fn audit_json(alloc: Global, audit: &Audit) -> Result<String, AllocError>
    ensures { IfOk result (λ text. string_bytes text ≡ audit_json audit.now) }
{
    match audit {
        Audit::Whole => String::from_str(alloc, "{\"audit\":\"ok\"}"),
        Audit::Failed(found) => {
            let found = quoted(alloc, found.as_str())?;
            format!(in alloc; "{{\"audit\":{found}}}")
        }
    }
}

/// An event with its JSON, as a stream of events tells it: `event: day`, `data: {"placed":300,..}` and an empty line.
/// That of an execution has the execution's number as its id. The only refusal is out of memory.
pub fn event_text(alloc: Global, event: &Event) -> Result<String, AllocError>
    ensures { IfOk result (λ text. string_bytes text ≡ event_text event.now) }
{
    match event {
        Event::Sweep(parts) => {
            let json = sweep_json(alloc, parts)?;
            format!(in alloc; "event: sweep\ndata: {json}\n\n")
        }
        Event::Execution(execution) => {
            let number = execution.number;
            let json = execution_json(alloc, execution)?;
            format!(in alloc; "id: {number}\nevent: execution\ndata: {json}\n\n")
        }
        Event::Venue(venue) => {
            let json = venue_json(alloc, venue)?;
            format!(in alloc; "event: venue\ndata: {json}\n\n")
        }
        Event::Refused(refusal) => {
            let json = refusal_json(alloc, refusal)?;
            format!(in alloc; "event: refused\ndata: {json}\n\n")
        }
        Event::RefusedAtClose => {
            let json = closing_json(alloc)?;
            format!(in alloc; "event: refused\ndata: {json}\n\n")
        }
        Event::Day(day) => {
            let json = day_json(alloc, day)?;
            format!(in alloc; "event: day\ndata: {json}\n\n")
        }
        Event::Closed(audit) => {
            let json = audit_json(alloc, audit)?;
            format!(in alloc; "event: closed\ndata: {json}\n\n")
        }
    }
}
