//! The stream of events.

ghost use Rattle.std.specs.Prelude.{◌≡◌};
ghost use Rattle.desk_http.specs.Following.{after_of};

use crate::reply::{SAFE_HEAD, connection_field, run_field};
use crate::run::Run;
use desk_json::{Event, event_text};
use fix_tags::read_number;
use std::alloc::{AllocError, Global};

/// What is sent where nothing changed for a second, so that a client that is gone is found.
pub const STILL_HERE: &str = ": still here\n\n";

/// Appends the member of a name, where there is one.
fn append_member(key: &str, name: &String, text: &mut String) -> Result<(), AllocError> {
    if !name.is_empty() {
        write!(text, ",\"{key}\":\"{name}\"")?;
    }
    Ok(())
}

/// The head of a stream, and its first event, which says which run tells it. The only refusal is out of memory.
pub fn stream_head(alloc: Global, run: &Run) -> Result<String, AllocError> {
    let (field, id) = (run_field(alloc, run)?, run.id.as_str());
    let mut text = format!(in alloc;
        "HTTP/1.1 200 OK\r\nContent-Type: text/event-stream\r\n{field}"
    )?;
    text.push_str(SAFE_HEAD)?;
    text.push_str(connection_field(false))?;
    write!(&mut text, "event: run\ndata: {{\"run\":\"{id}\"")?;
    append_member("desk", &run.desk, &mut text)?;
    append_member("environment", &run.environment, &mut text)?;
    text.push_str("}\n\n")?;
    Ok(text)
}

/// The text of events, in their order. The only refusal is out of memory.
pub fn events_text(alloc: Global, events: &[Event]) -> Result<String, AllocError> {
    let mut text = String::new(alloc);
    for event in events {
        let one = event_text(alloc, event)?;
        text.push_str(one.as_str())?;
    }
    Ok(text)
}

/// Behind which execution a client goes on, by the Last-Event-ID that it sends: one that is no number goes on behind
/// none, so that no execution is missed. None where it sends no such field.
pub(crate) fn after_of(last_event_id: &[u8]) -> Option<u64>
    ensures { result ≡ after_of last_event_id.now }
{
    if last_event_id.is_empty() {
        return None;
    }
    Some(read_number(last_event_id).unwrap_or(0))
}
