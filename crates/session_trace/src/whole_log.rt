//! A whole log is explained.

ghost use Rattle.std.specs.Prelude.{OnOk};
ghost use Rattle.session_trace.specs.Explained.{IsExplained, IsOfSession};

use crate::difference::{Difference, Differs};
use crate::sent_frame::{Origin, config_in, sent_frame};
use crate::shown::Shown;
use crate::trace::Trace;
use dialect::Dialect;
use fix_tags::Config;
use std::alloc::Global;

/// How many fences of a connection are tried as that of a close.
const MAX_TRIES: usize = 8;

/// The lines of a log are those of a session of this configuration which made some calls, or the first one is named
/// that isn't. Of a session that closes while it is up the number of its fence is given.
fn explain_with<D: Dialect>(
    alloc: Global,
    dialect: &D,
    config: Config,
    log: &[Shown],
    closing: Option<u64>,
) -> Result<(), Differs>
    ensures { OnOk result (IsExplained (D.wording dialect.now) config log.now) }
{
    let mut trace = Trace::new(alloc, config);
    for place in 0..log.len() {
        if let Err(why) = trace.take(dialect, &log[place], closing) {
            return Err(Differs { place, why });
        }
    }
    Ok(())
}

/// The same, of a session whose Logon at this place says its configuration.
fn explain_from<D: Dialect>(
    alloc: Global,
    dialect: &D,
    place: usize,
    logon: &[u8],
    log: &[Shown],
    closing: Option<u64>,
) -> Result<(), Differs>
    ensures { OnOk result (IsOfSession (D.wording dialect.now) log.now) }
{
    match config_in(alloc, logon) {
        Ok(Some(config)) => explain_with(alloc, dialect, config, log, closing),
        Ok(None) => Err(Differs {
            place,
            why: Difference::Nothing,
        }),
        Err(why) => Err(Differs { place, why }),
    }
}

/// Where the first frame stands that a log shows as sent, and the frame.
fn first_sent(log: &[Shown]) -> Option<(usize, &[u8])> {
    for place in 0..log.len() {
        if let Shown::Sent(frame) = &log[place] {
            return Some((place, frame.as_slice()));
        }
    }
    None
}

/// Puts the number of a fence, where the frame is one, into the list; a Logon empties it.
fn note_fence<D: Dialect>(
    alloc: Global,
    dialect: &D,
    frame: &[u8],
    fences: &mut Vec<u64>,
) -> Result<(), Difference> {
    let Some(sent) = sent_frame(alloc, dialect, frame)? else {
        return Ok(());
    };
    match sent.origin {
        Origin::Logon => fences.clear(),
        Origin::Test => fences.push(sent.number)?,
        _ => {}
    }
    Ok(())
}

/// The numbers of the fences that the last connection of these lines shows as sent.
fn fences_of<D: Dialect>(
    alloc: Global,
    dialect: &D,
    log: &[Shown],
) -> Result<Vec<u64>, Difference> {
    let mut fences = Vec::new(alloc);
    for line in log {
        if let Shown::Sent(frame) = line {
            note_fence(alloc, dialect, frame.as_slice(), &mut fences)?;
        }
    }
    Ok(fences)
}

/// The lines before a place.
fn lines_before(log: &[Shown], place: usize) -> &[Shown] {
    if place < log.len() {
        return &log[..place];
    }
    log
}

/// Some lines of a log are those of a session that asks to close while it is up: its fence is one of the last ones
/// before the line that no session writes which doesn't.
fn explain_closing<D: Dialect>(
    alloc: Global,
    dialect: &D,
    first: usize,
    logon: &[u8],
    log: &[Shown],
    differs: Differs,
) -> Result<(), Differs>
    ensures { OnOk result (IsOfSession (D.wording dialect.now) log.now) }
{
    let place = differs.place;
    let mut fences = match fences_of(alloc, dialect, lines_before(log, place)) {
        Ok(fences) => fences,
        Err(why) => return Err(Differs { place, why }),
    };
    for _ in 0..MAX_TRIES {
        let Some(fence) = fences.pop() else {
            return Err(differs);
        };
        match explain_from(alloc, dialect, first, logon, log, Some(fence)) {
            Ok(()) => return Ok(()),
            Err(later) => {
                if later.is_unknown() || later.place > place {
                    return Err(later);
                }
            }
        }
    }
    Err(differs)
}

/// The lines of a log are those of a session which made some calls, or the first one is named that isn't. Where memory
/// is refused, that is answered, and nothing is said of the log.
pub fn explain<D: Dialect>(alloc: Global, dialect: &D, log: &[Shown]) -> Result<(), Differs>
    ensures { OnOk result (IsOfSession (D.wording dialect.now) log.now) }
{
    let Some((place, logon)) = first_sent(log) else {
        return Err(Differs {
            place: log.len(),
            why: Difference::NothingSent,
        });
    };
    match explain_from(alloc, dialect, place, logon, log, None) {
        Ok(()) => Ok(()),
        Err(differs) => {
            if differs.is_unknown() {
                return Err(differs);
            }
            explain_closing(alloc, dialect, place, logon, log, differs)
        }
    }
}
