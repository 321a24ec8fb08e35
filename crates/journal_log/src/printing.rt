//! The log of a journal is printed.

ghost use Rattle.std.specs.Prelude.{◌≡◌, MatchResult, map};
ghost use Rattle.session_core.specs.Session.{new_session};
ghost use Rattle.journal_log.specs.Head.{log_head, wording_of};
ghost use Rattle.journal_log.specs.Logged.{PrintsLog, StopsWith};

use crate::fault::LogFault;
use crate::logged_session::LoggedSession;
use crate::venue_head::VenueHead;
use command_line::print;
use dialect::Dialect;
use fix_tags::Config;
use journal_words::WordsFault;
use std::alloc::Global;
use std::io::Write;

/// How many bytes of a log wait before they are written.
const MOST_WAITING: usize = 65_536;

/// Prints a text, and behind it what the lines of a venue's journal come to. Where a line can't be read the log ends
/// before it.
fn print_lines<D: Dialect, W: Write>(
    alloc: Global,
    dialect: &D,
    config: Config,
    head: &[u8],
    lines: &[Vec<u8>],
    out: &mut W,
) -> Result<(), LogFault>
    ensures { MatchResult result
        (λ _. PrintsLog (D.wording dialect.now) (new_session config) head.now (map (λ line. line.items) lines.now)
        (W.contents out.old) (W.contents out.new))
        (StopsWith (D.wording dialect.now) (new_session config) head.now (map (λ line. line.items) lines.now)
        (W.contents out.old) (W.contents out.new)) }
{
    let mut session = LoggedSession::new(alloc, config);
    let mut log = Vec::new(alloc);
    log.extend_from_slice(head)?;
    let mut number = 0;
    for line in lines {
        number += 1;
        match session.log_line(dialect, line.as_slice(), &mut log) {
            Ok(()) => {}
            Err(why) => match why {
                WordsFault::OutOfMemory => return Err(LogFault::OutOfMemory),
                _ => {
                    print(&log, out)?;
                    return Err(LogFault::Line { number, why });
                }
            },
        }
        if log.len() > MOST_WAITING {
            print(&log, out)?;
            log.clear();
        }
    }
    print(&log, out)?;
    Ok(())
}

/// Prints the log of a venue's journal that has this head and these lines. Where a line can't be read the log ends
/// before it.
pub fn print_log<W: Write>(
    alloc: Global,
    head: VenueHead,
    lines: &[Vec<u8>],
    out: &mut W,
) -> Result<(), LogFault>
    ensures { MatchResult result
        (λ _. PrintsLog (wording_of head.words) (new_session head.config) (log_head head)
        (map (λ line. line.items) lines.now) (W.contents out.old) (W.contents out.new))
        (StopsWith (wording_of head.words) (new_session head.config) (log_head head)
        (map (λ line. line.items) lines.now) (W.contents out.old) (W.contents out.new)) }
{
    let text = head.log_head(alloc)?;
    let dialect = head.words.dialect();
    print_lines(alloc, &dialect, head.config, &text, lines, out)
}
