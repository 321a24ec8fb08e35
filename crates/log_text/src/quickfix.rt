//! What a line of a log of QuickFIX says.

ghost use Rattle.std.specs.Prelude.{◌≡◌};
ghost use Rattle.std.specs.Option.{option_map};
ghost use Rattle.log_text.specs.Quickfix.{ReadsQuickfix, direction_between, past_digits, past_mark, quickfix_said};

use crate::fault::LineFault;
use crate::line::{HEAD_LEN, STAMP_LEN};
use fix_tags::{CompId, Stamp, read_stamp};
use message_log::Direction;

/// When a message was logged, and its bytes.
#[derive(Debug, Drop)]
pub struct QuickfixLine<'a> {
    pub stamp: Stamp,
    pub message: &'a [u8],
}

/// What stands behind the digits that a text begins with.
fn past_digits(text: &[u8]) -> &[u8]
    ensures { result.now ≡ past_digits text.now }
{
    let mut rest = text;
    while let [b'0'..=b'9', later @ ..] = rest {
        rest = later;
    }
    rest
}

/// What stands behind ` : `, if a text begins so.
fn past_mark(text: &[u8]) -> Option<&[u8]>
    ensures { option_map (λ rest. rest.now) result ≡ past_mark text.now }
{
    match text {
        [b' ', b':', b' ', rest @ ..] => Some(rest),
        _ => None,
    }
}

/// Reads a line of the log that QuickFIX's FileLog writes, `20261124-14:30:00.123456789 : 8=FIX.4.4..` with SOH as it
/// is, without its end. What is below milliseconds is passed over. Faults are tried from the line's front. It takes no
/// memory.
pub fn read_quickfix(line: &[u8]) -> Result<QuickfixLine<'_>, LineFault>
    ensures { ReadsQuickfix (quickfix_said line.now) result }
{
    if line.len() < HEAD_LEN {
        return Err(LineFault::Short);
    }
    let stamp = read_stamp(&line[..STAMP_LEN]).ok_or(LineFault::Time)?;
    let message = past_mark(past_digits(&line[STAMP_LEN..])).ok_or(LineFault::Mark)?;
    Ok(QuickfixLine { stamp, message })
}

/// Which way a message from a sender (49) to a target (56) went, as a desk of this name sees it: none where it is
/// neither from the desk nor to it.
pub fn direction_between(sender: &[u8], target: &[u8], desk: &CompId) -> Option<Direction>
    ensures { result ≡ direction_between sender.now target.now desk.now }
{
    if sender == desk.as_bytes() {
        return Some(Direction::Sent);
    }
    if target == desk.as_bytes() {
        return Some(Direction::Received);
    }
    None
}
