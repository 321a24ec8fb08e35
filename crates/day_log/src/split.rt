//! Messages that are told apart by CheckSum (10), with which each ends (FIX 4.4 Volume 2, "Message structure").

ghost use Rattle.std.specs.Prelude.{◌≡◌, ◌<◌, ◌≤◌, [], length, take, drop, MatchOption};
ghost use Rattle.day_log.specs.Messages.{split, with_message};

use crate::field::Field;
use crate::frame_head::is_one_frame;

/// How many bytes the first message in these has, if its end is among them.
pub(crate) fn first_end(bytes: &[u8]) -> Option<usize>
    ensures { MatchOption result (split bytes.now ≡ record { messages = []; rest = bytes.now })
        (λ count. (0 < count) × (count ≤ length bytes.now)
        × (split bytes.now ≡ with_message (take count bytes.now) (split (drop count bytes.now)))) }
{
    let mut field = Field::Empty;
    for (index, byte) in bytes.iter().enumerate() {
        if field.is_end(*byte) {
            return Some(index + 1);
        }
        field = field.after(*byte);
    }
    None
}

/// The last message in bytes that end with one.
pub(crate) fn last_message(bytes: &[u8]) -> &[u8] {
    if is_one_frame(bytes) {
        return bytes;
    }
    let mut last = bytes;
    let mut rest = bytes;
    while let Some(count) = first_end(rest) {
        let (message, behind) = rest.split_at(count);
        last = message;
        rest = behind;
    }
    if rest.is_empty() { last } else { rest }
}
