//! How long a file has to be.

ghost use Rattle.std.specs.Prelude.{◌≡◌, map};
ghost use Rattle.journal_folder.specs.Room.{room_for};

use journal_record::BESIDE_LINE;

/// How many bytes a file takes that has room for its head and these lines, and is at least so long.
pub(crate) fn room_for(least: usize, head: &[u8], lines: &[Vec<u8>]) -> usize
    ensures { result ≡ room_for least head.now (map (λ line. line.items) lines.now) }
{
    let mut bytes = head.len().saturating_add(BESIDE_LINE);
    for line in lines {
        bytes = bytes.saturating_add(line.len().saturating_add(BESIDE_LINE));
    }
    bytes.max(least)
}
