//! What is written is read back: the law is the contract of a function that does nothing.

ghost use Rattle.std.specs.Prelude.{◌≡◌, ◌∷◌, ◌++◌, [], ℕ, List, Ok};
ghost use Rattle.message_log.specs.Line.{line_text};
ghost use Rattle.log_text.specs.Line.{line_said};

use fix_tags::Stamp;
use message_log::Direction;

/// A line that was logged, without its end, says the time, the direction and the message that it was logged for.
pub fn logged_lines_read_back(stamp: &Stamp, direction: Direction, message: &[u8])
    ensures { (line : List ℕ) → line ++ 10 ∷ [] ≡ line_text stamp.now direction message.now →
        line_said line ≡ Ok (record { stamp = stamp.now; direction = direction; message = message.now }) }
{
    let _year = stamp.year();
}
