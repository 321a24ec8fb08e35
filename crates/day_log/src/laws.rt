//! What the noting of messages comes to: each law is the contract of a function that does nothing.

ghost use Rattle.std.specs.Prelude.{◌≡◌, ◌+◌, ◌<◌, ◌≤◌, [], ◌∷◌, ◌++◌, ℕ, List, Option, Some, IsTrue, length};
ghost use Rattle.std.specs.List.{concat};
ghost use Rattle.fix_text.specs.Tagged.{Tagged};
ghost use Rattle.fix_text.specs.Text.{fields_text, has_writable_tags, has_writable_values};
ghost use Rattle.fix_text.specs.Frame.{frame_text};
ghost use Rattle.fix_text.specs.Grammar.{IsFrame};
ghost use Rattle.day_log.specs.Messages.{AreWrites, after_hearing, after_reads, after_writes, messages_in, split, with_message};

/// A message that is written whole, by however many writes, is noted once, with all its bytes.
pub fn written_messages_are_noted()
    ensures { (message : List ℕ) (writes : List (List ℕ × List ℕ)) (noted : List (Option (List ℕ)))
        → AreWrites message writes → 0 < length message → length message ≤ 8192
        → after_writes (record { kept = Some []; noted = noted }) writes
        ≡ record { kept = Some []; noted = noted ++ Some message ∷ [] } }
{}

/// A frame that is heard, valid or not, in however many reads it came, is noted once, with all its bytes, and none of
/// what follows it is lost.
pub fn heard_frames_are_noted()
    ensures { (kept frame rest : List ℕ) (reads : List (List ℕ)) (noted : List (Option (List ℕ)))
        → IsFrame frame → kept ++ concat reads ≡ frame ++ rest → length (frame ++ rest) ≤ 16384
        → after_hearing (after_reads (record { kept = Some kept; noted = noted }) reads) (length rest)
        ≡ record { kept = Some rest; noted = noted ++ Some frame ∷ [] } }
{}

/// Whatever came in front of a message that is heard, the messages that are noted have all bytes, in order.
pub fn no_byte_is_lost()
    ensures { (bytes : List ℕ) → concat (messages_in bytes) ≡ bytes }
{}

/// Where bytes are split, each frame that is written is one message, with all its bytes, whatever follows it.
pub fn written_frames_are_split_off()
    ensures { (fields : List Tagged) (rest : List ℕ) → IsTrue (has_writable_tags fields)
        → IsTrue (has_writable_values fields) → length (fields_text fields) ≤ 4096
        → split (frame_text fields ++ rest) ≡ with_message (frame_text fields) (split rest) }
{}
