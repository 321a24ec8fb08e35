//! Laws of frames and streams, each as the contract of a function with nothing to do.
ghost use Rattle.std.specs.Prelude.{◌≡◌, ◌≤◌, ◌++◌, ◌⊎◌, ℕ, List, Some, length, IsTrue};
ghost use Rattle.fix_text.specs.Tagged.{Tagged};
ghost use Rattle.fix_text.specs.Text.{fields_text, has_writable_tags, has_writable_values};
ghost use Rattle.fix_text.specs.Frame.{frame_text};
ghost use Rattle.fix_text.specs.Grammar.{IsFrame, IsValidFrame, BeginsWithFrame, IsBeginning, IsNeither, Pass, Passes};
ghost use Rattle.fix_text.specs.Reading.{Stream, NextFrame, frame_at, next_read};
ghost use Rattle.fix_text.specs.Deciding.{Decides, IsNext};
ghost use Rattle.fix_text.specs.Calls.{Called, CallsLead, new_stream, bytes_fed, frames_given, AreFirst};

use crate::write::MAX_FRAME;

/// Bytes begin with a frame, or are less than one that more bytes may make whole, or neither; never two of these. The
/// reading decides which.
pub fn places_are_decided()
    ensures one { (bytes : List ℕ) → BeginsWithFrame bytes ⊎ (IsBeginning bytes ⊎ IsNeither bytes) }
    ensures apart { (bytes : List ℕ) → BeginsWithFrame bytes → IsBeginning bytes → ⊥ }
    ensures read { (bytes : List ℕ) → Decides bytes (frame_at bytes) }
{}

/// The frame at the front of a stream is determined, and so are a valid frame's fields.
pub fn frames_are_determined()
    ensures front { (a b rest more : List ℕ) → IsFrame a → IsFrame b → a ++ rest ≡ b ++ more → (a ≡ b) × (rest ≡ more) }
    ensures fields { (frame : List ℕ) (a b : List Tagged) → IsValidFrame frame a → IsValidFrame frame b → a ≡ b }
{}

/// What is written is a valid frame of the fields that were written.
pub fn written_is_valid()
    ensures { (fields : List Tagged) → IsTrue (has_writable_tags fields) → IsTrue (has_writable_values fields)
        → length (fields_text fields) ≤ 4096 → IsValidFrame (frame_text fields) fields }
{}

/// No frame that is written is longer than `MAX_FRAME`, so a buffer with that much room left takes any.
pub fn written_frames_are_short()
    ensures { (fields : List Tagged) → length (fields_text fields) ≤ 4096 → length (frame_text fields) ≤ MAX_FRAME }
{}

/// What is written is read again: a stream that begins with a written frame gives its fields first, skips nothing and
/// garbles nothing, whatever follows the frame.
pub fn written_is_read()
    ensures { (fields : List Tagged) (rest : List ℕ) (skipped garbled : ℕ)
        → IsTrue (has_writable_tags fields) → IsTrue (has_writable_values fields) → length (fields_text fields) ≤ 4096
        → next_read (record { rest = frame_text fields ++ rest; skipped = skipped; garbled = garbled })
        ≡ record { frame = Some fields; stream = record { rest = rest; skipped = skipped; garbled = garbled } } }
{}

/// A reader gives the next valid frame, and nothing else is the next.
pub fn next_is_determined()
    ensures is { (stream : Stream) → IsNext stream (next_read stream) }
    ensures only { (stream : Stream) (after : NextFrame) → IsNext stream after → next_read stream ≡ after }
{}

/// What was read of a stream stays read when more bytes come; of two readings one is the beginning of the other, and so
/// are the frames that they give.
pub fn reading_is_determined()
    ensures stays { (passes : List Pass) (bytes rest more : List ℕ) → Passes passes bytes rest →
        Passes passes (bytes ++ more) (rest ++ more) }
    ensures one { (a b : List Pass) (bytes rest left : List ℕ) → Passes a bytes rest → Passes b bytes left
        → ((more : List Pass) × (a ++ more ≡ b) × Passes more rest left)
        ⊎ ((more : List Pass) × (b ++ more ≡ a) × Passes more left rest) }
    ensures frames { (bytes : List ℕ) (a b : List (List Tagged)) (stream other : Stream) → AreFirst bytes a stream →
        AreFirst bytes b other
        → ((more : List (List Tagged)) × (a ++ more ≡ b)) ⊎ ((more : List (List Tagged)) × (b ++ more ≡ a)) }
{}

/// What calls of a new reader gave, however the bytes were cut: the frames are the first valid ones of all bytes that
/// were fed, in order, with the counts of the others. A refused call changed nothing.
pub fn read_calls()
    ensures { (calls : List Called) (stream : Stream) → CallsLead calls new_stream stream
        → AreFirst (bytes_fed calls) (frames_given calls) stream }
{}
