//! A reader of frames from a stream of bytes, which lends what it passes.
ghost use Rattle.std.specs.Prelude.{◌≡◌, ℕ, List, [], Some, IfOk, IfSome, IsOkUnless, OnOk, OnErr, ◌<◌, ◌≤◌, length};
ghost use Rattle.std.specs.Borrow.{sem};
ghost use Rattle.std.specs.Option.{option_map};
ghost use Rattle.fix_text.specs.Tagged.{Tagged};
ghost use Rattle.fix_text.specs.Reading.{next_read, fed, BeginsWritten};
ghost use Rattle.fix_text.specs.Placing.{AreMore};
ghost use Rattle.fix_text.specs.Passing.{most_kept};
ghost use Rattle.fix_text.specs.Deciding.{IsNext};

use crate::cursor::Cursor;
use crate::frame::Frame;
use crate::kept::Kept;
use crate::reader_fault::ReaderFault;
use std::alloc::Global;
use std::marker::Model;

/// Reads frames from bytes that come in any pieces. What is fed is kept until it is passed, and little longer; a
/// frame's room is used again for the next.
#[derive(Drop)]
pub struct FrameReader {
    kept: Kept,
    cursor: Cursor,
}

impl Model for FrameReader {
    ghost use Rattle.std.specs.Prelude.{◌≤◌, ◌<◌, ◌-◌, length, drop, vec_capacity};
    ghost use Rattle.fix_text.specs.Reading.{Stream};
    ghost use Rattle.fix_text.specs.Passing.{left_of, most_kept};
    ghost use Rattle.fix_text.specs.Waiting.{WaitsFor};

    ghost Value = { Stream };

    ghost view = { λ reader. left_of reader.kept.buffer.items reader.cursor };

    ghost invariant = { λ reader. (reader.cursor.end ≤ length reader.kept.buffer.items)
        × (length reader.kept.buffer.items ≤ most_kept (length reader.kept.buffer.items - reader.cursor.end))
        × (0 < length reader.kept.buffer.items → 64 ≤ vec_capacity reader.kept.places)
        × WaitsFor reader.cursor.waits_for (drop reader.cursor.end reader.kept.buffer.items) };
}

impl FrameReader {
    ghost use Rattle.fix_text.specs.FrameFields.{fields_in};
    ghost use Rattle.fix_text.specs.Lending.{LeavesNext, next_frame};

    /// A reader of an empty stream. It takes no memory.
    pub fn new(alloc: Global) -> FrameReader
        ensures { result ≡ record { rest = []; skipped = 0; garbled = 0 } }
    {
        FrameReader {
            kept: Kept::new(alloc),
            cursor: Cursor::new(),
        }
    }

    /// How many bytes were passed one by one, since no frame began at them; it stops at its greatest value.
    pub fn skipped(&self) -> u64
        ensures { result ≡ self.now.skipped }
    {
        self.cursor.skipped
    }

    /// How many frames were passed whole and not given, since they weren't valid; it stops at its greatest value.
    pub fn garbled(&self) -> u64
        ensures { result ≡ self.now.garbled }
    {
        self.cursor.garbled
    }

    /// How many bytes are kept: those that aren't passed, and some that are.
    pub fn kept(&self) -> usize
        ensures all { length self.now.rest ≤ result }
        ensures few { result ≤ most_kept (length self.now.rest) }
    {
        self.kept.buffer.len()
    }

    /// How many bytes aren't passed yet.
    pub fn waiting(&self) -> usize
        ensures { result ≡ length self.now.rest }
    {
        self.kept.buffer.len() - self.cursor.end
    }

    /// Adds bytes to the end of the stream. The only refusal is out of memory.
    pub fn feed(&mut self, bytes: &[u8]) -> Result<(), ReaderFault>
        ensures ok { OnOk result (self.new ≡ fed self.old bytes.now) }
        ensures err { OnErr result (self.new ≡ self.old) }
        ensures refusal { IsOkUnless result ReaderFault.OutOfMemory }
        ensures some { OnErr result (0 < length bytes.now) }
    {
        if bytes.is_empty() {
            return Ok(());
        }
        self.kept.feed(bytes).map_err(|_| ReaderFault::OutOfMemory)
    }

    /// The next valid frame, lent from what was fed, or `None` where more bytes are needed. The only refusal is want of
    /// memory for the places of such a frame's fields, if they are more than 64; it leaves the reader as it was.
    pub fn next(&mut self) -> Result<Option<Frame<'_>>, ReaderFault>
        // The reader's value is then that of `next_read`, or at `Err` the old one.
        ensures* lender { sem 𝓛 (LeavesNext self.entry result) }
        ensures fields { IfOk result (λ frame. option_map fields_in frame ≡ (next_read self.old).frame) }
        // In the words of the grammar.
        ensures next { IfOk result (λ frame. IsNext self.old (next_frame frame (next_read self.old).stream)) }
        ensures shorter { IfOk result (λ frame.
            IfSome frame (λ _. length (next_read self.old).stream.rest < length self.old.rest)) }
        // A written frame is the next one, whatever follows it.
        ensures written { (fields : List Tagged) (rest : List ℕ) → BeginsWritten self.old fields rest
            → IfOk result (λ frame. next_frame frame (next_read self.old).stream
            ≡ record { frame = Some fields; stream = record self.old { rest = rest } }) }
        ensures refusal { IsOkUnless result ReaderFault.OutOfMemory }
        // The frame would else have been given.
        ensures full { OnErr result (AreMore 64 (next_read self.old).frame) }
    {
        if self.kept.buffer.len() - self.cursor.end < self.cursor.waits_for {
            return Ok(None);
        }
        self.look()
    }

    /// Looks for the next valid frame in what is kept. It stays a call, so that `next` is short where it only waits.
    #[inline(never)]
    fn look(&mut self) -> Result<Option<Frame<'_>>, ReaderFault>
        ensures* lender { sem 𝓛 (LeavesNext self.entry result) }
        ensures fields { IfOk result (λ frame. option_map fields_in frame ≡ (next_read self.old).frame) }
        ensures refusal { IsOkUnless result ReaderFault.OutOfMemory }
        ensures full { OnErr result (AreMore 64 (next_read self.old).frame) }
    {
        let bytes = self.kept.buffer.as_slice();
        let found = self.cursor.pass(bytes, &mut self.kept.places)?;
        let found = found.let_go(&mut self.kept.buffer);
        self.cursor = found.cursor;
        match found.body {
            Some(body) => Ok(Some(self.kept.frame(body))),
            None => Ok(None),
        }
    }
}
