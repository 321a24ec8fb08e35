//! How far a stream was passed, by a place in the bytes that are kept of it.
ghost use Rattle.std.specs.Prelude.{◌≡◌, ◌≤◌, ◌<◌, ◌-◌, ℕ, List, IfOk, IfSome, IsOkUnless, OnErr, drop, length, slice_index, vec_capacity, vec_len};
ghost use Rattle.fix_text.specs.Placing.{AreMore};
ghost use Rattle.fix_text.specs.declared.place.Place.{Place};
ghost use Rattle.fix_text.specs.Reading.{next_read};
ghost use Rattle.fix_text.specs.Waiting.{waits_after};

use crate::fields::place_valid_fields;
use crate::parse::{NoFrame, frame_at, least_length};
use crate::place::Place;
use crate::reader_fault::ReaderFault;
use memchr::memchr;

/// Fewer bytes than these, once they are of no more use, are not worth a move of the others.
const LEAST_MOVE: usize = 8_192;

/// What was passed: the place behind it, and the counts; and how many bytes must lie behind that place before another
/// look at them can find more.
#[derive(Clone, Copy)]
pub struct Cursor {
    pub end: usize,
    pub skipped: u64,
    pub garbled: u64,
    pub waits_for: usize,
}

/// Where the body of a frame lies.
#[derive(Clone, Copy)]
pub struct Body {
    pub start: usize,
    pub end: usize,
}

/// The body of the next valid frame, if it is there, and what is passed with it.
#[derive(Clone, Copy)]
pub struct Scan {
    pub body: Option<Body>,
    pub cursor: Cursor,
}

impl Cursor {
    ghost use Rattle.fix_text.specs.Passing.{IsBody, LiesWithin, found_in, left_of};

    /// Nothing yet.
    pub const fn new() -> Cursor
        ensures { result ≡ record { end = 0; skipped = 0; garbled = 0; waits_for = 0 } }
    {
        Cursor {
            end: 0,
            skipped: 0,
            garbled: 0,
            waits_for: 0,
        }
    }

    /// Passes on to the end of the next valid frame, with the places of its fields, or to where more bytes are needed.
    pub fn pass(self, bytes: &[u8], places: &mut Vec<Place>) -> Result<Scan, ReaderFault>
        requires { self.end ≤ length bytes.now }
        ensures read { IfOk result (λ found. found_in bytes.now places.new.items found.body found.cursor
            ≡ next_read (left_of bytes.now self)) }
        ensures waits { IfOk result (λ found. let next = next_read (left_of bytes.now self) in
            found.cursor.waits_for ≡ waits_after next.frame next.stream.rest) }
        ensures within { IfOk result (λ found. IfSome found.body (λ body. IsBody bytes.now body places.new.items)) }
        ensures lies { IfOk result (λ found. LiesWithin bytes.now found) }
        ensures refusal { IsOkUnless result ReaderFault.OutOfMemory }
        ensures full { OnErr result (AreMore (vec_capacity places.old) (next_read (left_of bytes.now self)).frame) }
        ensures room { vec_capacity places.old ≤ vec_capacity places.new }
    {
        let Cursor {
            end: mut at,
            mut skipped,
            mut garbled,
            waits_for: _,
        } = self;
        loop {
            match frame_at(&bytes[at..]) {
                Err(NoFrame::Short) => return Ok(Scan {
                    body: None,
                    cursor: Cursor {
                        end: at,
                        skipped,
                        garbled,
                        waits_for: least_length(&bytes[at..]),
                    },
                }),
                Err(NoFrame::Differs) => {
                    let count = junk_length(&bytes[at..]);
                    at += count;
                    skipped = skipped.saturating_add(count as u64);
                }
                Ok(frame) => {
                    let end = bytes.len() - frame.rest().len();
                    if place_valid_fields(&frame, places)? {
                        let before = at + frame.before().len();
                        let body = Body {
                            start: before - frame.body().len(),
                            end: before,
                        };
                        return Ok(Scan {
                            body: Some(body),
                            cursor: Cursor {
                                end,
                                skipped,
                                garbled,
                                waits_for: 0,
                            },
                        });
                    }
                    at = end;
                    garbled = garbled.saturating_add(1);
                }
            }
        }
    }
}

impl Scan {
    ghost use Rattle.fix_text.specs.Passing.{IsBody, LiesWithin, body_after, found_in, most_kept, useful_from};

    /// Where that begins which is still of use.
    fn useful_from(&self) -> usize
        ensures { result ≡ useful_from self.now.body self.now.cursor.end }
    {
        match self.body {
            Some(body) => body.start,
            None => self.cursor.end,
        }
    }

    /// The same in bytes that begin so many later.
    fn after(self, count: usize) -> Scan
        requires useful { count ≤ useful_from self.body self.cursor.end }
        requires ordered { IfSome self.body (λ body. body.start ≤ body.end) }
        requires passed { IfSome self.body (λ body. body.end ≤ self.cursor.end) }
        ensures { result ≡ record {
          body = body_after count self.body;
          cursor = record self.cursor { end = self.cursor.end - count };
        } }
    {
        let body = match self.body {
            Some(body) => Some(Body {
                start: body.start - count,
                end: body.end - count,
            }),
            None => None,
        };
        let end = self.cursor.end - count;
        Scan {
            body,
            cursor: Cursor { end, ..self.cursor },
        }
    }

    /// Lets go of the bytes that are of no more use, where they are many, and no fewer than those behind them: so no
    /// more bytes move than are let go.
    pub fn let_go(self, buffer: &mut Vec<u8>) -> Scan
        requires { LiesWithin buffer.old.items self }
        ensures same { (places : List Place) →
            found_in buffer.new.items places result.body result.cursor
            ≡ found_in buffer.old.items places self.body self.cursor }
        ensures body { (places : List Place) → IfSome self.body (λ body. IsBody buffer.old.items body places)
            → IfSome result.body (λ body. IsBody buffer.new.items body places) }
        ensures waits { result.cursor.waits_for ≡ self.cursor.waits_for }
        ensures end { result.cursor.end ≤ length buffer.new.items }
        ensures few { length buffer.new.items ≤ most_kept (length buffer.new.items - result.cursor.end) }
        ensures no_more { length buffer.new.items ≤ length buffer.old.items }
    {
        let count = self.useful_from();
        if count < LEAST_MOVE || count < buffer.len() - count {
            return self;
        }
        drop_front(buffer, count);
        self.after(count)
    }
}

fn drop_front(buffer: &mut Vec<u8>, count: usize)
    requires { count ≤ vec_len buffer.old }
    ensures { buffer.new.items ≡ drop count buffer.old.items }
{
    let left = buffer.len() - count;
    buffer.copy_within(count.., 0);
    buffer.truncate(left);
}

/// How many bytes are passed alone where no frame begins: the first, and what stands between it and the next `8`. It
/// stays a call, since it isn't on the way of a frame.
#[inline(never)]
fn junk_length(bytes: &[u8]) -> usize
    requires { 0 < length bytes.now }
    ensures some { 0 < result }
    ensures within { result ≤ length bytes.now }
    ensures junk { (k : ℕ) → 0 < k → k < result → slice_index bytes.now k ≡ 56 → ⊥ }
{
    match memchr(b'8', &bytes[1..]) {
        Some(count) => count + 1,
        None => bytes.len(),
    }
}
