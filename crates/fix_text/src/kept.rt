//! What a reader keeps, of which it lends its frames.
ghost use Rattle.std.specs.Prelude.{◌≡◌, ◌+◌, ◌<◌, ◌++◌, ◌≤◌, [], OnErr, OnOk, length, vec_len, vec_capacity};
ghost use Rattle.fix_text.specs.Placing.{fields_at};
ghost use Rattle.fix_text.specs.Passing.{body_in, IsBody};

use crate::cursor::Body;
use crate::frame::Frame;
use crate::place::Place;
use std::alloc::{AllocError, Global};

/// A frame of no more fields takes no memory to be read.
pub const FREE_FIELDS: usize = 64;

/// The bytes of a stream that may still be of use, and the places of the fields of the frame that was found last.
#[derive(Drop)]
pub struct Kept {
    pub buffer: Vec<u8>,
    pub places: Vec<Place>,
}

impl Kept {
    ghost use Rattle.fix_text.specs.FrameFields.{fields_in};

    /// Nothing yet. It takes no memory.
    pub fn new(alloc: Global) -> Kept
        ensures buffer { result.buffer.items ≡ [] }
        ensures places { result.places.items ≡ [] }
    {
        Kept {
            buffer: Vec::new(alloc),
            places: Vec::new(alloc),
        }
    }

    /// Adds bytes, with room for the places of a frame's fields. Once those have their room, it is refused only where
    /// the buffer's is less than the bytes.
    pub fn feed(&mut self, bytes: &[u8]) -> Result<(), AllocError>
        ensures ok { OnOk result (self.new.buffer.items ≡ self.old.buffer.items ++ bytes.now) }
        ensures err { OnErr result (self.new.buffer.items ≡ self.old.buffer.items) }
        ensures room { OnOk result (64 ≤ vec_capacity self.new.places) }
        ensures no_less { vec_capacity self.old.places ≤ vec_capacity self.new.places }
        ensures full { 64 ≤ vec_capacity self.old.places
            → OnErr result (vec_capacity self.old.buffer < vec_len self.old.buffer + length bytes.now) }
    {
        if self.places.capacity() < FREE_FIELDS {
            self.places.reserve(FREE_FIELDS)?;
        }
        self.buffer.extend_from_slice(bytes)
    }

    /// The frame of a body and the places that are kept.
    pub fn frame(&self, body: Body) -> Frame<'_>
        requires { IsBody self.now.buffer.items body self.now.places.items }
        ensures { fields_in result ≡ fields_at (body_in self.now.buffer.items body) self.now.places.items }
    {
        let text = &self.buffer.as_slice()[body.start..body.end];
        Frame::of_places(text, self.places.as_slice())
    }
}
