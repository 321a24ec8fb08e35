//! The body of a frame that is being written.
ghost use Rattle.std.specs.Prelude.{◌≡◌, ◌≤◌, [], ◌++◌, ◌∷◌, Some, decimal, length, IfSome};
ghost use Rattle.std.specs.Option.{option_map, option_and_then};
ghost use Rattle.fix_text.specs.Sink.{if_short};

use crate::sink::FieldSink;
use crate::tag_text::tag_text;
use arrayvec::ArrayVec;
use itoa::Buffer;
use std::alloc::{AllocError, Global};
use std::marker::Model;

const SOH: u8 = 1;

/// The most bytes of a body that is written straight into its frame.
pub const MAX_STRAIGHT: usize = 1_152;

/// The text of the fields that were pushed, as long as it is at most 1,152 bytes. It takes no memory.
#[derive(Debug, Drop)]
pub struct FrameBody {
    text: ArrayVec<u8, MAX_STRAIGHT>,
    is_too_long: bool,
}

impl Model for FrameBody {
    ghost use Rattle.std.specs.Prelude.{ℕ, List, Option, Some, None, if◌then◌else◌};

    ghost Value = { Option (List ℕ) };

    ghost view = { λ body. if body.is_too_long then None else Some body.text.items };
}

impl FrameBody {
    /// The body of no fields.
    pub fn new() -> FrameBody
        ensures { result ≡ Some [] }
    {
        FrameBody {
            text: ArrayVec::new(),
            is_too_long: false,
        }
    }

    /// The text of the fields, or none where they take more than 1,152 bytes.
    pub(crate) fn text(&self) -> Option<&[u8]>
        ensures value { option_map (λ text. text.now) result ≡ self.now }
        ensures short { IfSome result (λ text. length text.now ≤ 1152) }
    {
        if self.is_too_long {
            return None;
        }
        Some(self.text.as_slice())
    }

    fn push_text(&mut self, text: &[u8])
        ensures { self.new ≡ option_and_then (λ before. if_short (before ++ text.now)) self.old }
    {
        if self.text.try_extend_from_slice(text).is_err() {
            self.is_too_long = true;
        }
    }

    /// A tag, up to the `=` behind it.
    fn push_tag(&mut self, tag: u32)
        ensures { self.new ≡ option_and_then (λ before. if_short (before ++ decimal tag ++ 61 ∷ [])) self.old }
    {
        match tag_text(tag) {
            Some(text) => self.push_text(text),
            None => {
                let mut digits = Buffer::new();
                self.push_text(digits.format(tag).as_bytes());
                self.push_text(b"=");
            }
        }
    }
}

impl FieldSink for FrameBody {
    ghost use Rattle.fix_text.specs.Sink.{TakesFields};
    ghost use Rattle.fix_text.specs.Lemmas.SinkLaws.{body_takes_short, body_takes_none, body_takes_more};

    ghost Takes = { TakesFields };

    // A push wants no memory, so none is ever refused: the room is that of more fields than a message has.
    ghost short = { 1152 };

    ghost room = { λ _. 1152 };

    fn push_field(&mut self, _alloc: Global, tag: u32, value: &[u8]) -> Result<(), AllocError> {
        self.push_tag(tag);
        self.push_text(value);
        self.push_text(&[SOH]);
        Ok(())
    }

    ghost takes_short = { body_takes_short };

    ghost takes_none = { body_takes_none };

    ghost takes_more = { body_takes_more };
}
