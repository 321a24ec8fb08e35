//! What a call of a session answers.
ghost use Rattle.std.specs.Prelude.{◌≡◌, map};

use crate::ended::Ended;
use dialect::Note;
use leg::LegId;
use std::marker::Model;

/// The frames that a call wrote, in order, each as its bytes.
#[derive(Debug, Drop)]
pub struct Frames {
    in_order: Vec<Vec<u8>>,
}

impl Model for Frames {
    ghost use Rattle.std.specs.Prelude.{ℕ, List, map};

    ghost Value = { List (List ℕ) };

    ghost view = { λ frames. map (λ frame. frame.items) frames.in_order.items };
}

impl Frames {
    /// The frames of a list, whose memory they keep.
    pub fn new(in_order: Vec<Vec<u8>>) -> Frames
        ensures { result ≡ map (λ frame. frame.items) in_order.items }
    {
        Frames { in_order }
    }

    /// The list again, in the memory that it came with.
    pub fn into_vec(self) -> Vec<Vec<u8>>
        ensures { map (λ frame. frame.items) result.items ≡ self }
    {
        self.in_order
    }
}

/// The legs that a call withdrew, in the order of the numbers under which they were sent.
#[derive(Debug, Drop)]
pub struct LegIds {
    in_order: Vec<LegId>,
}

impl Model for LegIds {
    ghost use Rattle.std.specs.Prelude.{List};
    ghost use Rattle.leg.specs.LegId.{LegIdParts};

    ghost Value = { List LegIdParts };

    ghost view = { λ ids. ids.in_order.items };
}

impl LegIds {
    /// The legs of a list, whose memory they keep.
    pub fn new(in_order: Vec<LegId>) -> LegIds
        ensures { result ≡ in_order.items }
    {
        LegIds { in_order }
    }

    /// The list again, in the memory that it came with.
    pub fn into_vec(self) -> Vec<LegId>
        ensures { result.items ≡ self }
    {
        self.in_order
    }
}

/// What a call of a session answers.
#[derive(Debug, Drop)]
pub struct Step {
    /// The frames written.
    pub out: Frames,
    /// A note for the book, which is to be confirmed once it is taken.
    pub note: Option<Note>,
    /// The legs that are now withdrawn.
    pub withdrawn: LegIds,
    /// Why the connection ended, if it did.
    pub ended: Option<Ended>,
}
