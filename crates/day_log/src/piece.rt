//! What no message ended yet.

ghost use Rattle.std.specs.Prelude.{◌≡◌, ◌≤◌, Some, [], drop, length};
ghost use Rattle.std.specs.Option.{option_map};
ghost use Rattle.day_log.specs.Messages.{front_of, is_fresh, kept_with, last_of};

use arrayvec::ArrayVec;
use std::marker::Model;

/// How many bytes are kept, at most: a read, and the longest message that a session takes, have less.
const ROOM: usize = 16_384;

/// The bytes that went one way over a connection and that no message ended yet, as long as there is room for them.
#[derive(Drop)]
pub(crate) struct Piece {
    bytes: ArrayVec<u8, ROOM>,
    /// How many of the bytes belong to messages that have ended.
    ended: usize,
    is_too_long: bool,
}

impl Model for Piece {
    ghost use Rattle.std.specs.Prelude.{ℕ, List, Option, Some, None, ◌≤◌, length, drop, if◌then◌else◌};

    ghost Value = { Option (List ℕ) };

    ghost view = { λ piece. if piece.is_too_long then None else Some (drop piece.ended piece.bytes.items) };

    ghost invariant = { λ piece. piece.ended ≤ length piece.bytes.items };
}

/// Lets the first of some bytes go.
fn let_go(bytes: &mut ArrayVec<u8, ROOM>, count: usize)
    requires { count ≤ length bytes.old.items }
    ensures { bytes.new.items ≡ drop count bytes.old.items }
{
    let left = bytes.len() - count;
    bytes.as_mut_slice().copy_within(count.., 0);
    bytes.truncate(left);
}

impl Piece {
    /// Nothing is kept.
    pub(crate) fn new() -> Piece
        ensures { result ≡ Some [] }
    {
        Piece {
            bytes: ArrayVec::new(),
            ended: 0,
            is_too_long: false,
        }
    }

    /// Whether nothing is kept, and nothing was that there was no room for.
    pub(crate) fn is_fresh(&self) -> bool
        ensures { result ≡ is_fresh self.now }
    {
        !self.is_too_long && self.ended == self.bytes.len()
    }

    /// Keeps more bytes.
    pub(crate) fn add(&mut self, bytes: &[u8])
        ensures { self.new ≡ kept_with self.old bytes.now }
    {
        if self.ended > 0 {
            let_go(&mut self.bytes, self.ended);
            self.ended = 0;
        }
        if self.bytes.try_extend_from_slice(bytes).is_err() {
            self.is_too_long = true;
        }
    }

    /// All of the bytes but so many that are left, unless they were too many.
    pub(crate) fn front(&self, left: usize) -> Option<&[u8]>
        ensures { option_map (λ bytes. bytes.now) result ≡ front_of self.now left }
    {
        if self.is_too_long {
            return None;
        }
        let kept = &self.bytes.as_slice()[self.ended..];
        Some(&kept[..kept.len().saturating_sub(left)])
    }

    /// A message ended behind which so many bytes are left.
    pub(crate) fn end(&mut self, left: usize)
        ensures { self.new ≡ last_of self.old left }
    {
        let kept = self.bytes.len() - self.ended;
        self.ended += kept.saturating_sub(left);
        if left == 0 {
            self.bytes.clear();
            self.ended = 0;
            self.is_too_long = false;
        }
    }
}
