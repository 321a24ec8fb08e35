//! The words of a line.

ghost use Rattle.std.specs.Prelude.{◌≡◌, ◌≤◌, [], length, IfNone};
ghost use Rattle.std.specs.Option.{option_map};
ghost use Rattle.sweep_text.specs.Words.{words_of};
ghost use Rattle.text_pieces.specs.Pieces.{with_first};

use std::marker::Model;
use text_pieces::Pieces;

/// The words of a line that are left, parted by spaces.
#[derive(Drop)]
pub(crate) struct Words<'a> {
    pieces: Pieces<'a>,
}

impl<'a> Model for Words<'a> {
    ghost use Rattle.std.specs.Prelude.{ℕ, List};
    ghost use Rattle.sweep_text.specs.Words.{non_empty};

    ghost Value = { List (List ℕ) };

    ghost view = { λ w. non_empty w.pieces };
}

impl<'a> Words<'a> {
    pub(crate) fn new(line: &'a [u8]) -> Words<'a>
        ensures { result ≡ words_of line.now }
    {
        Words {
            pieces: Pieces::new(b' ', line),
        }
    }

    /// The next word, if there is one.
    pub(crate) fn next(&mut self) -> Option<&'a [u8]>
        ensures first { self.old ≡ with_first (option_map (λ word. word.now) result) self.new }
        ensures ended { IfNone result (self.new ≡ []) }
        ensures fewer { length self.new ≤ length self.old }
    {
        while let Some(piece) = self.pieces.next() {
            if !piece.is_empty() {
                return Some(piece);
            }
        }
        None
    }
}
