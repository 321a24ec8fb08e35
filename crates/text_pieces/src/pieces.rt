//! A text in pieces, parted by a byte.

ghost use Rattle.std.specs.Prelude.{◌≡◌, [], IfNone};
ghost use Rattle.std.specs.Option.{option_map};
ghost use Rattle.text_pieces.specs.Pieces.{pieces, with_first};

use memchr::memchr;
use std::marker::Model;

/// The pieces of a text that are left, one more than there are separators in it.
#[derive(Drop)]
pub struct Pieces<'a> {
    separator: u8,
    rest: Option<&'a [u8]>,
}

impl<'a> Model for Pieces<'a> {
    ghost use Rattle.std.specs.Prelude.{ℕ, List};
    ghost use Rattle.std.specs.Option.{option_map};
    ghost use Rattle.text_pieces.specs.Pieces.{pieces_left};

    ghost Value = { List (List ℕ) };

    ghost view = { λ p. pieces_left p.separator (option_map (λ rest. rest.now) p.rest) };
}

impl<'a> Pieces<'a> {
    /// Those of a text between its bytes of this value.
    pub fn new(separator: u8, text: &'a [u8]) -> Pieces<'a>
        ensures { result ≡ pieces separator text.now }
    {
        Pieces {
            separator,
            rest: Some(text),
        }
    }

    /// The next piece, if there is one.
    #[tactic(auto, using(crate::proofs::FirstPiece::piece_found, crate::proofs::FirstPiece::piece_whole))]
    pub fn next(&mut self) -> Option<&'a [u8]>
        ensures first { self.old ≡ with_first (option_map (λ piece. piece.now) result) self.new }
        ensures ended { IfNone result (self.new ≡ []) }
    {
        let text = self.rest?;
        match memchr(self.separator, text) {
            Some(at) => {
                self.rest = Some(&text[at + 1..]);
                Some(&text[..at])
            }
            None => {
                self.rest = None;
                Some(text)
            }
        }
    }
}
