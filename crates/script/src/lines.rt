//! The lines of a text, with their numbers.

ghost use Rattle.std.specs.Prelude.{◌≡◌, ◌<◌, ◌∷◌, suc, length, IfSome, IfNone};
ghost use Rattle.std.specs.Option.{option_map};
ghost use Rattle.schedule.specs.Script.{lines_of};
ghost use Rattle.text_pieces.specs.Pieces.{with_first};

use memchr::memchr;
use std::marker::Model;

/// A line of a text.
#[derive(Clone, Copy)]
pub struct Line<'a> {
    /// Its number, counted from 1 over all lines.
    pub number: u64,
    /// The line without its end.
    pub text: &'a [u8],
}

/// The lines of a text that are left. Each ends with LF, which the last one may lack.
#[derive(Drop)]
pub(crate) struct Lines<'a> {
    number: u64,
    rest: &'a [u8],
}

impl<'a> Model for Lines<'a> {
    ghost use Rattle.std.specs.Prelude.{◌+◌, ◌^◌, ◌<◌, length};
    ghost use Rattle.schedule.specs.Script.{lines_of};
    ghost use Rattle.script.specs.Lines.{LinesLeft};

    ghost Value = { LinesLeft };

    ghost view = { λ l. record { number = l.number; lines = lines_of l.rest.now } };

    ghost invariant = { λ l. l.number + length l.rest.now < 2 ^ 64 };
}

/// The first line of a text that isn't empty, without its end, and what stands behind it.
#[tactic(auto, using(crate::proofs::FirstLine::line_found, crate::proofs::FirstLine::line_whole))]
pub fn first_line(text: &[u8]) -> (&[u8], &[u8])
    requires { 0 < length text.now }
    ensures lines { lines_of text.now ≡ result.0.now ∷ lines_of result.1.now }
    ensures fewer { length result.1.now < length text.now }
{
    match memchr(b'\n', text) {
        Some(at) => (&text[..at], &text[at + 1..]),
        None => (text, &[]),
    }
}

impl<'a> Lines<'a> {
    pub(crate) fn new(text: &'a [u8]) -> Lines<'a>
        ensures { result ≡ record { number = 1; lines = lines_of text.now } }
    {
        Lines {
            number: 1,
            rest: text,
        }
    }

    /// The number of the next line, or where there is none one above that of the last.
    pub(crate) fn number(&self) -> u64
        ensures { result ≡ self.now.number }
    {
        self.number
    }

    /// The next line, if there is one.
    pub(crate) fn next(&mut self) -> Option<Line<'a>>
        ensures lines { self.old.lines ≡ with_first (option_map (λ line. line.text.now) result) self.new.lines }
        ensures numbers { IfSome result (λ line. (line.number ≡ self.old.number)
            × (self.new.number ≡ suc self.old.number)) }
        ensures ended { IfNone result (self.new ≡ self.old) }
    {
        if self.rest.is_empty() {
            return None;
        }
        let number = self.number;
        let (text, rest) = first_line(self.rest);
        self.number += 1;
        self.rest = rest;
        Some(Line { number, text })
    }
}
