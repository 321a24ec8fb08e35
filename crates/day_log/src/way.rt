//! What goes one way over a connection, and which messages of it are noted.

ghost use Rattle.std.specs.Prelude.{◌≡◌, ◌++◌, ◌∷◌, [], map};
ghost use Rattle.std.specs.Option.{option_map};
ghost use Rattle.day_log.specs.Messages.{after_end, after_hearing, after_read, after_write, front_of, last_of, message_of, messages_in, messages_of, new_way, short, split, unheard};

use crate::frame_head::{has_type, head_of, is_one_frame};
use crate::logout_text::LOGOUT;
use crate::noted::Noted;
use crate::piece::Piece;
use crate::split::first_end;
use crate::venue_log::VenueLog;
use fix_tags::Stamp;
use message_log::Direction;
use std::alloc::Global;
use std::marker::Model;
use std::sync::{Arc, Wait};

/// How many bytes a message has, at most, whose text is noted. A session takes none as long as that.
const MAX_MESSAGE: usize = 8_192;

/// What goes one way over a connection: the bytes that no message ended yet, and the messages that were noted.
#[derive(Drop)]
pub(crate) struct Way {
    piece: Piece,
    noted: Noted,
}

impl Model for Way {
    ghost use Rattle.day_log.specs.Messages.{WayParts};

    ghost Value = { WayParts };

    ghost view = { λ way. record { kept = way.piece; noted = way.noted.texts } };
}

/// Where messages are noted that went one way at some moment.
#[derive(Drop)]
pub(crate) struct Noting<'a, R: Wait> {
    pub(crate) rt: &'a R,
    pub(crate) log: &'a Arc<VenueLog, Global>,
    pub(crate) stamp: &'a Stamp,
    pub(crate) direction: Direction,
}

/// What is behind the whole frames at the front of bytes, up to a Logout. It looks at their headers alone.
fn behind_frames(bytes: &[u8]) -> &[u8] {
    let mut rest = bytes;
    while let Some(head) = head_of(rest) {
        if has_type(rest, LOGOUT) {
            break;
        }
        match rest.get(head.end..) {
            Some(behind) => rest = behind,
            None => break,
        }
    }
    rest
}

/// A message, unless it is too long to be noted with its text.
fn short(message: &[u8]) -> Option<&[u8]>
    ensures { option_map (λ text. text.now) result ≡ short message.now }
{
    if message.len() <= MAX_MESSAGE {
        Some(message)
    } else {
        None
    }
}

impl<'a, R: Wait> Noting<'a, R> {
    /// Notes a message, with its text unless it was too long.
    fn note(&self, noted: &mut Noted, text: Option<&[u8]>)
        ensures { noted.new.texts ≡ noted.old.texts ++ option_map (λ text. text.now) text.entry ∷ [] }
    {
        self.log.note(self.rt, self.stamp, self.direction, text);
        *noted = match text {
            Some(text) => noted.with(text),
            None => noted.with_long(),
        };
    }

    /// Notes a message of which all bytes, or too many, are kept.
    fn note_kept(&self, noted: &mut Noted, message: Option<&[u8]>)
        ensures { noted.new.texts ≡ noted.old.texts ++ message_of (option_map (λ text. text.now) message.entry) ∷ [] }
    {
        match message {
            Some(message) => self.note(noted, short(message)),
            None => self.note(noted, None),
        }
    }

    /// Notes each message that ends with a CheckSum (10) in these bytes, and gives what is behind the last one.
    fn note_split<'b>(&self, noted: &mut Noted, bytes: &'b [u8]) -> &'b [u8]
        ensures noted { noted.new.texts ≡ noted.old.texts ++ map short (split bytes.now).messages }
        ensures rest { result.now ≡ (split bytes.now).rest }
    {
        let mut rest = bytes;
        while let Some(count) = first_end(rest) {
            let (message, behind) = rest.split_at(count);
            self.note(noted, short(message));
            rest = behind;
        }
        rest
    }

    /// Notes the messages in bytes with whose last one a message ends.
    fn note_all(&self, noted: &mut Noted, bytes: &[u8])
        ensures { noted.new.texts ≡ noted.old.texts ++ map short (messages_in bytes.now) }
    {
        if is_one_frame(bytes) {
            self.note(noted, short(bytes));
            return;
        }
        let rest = self.note_split(noted, bytes);
        if !rest.is_empty() {
            self.note(noted, short(rest));
        }
    }

    /// Notes the messages of which all bytes, or too many, are kept.
    fn note_heard(&self, noted: &mut Noted, bytes: Option<&[u8]>)
        ensures { noted.new.texts ≡ noted.old.texts ++ messages_of (option_map (λ bytes. bytes.now) bytes.entry) }
    {
        match bytes {
            Some(bytes) => self.note_all(noted, bytes),
            None => self.note(noted, None),
        }
    }

    /// Notes the messages among the bytes that are kept, if these weren't too many.
    fn note_unheard(&self, noted: &mut Noted, bytes: Option<&[u8]>)
        ensures { noted.new.texts ≡ noted.old.texts ++ unheard (option_map (λ bytes. bytes.now) bytes.entry) }
    {
        if let Some(bytes) = bytes {
            self.note_split(noted, bytes);
        }
    }
}

impl Way {
    /// Nothing went that way.
    pub(crate) fn new() -> Way
        ensures { result ≡ new_way }
    {
        Way {
            piece: Piece::new(),
            noted: Noted::new(),
        }
    }

    /// A write took these bytes, and whether these were all that it was given: then a message ends with them. One that
    /// a single write takes is noted from where it is.
    pub(crate) fn wrote<R: Wait>(&mut self, noting: &Noting<'_, R>, taken: &[u8], is_whole: bool)
        ensures { self.new ≡ after_write self.old taken.now is_whole }
    {
        let Way { piece, noted } = self;
        if is_whole && piece.is_fresh() {
            noting.note(noted, short(taken));
            return;
        }
        piece.add(taken);
        if is_whole {
            noting.note_kept(noted, piece.front(0));
            piece.end(0);
        }
    }

    /// A read gave these bytes.
    pub(crate) fn read(&mut self, bytes: &[u8])
        ensures { self.new ≡ after_read self.old bytes.now }
    {
        self.piece.add(bytes);
    }

    /// A read gave these bytes, of which nothing is noted: what may be a Logout is kept, so that its text can be heard.
    pub(crate) fn read_unlogged(&mut self, bytes: &[u8])
        ensures { self.new.noted ≡ self.old.noted }
    {
        if self.piece.is_fresh() {
            self.piece.add(behind_frames(bytes));
        } else {
            self.piece.add(bytes);
        }
    }

    /// All bytes that no message ended yet but so many that are left, unless they were too many.
    pub(crate) fn front(&self, left: usize) -> Option<&[u8]>
        ensures { option_map (λ bytes. bytes.now) result ≡ front_of self.now.kept left }
    {
        self.piece.front(left)
    }

    /// A message ended behind which so many bytes are left, and isn't noted.
    pub(crate) fn pass(&mut self, left: usize)
        ensures { self.new ≡ record self.old { kept = last_of self.old.kept left } }
    {
        self.piece.end(left);
    }

    /// A message was heard, behind which so many bytes are left.
    pub(crate) fn heard<R: Wait>(&mut self, noting: &Noting<'_, R>, left: usize)
        ensures { self.new ≡ after_hearing self.old left }
    {
        let Way { piece, noted } = self;
        noting.note_heard(noted, piece.front(left));
        piece.end(left);
    }

    /// The connection ended.
    pub(crate) fn ended<R: Wait>(&mut self, noting: &Noting<'_, R>)
        ensures { self.new ≡ after_end self.old }
    {
        let Way { piece, noted } = self;
        noting.note_unheard(noted, piece.front(0));
        piece.end(0);
    }
}
