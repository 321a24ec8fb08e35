//! The log of the lines that a desk took.

ghost use Rattle.std.specs.Prelude.{◌≡◌, Some, IfOk, IfSome, string_bytes};
ghost use Rattle.day_log.specs.By.{by_text};

use crate::venue_log::VenueLog;
use clock::Clock;
use message_log::Direction;
use std::alloc::{AllocError, Global};
use std::fmt;
use std::fmt::Display;
use std::sync::{Arc, Wait};

/// The log of the lines that a desk took and of what it answered, if one is kept: `>` stands before a line, `<` before
/// its answer.
#[derive(Drop)]
pub struct LineLog<'a, R: Wait, C: Clock + Drop> {
    rt: &'a R,
    alloc: Global,
    clock: C,
    log: Option<Arc<VenueLog, Global>>,
    /// Who hands the lines in, if that is known.
    by: Option<&'a str>,
}

/// What a user did.
#[derive(Drop)]
struct By<'a> {
    what: &'a str,
    user: &'a str,
}

impl<'a> fmt::Display for By<'a> {
    ghost output = { λ by. Some (by_text by.what.now by.user.now) };

    fn fmt<W: fmt::Write>(&self, f: &mut fmt::Formatter<W>) -> fmt::Result {
        let (what, user) = (self.what, self.user);
        write!(f, "{what}by {user}")
    }
}

/// The text of what is written in words.
fn text_of<T: Display>(alloc: Global, words: &T) -> Result<String, AllocError>
    ensures { IfOk result (λ text. IfSome (T.output words.now) (λ said. string_bytes text ≡ said)) }
{
    let mut text = String::new(alloc);
    write!(text, "{words}")?;
    Ok(text)
}

impl<'a, R: Wait, C: Clock + Drop> LineLog<'a, R, C> {
    /// No line was taken yet.
    pub fn new(
        rt: &'a R,
        alloc: Global,
        clock: C,
        log: Option<Arc<VenueLog, Global>>,
    ) -> LineLog<'a, R, C> {
        LineLog {
            rt,
            alloc,
            clock,
            log,
            by: None,
        }
    }

    /// From now on the user of this name hands the lines in, or nobody that is known.
    pub fn speak_for(&mut self, user: Option<&'a str>) {
        self.by = user;
    }

    /// Notes a remark.
    fn remark<T: Display>(&mut self, words: &T) {
        if let Some(log) = &self.log {
            let stamp = self.clock.now();
            match text_of(self.alloc, words) {
                Ok(text) => log.remark(self.rt, &stamp, text.as_bytes()),
                Err(_) => log.note(self.rt, &stamp, Direction::Sent, None),
            }
        }
    }

    /// The user has the day closed, where one is known.
    pub fn closed(&mut self) {
        if let Some(user) = self.by {
            self.remark(&By {
                what: "close ",
                user,
            });
        }
    }

    /// A line was taken, without its end: who handed it in stands before it, where that is known.
    pub fn taken(&mut self, line: &[u8]) {
        if let Some(user) = self.by {
            self.remark(&By { what: "", user });
        }
        if let Some(log) = &self.log {
            let stamp = self.clock.now();
            log.note(self.rt, &stamp, Direction::Sent, Some(line));
        }
    }

    /// It was answered, in one line without its end.
    pub fn answered<T: Display>(&mut self, answer: &T) {
        if let Some(log) = &self.log {
            let stamp = self.clock.now();
            match text_of(self.alloc, answer) {
                Ok(text) => {
                    log.note(self.rt, &stamp, Direction::Received, Some(text.as_bytes()));
                }
                Err(_) => log.note(self.rt, &stamp, Direction::Received, None),
            }
        }
    }
}
