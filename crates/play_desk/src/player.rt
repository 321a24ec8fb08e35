//! The desk and the book of a case.

use crate::sweep_text::sweep_of;
use crate::{book_calls, desk_calls, history};
use case_text::{Answers, PlayFault, Player, words};
use share_ledger::Book;
use std::alloc::Global;
use sweep_release::{Desk, place};

/// The desk and the book of a case, if it has them.
#[derive(Drop)]
pub struct DeskPlayer {
    alloc: Global,
    desk: Option<Desk>,
    book: Option<Book>,
}

impl DeskPlayer {
    /// Neither of them.
    pub fn new(alloc: Global) -> DeskPlayer {
        DeskPlayer {
            alloc,
            desk: None,
            book: None,
        }
    }

    fn desk(&mut self) -> Result<&mut Desk, PlayFault> {
        self.desk.as_mut().ok_or(PlayFault::NotUnderstood)
    }

    fn book(&mut self) -> Result<&mut Book, PlayFault> {
        self.book.as_mut().ok_or(PlayFault::NotUnderstood)
    }

    /// A release of the sweep of this text at the desk, or whether it would be refused.
    fn release(
        &mut self,
        text: &str,
        is_made: bool,
        answers: &mut Answers,
    ) -> Result<(), PlayFault> {
        let alloc = self.alloc;
        let sweep = sweep_of(alloc, text)?;
        let desk = self.desk()?;
        if is_made {
            desk_calls::tell_receipt(alloc, desk.release(sweep), answers)
        } else {
            desk_calls::ready(alloc, desk, &sweep, answers)
        }
    }

    /// The sweep of this text is placed at the desk and in the book, together or not at all.
    fn place(&mut self, text: &str, answers: &mut Answers) -> Result<(), PlayFault> {
        let sweep = sweep_of(self.alloc, text)?;
        match (&mut self.desk, &mut self.book) {
            (Some(desk), Some(book)) => {
                desk_calls::tell_receipt(self.alloc, place(desk, book, sweep), answers)
            }
            _ => Err(PlayFault::NotUnderstood),
        }
    }

    fn open(&mut self, text: &str, answers: &mut Answers) -> Result<(), PlayFault> {
        let alloc = self.alloc;
        book_calls::open(alloc, self.book()?, text, answers)
    }

    /// A command that isn't of a sweep.
    fn command_of(&mut self, words: &[&str], answers: &mut Answers) -> Result<(), PlayFault> {
        let alloc = self.alloc;
        match words {
            ["desk", venues] => {
                self.desk = Some(desk_calls::new_desk(alloc, venues)?);
                Ok(())
            }
            ["book", venues] => {
                self.book = Some(book_calls::new_book(alloc, venues)?);
                Ok(())
            }
            ["history", "desk"] => history::tell_desk(alloc, self.desk()?, answers),
            ["history", "book"] => history::tell_book(alloc, self.book()?, answers),
            [
                "venue" | "withdraw" | "totals" | "resolved" | "leg" | "number",
                ..
            ] => { book_calls::call(alloc, self.book()?, words, answers) }
            _ => desk_calls::call(alloc, self.desk()?, words, answers),
        }
    }
}

impl Player for DeskPlayer {
    fn begin(&mut self) -> Result<(), PlayFault> {
        *self = DeskPlayer::new(self.alloc);
        Ok(())
    }

    fn command(&mut self, line: &str, answers: &mut Answers) -> Result<(), PlayFault> {
        let (verb, rest) = line.split_once(' ').unwrap_or((line, ""));
        match verb {
            "release" => self.release(rest, true, answers),
            "ready" => self.release(rest, false, answers),
            "place" => self.place(rest, answers),
            "open" => self.open(rest, answers),
            _ => {
                let words = words(self.alloc, line)?;
                self.command_of(&words, answers)
            }
        }
    }
}
