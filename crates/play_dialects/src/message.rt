//! Messages in a dialect, as whole frames.
ghost use Rattle.std.specs.Prelude.{◌≤◌};
ghost use Rattle.dialect.specs.Writable.{IsInRange, IsWritableContent};

use crate::content_in::write_content;
use crate::content_text::content_text;
use case_text::{Answers, PlayFault, bytes_of, number, shown};
use dialect::{AnyDialect, Content, Message, OrderView, Outgoing, decode, write_message};
use fix_tags::{CompId, MAX_MESSAGE_NUMBER, SessionBody, Stamp, TextRef, read_envelope};
use fix_text::{Frame, Place};
use std::alloc::Global;

/// When each message is sent: 2024-01-02 14:30:00.000.
pub fn moment() -> Result<Stamp, PlayFault> {
    Stamp::new(2024, 1, 2, 14, 30, 0, 0).ok_or(PlayFault::NotUnderstood)
}

/// From whom to whom a message is, under which number, and how it is spelled.
#[derive(Drop)]
pub struct Header {
    pub alloc: Global,
    pub dialect: AnyDialect,
    pub from: CompId,
    pub to: CompId,
    pub number: u64,
    pub poss_dup: bool,
    ghost in_range: { (1 ≤ number) × (number ≤ 999999998) },
}

impl Header {
    /// Writes a message of the session, as its frame.
    pub fn say(&self, says: SessionBody<'_>, answers: &mut Answers) -> Result<(), PlayFault>
        requires { IsInRange says }
    {
        self.write(Content::Session(says), None, answers)
    }

    /// Writes a message that says this, as its frame.
    pub fn write(
        &self,
        content: Content<'_>,
        beside: Option<OrderView>,
        answers: &mut Answers,
    ) -> Result<(), PlayFault>
        requires { IsWritableContent beside content }
    {
        let message = Message {
            from: TextRef::new(self.from.as_bytes()),
            to: TextRef::new(self.to.as_bytes()),
            number: self.number,
            poss_dup: self.poss_dup,
            content,
        };
        let outgoing = Outgoing { message, beside };
        let frame = write_message(self.alloc, &self.dialect, &moment()?, &outgoing)?;
        answers.send_fields(&shown(self.alloc, &frame)?)
    }
}

fn firm(alloc: Global, word: &str) -> Result<CompId, PlayFault> {
    CompId::new(&bytes_of(alloc, word)?).ok_or(PlayFault::NotUnderstood)
}

/// Writes the message of these words: sender, target, number, `dup` where it may have been sent before, and what it
/// says.
pub fn write(
    alloc: Global,
    dialect: AnyDialect,
    view: Option<&OrderView>,
    words: &[&str],
    answers: &mut Answers,
) -> Result<(), PlayFault> {
    let [from, to, number_word, rest @ ..] = words else {
        return Err(PlayFault::NotUnderstood);
    };
    let (poss_dup, content) = match rest {
        ["dup", content @ ..] => (true, content),
        _ => (false, rest),
    };
    let number = number(number_word)?;
    if number < 1 || number > MAX_MESSAGE_NUMBER {
        return Err(PlayFault::NotUnderstood);
    }
    let header = Header {
        alloc,
        dialect,
        from: firm(alloc, from)?,
        to: firm(alloc, to)?,
        number,
        poss_dup,
    };
    write_content(&header, view, content, answers)
}

/// Reads the message of these fields.
pub fn answer_message(
    alloc: Global,
    dialect: AnyDialect,
    text: &str,
    answers: &mut Answers,
) -> Result<(), PlayFault> {
    let bytes = bytes_of(alloc, text)?;
    let mut places: Vec<Place> = Vec::new(alloc);
    let Ok(Some(frame)) = Frame::read(&bytes, &mut places) else {
        return Err(PlayFault::NotUnderstood);
    };
    let envelope = match read_envelope(&frame) {
        Ok(envelope) => envelope,
        Err(fault) => return answers.say(&format!(in alloc; "refused {fault}")?),
    };
    let message = decode(&dialect, &envelope);
    let from = shown(alloc, message.from.as_bytes())?;
    let to = shown(alloc, message.to.as_bytes())?;
    let number = message.number;
    let dup = if message.poss_dup { "dup " } else { "" };
    let content = content_text(alloc, &message.content)?;
    answers.say(&format!(in alloc; "{from} {to} {number} {dup}{content}")?)
}
