//! A buffer that frames are written to.

use case_fields::{Buffer, fields_in, lent};
use case_text::{Answers, PlayFault, words};
use fix_text::{Field, FieldSink, FrameBody, write_body, write_frame, write_frame_parts};
use std::alloc::{AllocError, Global};

/// Frames that are written behind each other.
#[derive(Drop)]
pub struct Writer {
    alloc: Global,
    buffer: Buffer,
}

/// Pushes fields to a list or to the body of a frame.
fn push_all<F: FieldSink>(alloc: Global, fields: &[Field], sink: &mut F) -> Result<(), AllocError> {
    for field in fields {
        sink.push_field(alloc, field.tag(), field.value())?;
    }
    Ok(())
}

impl Writer {
    /// No frame yet.
    pub fn new(alloc: Global) -> Writer {
        Writer {
            alloc,
            buffer: Buffer::new(alloc),
        }
    }

    fn write(&mut self, fields: &[Field], answers: &mut Answers) -> Result<(), PlayFault> {
        self.buffer.mark()?;
        let written = write_frame(fields, &mut self.buffer.out);
        self.buffer.sent(written, answers)
    }

    /// Writes the fields of three words, of which the first two are lent.
    fn write_parts(&mut self, text: &str, answers: &mut Answers) -> Result<(), PlayFault> {
        let parts = words(self.alloc, text)?;
        let [head, body, rest] = parts.as_slice() else {
            return Err(PlayFault::NotUnderstood);
        };
        let head = fields_in(self.alloc, head)?;
        let body = fields_in(self.alloc, body)?;
        let rest = fields_in(self.alloc, rest)?;
        let head = lent(self.alloc, &head)?;
        let body = lent(self.alloc, &body)?;
        self.buffer.mark()?;
        let written = write_frame_parts(&head, &body, &rest, &mut self.buffer.out);
        self.buffer.sent(written, answers)
    }

    /// Pushes fields to the body of a frame, and writes that.
    fn write_straight(&mut self, fields: &[Field], answers: &mut Answers) -> Result<(), PlayFault> {
        let mut body = FrameBody::new();
        push_all(self.alloc, fields, &mut body)?;
        self.buffer.mark()?;
        let written = write_body(&body, &mut self.buffer.out);
        self.buffer.sent(written, answers)
    }

    /// Pushes fields to a list, and writes that.
    fn write_listed(&mut self, fields: &[Field], answers: &mut Answers) -> Result<(), PlayFault> {
        let mut list: Vec<Field> = Vec::new(self.alloc);
        push_all(self.alloc, fields, &mut list)?;
        self.write(&list, answers)
    }

    pub fn command(
        &mut self,
        word: &str,
        rest: &str,
        answers: &mut Answers,
    ) -> Result<(), PlayFault> {
        match word {
            "write" => self.write(&fields_in(self.alloc, rest)?, answers),
            "write_parts" => self.write_parts(rest, answers),
            "write_straight" => self.write_straight(&fields_in(self.alloc, rest)?, answers),
            "write_listed" => self.write_listed(&fields_in(self.alloc, rest)?, answers),
            _ => self.buffer.command(word, rest, answers),
        }
    }
}
