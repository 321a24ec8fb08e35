//! The output, which the threads of a day share.

use crate::talk_fault::TalkFault;
use json_lines::{Form, Line};
use std::alloc::{AllocError, Global};
use std::io::Write;
use std::sync::{Mutex, Wait};

/// The output behind a lock, so that each line is whole.
#[derive(Drop)]
pub struct Voice<W: Write + Drop> {
    alloc: Global,
    form: Form,
    out: Mutex<W>,
}

impl<W: Write + Drop> Voice<W> {
    /// An output on which each line is written in this form.
    pub fn new(alloc: Global, form: Form, out: W) -> Voice<W> {
        Voice {
            alloc,
            form,
            out: Mutex::new(out),
        }
    }

    /// A line with its end.
    fn text_of<T: Line>(&self, line: &T) -> Result<String, AllocError> {
        match self.form {
            Form::Words => format!(in self.alloc; "{line}\n"),
            Form::Json => {
                let mut text = line.json(self.alloc)?;
                text.push('\n')?;
                Ok(text)
            }
        }
    }

    /// Writes a line, and flushes it. It may wait for the lock.
    pub fn say<T: Line>(&self, rt: &impl Wait, line: &T) -> Result<(), TalkFault> {
        let text = self.text_of(line)?;
        let mut out = self.out.lock(rt);
        match out.write_all(text.as_bytes()) {
            Ok(()) => {}
            Err(_) => return Err(TalkFault::WriteFailed),
        }
        match out.flush() {
            Ok(()) => Ok(()),
            Err(_) => Err(TalkFault::WriteFailed),
        }
    }
}
