//! What is answered to a command.
ghost use Rattle.std.specs.Prelude.{◌≡◌, ◌++◌, [], ◌∷◌, codes, string_bytes, OnOk};

use crate::fault::PlayFault;
use crate::frame::fields_of;
use std::alloc::{AllocError, Global};

/// The answers to a command, each a line.
#[derive(Debug, Drop)]
pub struct Answers {
    alloc: Global,
    text: String,
}

impl Answers {
    /// No answer yet. It takes no memory.
    pub fn new(alloc: Global) -> Answers
        ensures { string_bytes result.text ≡ [] }
    {
        Answers {
            alloc,
            text: String::new(alloc),
        }
    }

    /// The lines.
    pub fn text(&self) -> &str
        ensures { result.now ≡ string_bytes self.now.text }
    {
        self.text.as_str()
    }

    fn line(&mut self, mark: &str, text: &str) -> Result<(), AllocError>
        ensures { OnOk result (string_bytes self.new.text
            ≡ string_bytes self.old.text ++ mark.now ++ text.now ++ 10 ∷ []) }
    {
        self.text.push_str(mark)?;
        self.text.push_str(text)?;
        self.text.push('\n')
    }

    /// Anything that isn't a frame: `= text`.
    pub fn say(&mut self, text: &str) -> Result<(), PlayFault>
        ensures { OnOk result (string_bytes self.new.text
            ≡ string_bytes self.old.text ++ codes "= " ++ text.now ++ 10 ∷ []) }
    {
        self.line("= ", text)?;
        Ok(())
    }

    /// The fields of a frame that is sent: `> fields`.
    pub fn send_fields(&mut self, fields: &str) -> Result<(), PlayFault>
        ensures { OnOk result (string_bytes self.new.text
            ≡ string_bytes self.old.text ++ codes "> " ++ fields.now ++ 10 ∷ []) }
    {
        self.line("> ", fields)?;
        Ok(())
    }

    /// A whole frame that is sent, by its fields.
    pub fn send(&mut self, frame: &[u8]) -> Result<(), PlayFault> {
        let fields = fields_of(self.alloc, frame)?;
        self.send_fields(fields.as_str())
    }

    /// That a command isn't understood, which no case file wants.
    pub fn refuse(&mut self) -> Result<(), AllocError>
        ensures { OnOk result (string_bytes self.new.text
            ≡ string_bytes self.old.text ++ codes "! not understood" ++ 10 ∷ []) }
    {
        self.line("! ", "not understood")
    }
}
