//! The frames that a reader gives.

use case_fields::{elided, frame_text};
use case_text::{Answers, PlayFault};
use fix_text::Frame;
use std::alloc::Global;

/// How often the same frame was given on end.
#[derive(Drop)]
struct Times {
    fields: String,
    count: u64,
}

/// Frames in the order in which they were given. Those that are alike are told once, with their number.
#[derive(Drop)]
pub struct Given {
    alloc: Global,
    /// What stands before each answer.
    label: &'static str,
    last: Option<Times>,
}

impl Given {
    pub fn new(alloc: Global, label: &'static str) -> Given {
        Given {
            alloc,
            label,
            last: None,
        }
    }

    /// Adds a frame. The one before is told, if it differs.
    pub fn add(&mut self, frame: &Frame<'_>, answers: &mut Answers) -> Result<(), PlayFault> {
        let fields = elided(self.alloc, &frame_text(self.alloc, frame)?)?;
        let mut count = 1;
        if let Some(last) = self.last.take() {
            if last.fields == fields {
                count = last.count.saturating_add(1);
            } else {
                self.tell(&last, answers)?;
            }
        }
        self.last = Some(Times { fields, count });
        Ok(())
    }

    fn tell(&self, times: &Times, answers: &mut Answers) -> Result<(), PlayFault> {
        let label = self.label;
        let Times { fields, count } = times;
        let text = if *count == 1 {
            format!(in self.alloc; "{label}frame {fields}")?
        } else {
            format!(in self.alloc; "{label}{count} frames {fields}")?
        };
        answers.say(&text)
    }

    /// Tells the last frame.
    pub fn end(mut self, answers: &mut Answers) -> Result<(), PlayFault> {
        match self.last.take() {
            Some(last) => self.tell(&last, answers),
            None => Ok(()),
        }
    }
}
