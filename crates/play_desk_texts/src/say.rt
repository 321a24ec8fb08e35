//! Anything that is printed, as an answer.

use case_text::{Answers, PlayFault};
use std::alloc::Global;
use std::fmt::Display;

/// Answers with the text of something.
pub fn say<T: Display>(alloc: Global, said: &T, answers: &mut Answers) -> Result<(), PlayFault> {
    let text = format!(in alloc; "{said}")?;
    answers.say(text.as_str())
}
