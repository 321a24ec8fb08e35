//! How a case file shows frames.

use crate::answers::Answers;
use crate::escape::{bytes_of, shown};
use crate::fault::PlayFault;
use crate::frame::frame_of;
use std::alloc::Global;

/// How a case file shows frames.
#[derive(Clone, Copy, Debug, PartialEq, Eq)]
pub enum FrameForm {
    /// By their fields between BodyLength (9) and CheckSum (10).
    Fields,
    Whole,
}

impl FrameForm {
    /// The bytes that come where a case file shows this.
    pub fn bytes(self, alloc: Global, text: &str) -> Result<Vec<u8>, PlayFault> {
        let bytes = bytes_of(alloc, text)?;
        match self {
            FrameForm::Fields => Ok(frame_of(alloc, &bytes)?),
            FrameForm::Whole => Ok(bytes),
        }
    }

    /// Answers with a frame that is sent.
    pub fn send(self, alloc: Global, frame: &[u8], answers: &mut Answers) -> Result<(), PlayFault> {
        match self {
            FrameForm::Fields => answers.send(frame),
            FrameForm::Whole => {
                let text = shown(alloc, frame)?;
                answers.send_fields(&text)
            }
        }
    }
}
