//! Messages, read from the bytes of their frames.

use crate::TrialFault;
use fix_tags::{EnvelopeRef, read_envelope};
use fix_text::FrameReader;

/// The message of a frame that a reader is given.
#[inline(always)]
pub fn envelope_in<'r>(
    reader: &'r mut FrameReader,
    bytes: &[u8],
) -> Result<EnvelopeRef<'r>, TrialFault> {
    reader.feed(bytes)?;
    let Some(frame) = reader.next()? else {
        return Err(TrialFault::Missing);
    };
    Ok(read_envelope(&frame)?)
}
