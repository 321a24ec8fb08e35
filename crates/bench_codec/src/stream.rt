//! A stream is read, as it comes in pieces.

use crate::stretch::Stretch;
use fix_text::FrameReader;
use std::alloc::Global;
use trial::TrialFault;

/// What a reader found in a stream.
#[derive(Clone, Copy, Debug, PartialEq, Eq)]
pub struct Found {
    pub frames: u64,
    pub fields: u64,
    pub skipped: u64,
    pub garbled: u64,
}

/// Counts the frames that have come, with their fields.
fn count_frames(reader: &mut FrameReader, found: &mut Found) -> Result<(), TrialFault> {
    while let Some(frame) = reader.next()? {
        found.frames = found.frames.saturating_add(1);
        found.fields = found.fields.saturating_add(frame.len() as u64);
    }
    Ok(())
}

/// Reads a stream of this frame as often as it is counted, in pieces of this length.
pub fn read_stream(
    alloc: Global,
    frame: &[u8],
    count: u64,
    piece_len: usize,
) -> Result<Found, TrialFault> {
    let mut reader = FrameReader::new(alloc);
    let mut stretch = Stretch::new(alloc, frame, piece_len)?;
    let mut found = Found {
        frames: 0,
        fields: 0,
        skipped: 0,
        garbled: 0,
    };
    let mut left = count.saturating_mul(frame.len() as u64);
    while left > 0 {
        let piece = stretch.next();
        let len = left.min(piece.len() as u64);
        reader.feed(&piece[..len as usize])?;
        count_frames(&mut reader, &mut found)?;
        left -= len;
    }
    found.skipped = reader.skipped();
    found.garbled = reader.garbled();
    Ok(found)
}
