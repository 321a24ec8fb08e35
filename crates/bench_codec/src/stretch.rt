//! The bytes of a stream of one frame again and again, cut into pieces of one length.
ghost use Rattle.std.specs.Prelude.{◌≤◌, ◌<◌, ◌+◌, length};

use std::alloc::Global;
use trial::TrialFault;

/// A stretch of the stream in which each piece lies, wherever in a frame it begins, and the place of the next one.
#[derive(Drop)]
pub struct Stretch {
    frame_len: usize,
    piece_len: usize,
    bytes: Vec<u8>,
    at: usize,
    ghost in_first: { at < frame_len },
    ghost some: { 0 < piece_len },
    ghost within: { frame_len + piece_len ≤ length bytes.items },
}

impl Stretch {
    /// Pieces of this length of a stream of this frame, of which neither is empty.
    pub fn new(alloc: Global, frame: &[u8], piece_len: usize) -> Result<Stretch, TrialFault> {
        if frame.is_empty() || piece_len == 0 {
            return Err(TrialFault::Missing);
        }
        let mut bytes = Vec::new(alloc);
        for _ in 0..piece_len / frame.len() {
            bytes.extend_from_slice(frame)?;
        }
        bytes.extend_from_slice(frame)?;
        bytes.extend_from_slice(frame)?;
        let bytes_after = bytes.len() - frame.len();
        if bytes_after < piece_len {
            return Err(TrialFault::Missing);
        }
        Ok(Stretch {
            frame_len: frame.len(),
            piece_len,
            bytes,
            at: 0,
        })
    }

    /// The next piece, which isn't empty.
    pub fn next(&mut self) -> &[u8]
        ensures { 0 < length result.now }
    {
        let start = self.at;
        let end = start + self.piece_len;
        self.at = end % self.frame_len;
        &self.bytes[start..end]
    }
}
