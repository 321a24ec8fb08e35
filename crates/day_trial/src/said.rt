//! What an exchange says, as text.

use fix_text::sum256;
use std::alloc::Global;
use trial::TrialFault;

/// A message of the exchange B: its kind (35), and its fields behind the receiver and the time, with `|` for SOH.
pub type Said = (&'static str, &'static str);

/// The answers to the Logon and to the first fence: the session is up then, and expects number 3.
pub const LOGON: Said = ("A", "49=B|34=1|98=0|108=30|");

pub const FENCE: Said = ("0", "49=B|34=2|112=F2|");

/// The frame of a message to A.
fn frame_of(alloc: Global, said: Said) -> Result<String, TrialFault> {
    let (kind, fields) = said;
    let time = "20240102-14:30:00.000";
    let fields = format!(in alloc; "35={kind}|56=A|52={time}|{fields}")?;
    let head = format!(in alloc; "8=FIX.4.4|9={}|{fields}", fields.len())?;
    let head = head.replace(alloc, "|", "\x01")?;
    let sum = sum256(head.as_bytes());
    Ok(format!(in alloc; "{head}10={sum:03}\x01")?)
}

/// The frames of messages, each for itself.
pub fn frames_of(alloc: Global, says: &[Said]) -> Result<Vec<Vec<u8>>, TrialFault> {
    let mut frames = Vec::new(alloc);
    for said in says {
        let frame = frame_of(alloc, *said)?;
        frames.push(Vec::from_slice(alloc, frame.as_bytes())?)?;
    }
    Ok(frames)
}
