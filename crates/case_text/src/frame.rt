//! Whole frames, and the fields between BodyLength (9) and CheckSum (10).

use crate::escape::shown;
use fix_text::{Frame, FrameReader, sum256};
use std::alloc::{AllocError, Global};

/// The frame of the bytes of fields, whatever they are: BeginString (8), BodyLength (9), the bytes, and CheckSum (10).
pub fn frame_of(alloc: Global, fields: &[u8]) -> Result<Vec<u8>, AllocError> {
    let header = format!(in alloc; "8=FIX.4.4\x019={}\x01", fields.len())?;
    let mut frame = Vec::from_slice(alloc, header.as_bytes())?;
    frame.extend_from_slice(fields)?;
    let trailer = format!(in alloc; "10={:03}\x01", sum256(&frame))?;
    frame.extend_from_slice(trailer.as_bytes())?;
    Ok(frame)
}

/// The bytes of a frame's fields.
fn field_bytes(alloc: Global, frame: &Frame<'_>) -> Result<Vec<u8>, AllocError> {
    let mut bytes = Vec::new(alloc);
    for field in frame.iter() {
        let tag = format!(in alloc; "{}=", field.tag())?;
        bytes.extend_from_slice(tag.as_bytes())?;
        bytes.extend_from_slice(field.value())?;
        bytes.push(1)?;
    }
    Ok(bytes)
}

/// The fields of the frame that a reader finds in these bytes, if the bytes are that frame alone.
fn read_fields(alloc: Global, frame: &[u8]) -> Result<Option<Vec<u8>>, AllocError> {
    let mut reader = FrameReader::new(alloc);
    if reader.feed(frame).is_err() {
        return Err(AllocError);
    }
    let fields = match reader.next() {
        Ok(Some(found)) => field_bytes(alloc, &found)?,
        Ok(None) => return Ok(None),
        Err(_) => return Err(AllocError),
    };
    let again = frame_of(alloc, &fields)?;
    Ok(if again.as_slice() == frame {
        Some(fields)
    } else {
        None
    })
}

/// The fields of a frame between its BodyLength (9) and its CheckSum (10), as text. What can't be read as one frame is
/// shown whole, behind `!`.
pub fn fields_of(alloc: Global, frame: &[u8]) -> Result<String, AllocError> {
    match read_fields(alloc, frame)? {
        Some(fields) => shown(alloc, &fields),
        None => {
            let whole = shown(alloc, frame)?;
            format!(in alloc; "!{whole}")
        }
    }
}
