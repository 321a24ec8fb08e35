//! Fields as text.

use crate::run::expanded;
use case_text::{PlayFault, bytes_of, number, shown};
use fix_text::{Field, FieldRef, Frame};
use std::alloc::{AllocError, Global};

/// The fields of a frame, shown.
pub fn frame_text(alloc: Global, frame: &Frame<'_>) -> Result<String, AllocError> {
    let mut text = String::new(alloc);
    for field in frame.iter() {
        let value = shown(alloc, field.value())?;
        write!(text, "{}={value}|", field.tag())?;
    }
    Ok(text)
}

/// Fields of a list, shown.
pub fn fields_text(alloc: Global, fields: &[Field]) -> Result<String, AllocError> {
    let mut text = String::new(alloc);
    for field in fields {
        let value = shown(alloc, field.value())?;
        write!(text, "{}={value}|", field.tag())?;
    }
    Ok(text)
}

/// A tag.
pub fn field_tag(word: &str) -> Result<u32, PlayFault> {
    u32::try_from(number(word)?).map_err(|_| PlayFault::NotUnderstood)
}

/// A field of a part `tag=value`.
fn field_of(alloc: Global, part: &str) -> Result<Field, PlayFault> {
    let (tag, value) = part.split_once('=').ok_or(PlayFault::NotUnderstood)?;
    Ok(Field::new(field_tag(tag)?, bytes_of(alloc, value)?))
}

/// The fields of a text, each with `|` behind it. A value may hold SOH as `\x01`.
pub fn fields_in(alloc: Global, text: &str) -> Result<Vec<Field>, PlayFault> {
    let text = expanded(alloc, text)?;
    let mut fields = Vec::new(alloc);
    if let Some(parts) = text.strip_suffix('|') {
        for part in parts.split('|') {
            fields.push(field_of(alloc, part)?)?;
        }
    } else if !text.is_empty() {
        return Err(PlayFault::NotUnderstood);
    }
    Ok(fields)
}

/// The same fields, lent.
pub fn lent<'a>(alloc: Global, fields: &'a [Field]) -> Result<Vec<FieldRef<'a>>, AllocError> {
    fields
        .iter()
        .map(|field| FieldRef::new(field.tag(), field.value()))
        .collect(alloc)
}
