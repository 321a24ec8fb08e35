//! Room that is had at the second try where the first is refused.

use std::alloc::{AllocError, Global};

/// A list with room for so many, had at the second try where the first is refused.
pub fn room_for<T: Drop>(alloc: Global, count: usize) -> Result<Vec<T>, AllocError> {
    match Vec::with_capacity(alloc, count) {
        Err(_) => Vec::with_capacity(alloc, count),
        Ok(list) => Ok(list),
    }
}

/// The same for a text of so many bytes.
pub fn room_for_text(alloc: Global, bytes: usize) -> Result<String, AllocError> {
    match String::with_capacity(alloc, bytes) {
        Err(_) => String::with_capacity(alloc, bytes),
        Ok(text) => Ok(text),
    }
}
