//! Words of a command that say what they are: `heart=30`.

use case_text::{PlayFault, bytes_of, flag, number};
use std::alloc::Global;

/// What stands behind `key=`.
fn value<'a>(word: &'a str, key: &str) -> Result<&'a str, PlayFault> {
    match word.split_once('=') {
        Some((name, value)) if name == key => Ok(value),
        _ => Err(PlayFault::NotUnderstood),
    }
}

/// The number behind `key=`.
pub fn number_of(word: &str, key: &str) -> Result<u64, PlayFault> {
    number(value(word, key)?)
}

/// The flag behind `key=`.
pub fn flag_of(word: &str, key: &str) -> Result<bool, PlayFault> {
    flag(value(word, key)?)
}

/// The bytes behind `key=`.
pub fn text_of(alloc: Global, word: &str, key: &str) -> Result<Vec<u8>, PlayFault> {
    bytes_of(alloc, value(word, key)?)
}

/// A flag as it stands behind `key=`.
pub fn flag_text(flag: bool) -> &'static str {
    if flag { "Y" } else { "N" }
}
