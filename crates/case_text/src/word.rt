//! The words of a command.
ghost use Rattle.std.specs.Prelude.{Ok, true, false, ◌≡◌, codes};

use crate::fault::PlayFault;
use std::alloc::{AllocError, Global};

/// The words of a line, parted by single spaces.
pub fn words(alloc: Global, line: &str) -> Result<Vec<&str>, AllocError> {
    line.split(' ').collect(alloc)
}

/// A number in its shortest decimal form.
pub fn number(word: &str) -> Result<u64, PlayFault> {
    match word.as_bytes() {
        [b'+', ..] | [b'0', _, ..] => Err(PlayFault::NotUnderstood),
        _ => word.parse().map_err(|_| PlayFault::NotUnderstood),
    }
}

/// `Y` or `N`.
pub fn flag(word: &str) -> Result<bool, PlayFault>
    ensures yes { result ≡ Ok true → word.now ≡ codes "Y" }
    ensures no { result ≡ Ok false → word.now ≡ codes "N" }
{
    match word {
        "Y" => Ok(true),
        "N" => Ok(false),
        _ => Err(PlayFault::NotUnderstood),
    }
}
