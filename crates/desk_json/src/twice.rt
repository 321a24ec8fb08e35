//! Whether an object of a body has a key twice.

ghost use Rattle.std.specs.Prelude.{◌≡◌, false, true, IfOk};
ghost use Rattle.std.specs.Str.{IsUtf8};
ghost use Rattle.desk_json.specs.Twice.{HasKeyTwice, HasKeysOnce};

use json::{Error, Scratch, Value};
use std::alloc::{AllocError, Global};
use std::str;

/// Whether an object of a body, at any depth, has a key twice. The only refusal is out of memory.
pub(crate) fn has_key_twice(alloc: Global, body: &[u8]) -> Result<bool, AllocError>
    ensures twice { IfOk result (λ twice. twice ≡ true → HasKeyTwice body.now) }
    ensures once { IfOk result (λ twice. twice ≡ false → IsUtf8 body.now → HasKeysOnce body.now) }
{
    let Ok(text) = str::from_utf8(body) else {
        return Ok(false);
    };
    match Value::parse_strict(alloc, text, &mut Scratch::new(alloc)) {
        Ok(_) => Ok(false),
        Err(Error::DuplicateKey) => Ok(true),
        Err(Error::OutOfMemory) => Err(AllocError),
        Err(Error::Invalid) => Ok(false),
        Err(Error::TooLong) => Ok(false),
    }
}
