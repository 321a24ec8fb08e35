//! Text of others in JSON.

ghost use Rattle.std.specs.Prelude.{◌≡◌, IfOk, IfSome, string_bytes};
ghost use Rattle.json.specs.Print.{quoted};

use serde_json::Value;
use std::alloc::{AllocError, Global};
use std::fmt::Display;

/// What is written in words, as a string of JSON, in its quotes.
pub(crate) fn quoted<T: Display>(alloc: Global, words: &T) -> Result<String, AllocError>
    ensures { IfOk result (λ json. IfSome (T.output words.now) (λ said. string_bytes json ≡ quoted said)) }
{
    let text = format!(in alloc; "{words}")?;
    Value::try_from_str(alloc, text.as_str())?.to_string(alloc)
}
