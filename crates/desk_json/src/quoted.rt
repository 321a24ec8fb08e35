//! Text of others in JSON.

ghost use Rattle.std.specs.Prelude.{◌≡◌, IfOk, string_bytes};
ghost use Rattle.json.specs.Print.{quoted};

use serde_json::Value;
use std::alloc::{AllocError, Global};

/// A text as a string of JSON, in its quotes. The only refusal is out of memory.
pub(crate) fn quoted(alloc: Global, text: &str) -> Result<String, AllocError>
    ensures { IfOk result (λ json. string_bytes json ≡ quoted text.now) }
{
    Value::try_from_str(alloc, text)?.to_string(alloc)
}
