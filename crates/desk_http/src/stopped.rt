//! What came of a halt.

ghost use Rattle.std.specs.Prelude.{◌≡◌, IfOk, string_bytes};
ghost use Rattle.desk_http.specs.Stopped.{resumed_json, stopped_json, word};

use std::alloc::{AllocError, Global};

/// What came of a halt.
#[derive(Clone, Copy, Debug, PartialEq, Eq)]
pub struct Stopped {
    /// Whether a worker may still be sending an order.
    pub is_sending: bool,
    /// Whether a desk that is started again with its journal is halted too.
    pub is_kept: bool,
}

/// A truth in JSON.
fn word(truth: bool) -> &'static str
    ensures { result.now ≡ word truth }
{
    if truth { "true" } else { "false" }
}

/// What came of a halt, in JSON.
pub(crate) fn stopped_json(alloc: Global, stopped: Stopped) -> Result<String, AllocError>
    ensures { IfOk result (λ text. string_bytes text ≡ stopped_json stopped) }
{
    let Stopped {
        is_sending,
        is_kept,
    } = stopped;
    let sending = word(is_sending);
    let kept = word(is_kept);
    format!(in alloc; "{{\"halted\":true,\"sending\":{sending},\"kept\":{kept}}}")
}

/// What came of a resume, in JSON.
pub(crate) fn resumed_json(alloc: Global, is_kept: bool) -> Result<String, AllocError>
    ensures { IfOk result (λ text. string_bytes text ≡ resumed_json is_kept) }
{
    let kept = word(is_kept);
    format!(in alloc; "{{\"halted\":false,\"kept\":{kept}}}")
}
