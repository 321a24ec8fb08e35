//! A line that may be written in JSON.

ghost use Rattle.std.specs.Prelude.{◌≡◌, ℕ, List, IfOk, string_bytes};

use std::alloc::{AllocError, Global};
use std::fmt::Display;

/// A line that is written in words, or as an object of JSON.
pub trait Line: Display {
    // the object
    ghost json: { Self → List ℕ };

    /// The line as an object of JSON, without its end. The only refusal is out of memory.
    fn json(&self, alloc: Global) -> Result<String, AllocError>
        ensures { IfOk result (λ text. string_bytes text ≡ json self.now) };
}
