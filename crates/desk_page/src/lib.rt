//! The desk's page: one document with its style and its script, which asks for nothing but the interface for programs.
//!
//! See `docs/page.md`.
#![tactic(auto)]

mod page;

pub use page::PAGE;
