//! What a line or a call is answered.
//!
//! Promises:
//! - An answer and a refusal are shown as the stated texts (`answer_text`, `refusal_text`).
#![tactic(auto)]

mod answer;

pub use answer::{Answer, Refusal};
