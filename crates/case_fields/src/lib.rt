//! Fields and written bytes as the case files of the codec show them.
//!
//! A list of fields is `tag=value|` for each, where SOH in a value is `\x01`. `x*200` stands for 200 times `x`, both
//! ways; a run of less than 100 is written out.
#![tactic(auto)]

mod buffer;
mod field_text;
mod run;
mod word;

pub use buffer::Buffer;
pub use field_text::{field_tag, fields_in, fields_text, frame_text, lent};
pub use run::{elided, expanded};
pub use word::{flag_of, flag_text, number_of, text_of};
