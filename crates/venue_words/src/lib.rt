//! How a venue spells its orders, as a desk's file says it: one of the dialects, or a table of its own.
//!
//! Promises:
//! - A `WordTable` is a table that is taken (`is_table`): an order that it spells is read back, and no field of it
//!   stands twice. One is made of a dialect (`preset_words`) by what departs from it: the example of a leg's number
//!   (`with_id`), the mark, prices, symbols, and the fields that every order carries besides. Each answers exactly the
//!   table with that, or says that it isn't taken, and of a field why (`field_fault_text`).
//! - A `Dress` has fields that a header and a Logon take from a venue, and no tag twice (`is_dress`). One more is
//!   taken, or refused with the reason (`with_header`, `with_logon`).
//! - `VenueDialect` spells as the dialect, or as the table, that it is made of (`dialect_of`).
//! - A table at the head of a log is exactly `table_text`.
#![tactic(auto)]

mod data_tag;
mod dress;
mod example;
mod fault;
mod field;
mod forms;
mod head;
mod preset;
mod shown;
mod table;
mod venue_dialect;
mod words;

pub use dress::{Dress, DressFields, MAX_DRESS};
pub use fault::FieldFault;
pub use head::table_text;
pub use table::WordTable;
pub use venue_dialect::VenueDialect;
pub use words::VenueWords;
