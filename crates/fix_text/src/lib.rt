//! Fields and frames of FIX 4.4 as bytes: what is written has one spelling, and what is read is lent.
//!
//! Promises:
//! - `write_frame` and `write_frame_parts` append the one written frame of the fields, `frame_text`, or refuse as
//!   `frame_refusal` says: T01, T02 and T03, each tried over all fields before the next; `write_writable_parts` does
//!   so where the caller knows that each field can be written. T04, out of memory, comes only where the buffer had
//!   no room for the frame (clause `full`), and a refusal leaves the buffer and its room as they were (`err`,
//!   `asked`). Not said: that they ask for no more room than the frame needs.
//! - A `FieldSink` is what fields are pushed to, so that the same proved code fills a list (`Vec<Field>`) or the
//!   body of a frame (`FrameBody`): each push gives exactly its field, behind those that were taken (`Pushes`). A
//!   `FrameBody` is the text of its fields while that takes at most 1,152 bytes, and then none; `write_body` appends
//!   its frame, or refuses with T03, or with T04 where the buffer had no room for it.
//! - The grammar of frames stands apart from any reader (`specs/Grammar.antt`): at each place of a stream exactly
//!   one of three holds, a frame, the beginning of one, or neither (`laws::places_are_decided`); a frame at the
//!   front and its fields are determined (`frames_are_determined`); what was read stays read when more bytes come
//!   (`reading_is_determined`).
//! - `FrameReader::next` makes exactly one step, `next_read`: it gives the fields of the next valid frame of the
//!   stream, or none where more bytes are needed, and the reader then stands behind it, with what it passed counted
//!   (its clauses `fields` and `lender`; `next` says so in the words of the grammar). It may want memory only for a
//!   frame of more than 64 fields, and is then as it was. A frame is lent from the reader's buffer and owns nothing;
//!   that one can't be kept over the next call is shown by a program which must not compile (`checks/lending`).
//!   `feed` adds bytes at the end, or changes nothing. `skipped` and `garbled` are the definition's counts. A reader
//!   that was given the header of a frame looks at it again only once the body is there: whatever comes, fewer bytes
//!   are only the beginning of a frame, which its type's invariant keeps (`WaitsFor`). `kept`, the bytes that the
//!   reader keeps, are never more than twice what isn't passed and 16,398.
//! - However a stream is cut into pieces, and whichever calls were refused memory, the frames that a reader's calls
//!   gave are the first valid frames of all bytes fed, in order, with the counts of the others: `laws::read_calls`.
//! - What is written is a valid frame, and a stream that begins with it gives first its fields, skips nothing and
//!   garbles nothing, whatever follows: `laws::written_is_valid` and `written_is_read`, and the clause `written` of
//!   `next`. It has at most `MAX_FRAME` bytes (`written_frames_are_short`).
//! - A field that copies a value can't be refused memory where the value has at most 24 bytes (`Field::from_slice`).
//! - `first`, `first_ref` and `Frame::get` give the value of the first field of a tag, and so does `Frame::take`,
//!   which passes that field where it is the frame's first; `sum256` gives the sum modulo 256.
#![tactic(auto)]

mod checksum;
mod cursor;
mod fault;
mod field;
mod fields;
mod frame;
mod frame_body;
mod frame_fields;
mod frame_parts;
mod kept;
pub mod laws;
mod lists;
mod parse;
mod place;
mod reader;
mod reader_fault;
mod refusal;
mod sink;
mod tag_text;
mod write;

pub use checksum::sum256;
pub use fault::TextFault;
pub use field::{Field, FieldRef, first, first_ref};
pub use frame::Frame;
pub use frame_body::{FrameBody, MAX_STRAIGHT};
pub use frame_fields::FrameFields;
pub use lists::Fields;
pub use place::Place;
pub use reader::FrameReader;
pub use reader_fault::ReaderFault;
pub use refusal::{MAX_BODY, can_write_tag, can_write_value};
pub use sink::FieldSink;
pub use write::{MAX_FRAME, write_body, write_frame, write_frame_parts, write_writable_parts};
