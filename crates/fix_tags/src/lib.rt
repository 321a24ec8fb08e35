//! The messages of a FIX 4.4 session as envelopes, and the values of their fields: how each is read
//! and written.
//!
//! Promises:
//! - Each value has one equation for reading, on every text, and one for writing: numbers, shares, prices (short,
//!   and with four decimals), flags, time stamps, comp ids. What is written is read back: `laws`.
//! - `write_envelope` appends the frame of `envelope_fields`, or refuses as `envelope_refusal` says: the first bad
//!   tag in written order (M01), then M02; M03 only where the buffer had no room for the frame. A refusal leaves the
//!   buffer as it was. Of every stream that begins with what it wrote, the next frame is read as the message itself,
//!   and the stream goes on behind it: its clause `reads_back`, and the law `written_messages_read_back`.
//! - `read_envelope` is `envelope_read`, for every list of fields and every body: the message where there is one,
//!   else the first fault in order (M04, M05). It takes no memory: an application message's fields stay where the
//!   frame has them, and `AppFields` looks them up there. Whatever it gives is in the ranges of `docs/formats.md`
//!   (`in_range`), and is what the fields say, field by field (`says`). An `EnvelopeRef` is only made of what was
//!   read from a frame: each part is in its range, and no text of it holds SOH (`IsRead`), which whoever is handed
//!   one knows by `body`.
//! - An application message whose fields can be written and take at most 3,000 bytes, and whose kind and number are
//!   in range, is refused under no header: `laws::application_messages_fit`. A message that isn't refused takes at
//!   most `MAX_FRAME` bytes: `laws::written_messages_are_short`.
#![tactic(auto)]

mod app_fields;
mod append;
mod body;
mod comp_id;
mod config;
mod digits;
mod envelope;
mod flag;
mod header;
mod header_fields;
pub mod laws;
mod limits;
mod number;
mod price;
mod read;
mod read_body;
mod session_body;
mod shares;
mod stamp;
mod stamp_text;
mod tag;
mod tag_fault;
mod text_ref;
mod value_at;
mod writable;
mod write;
mod write_fault;

pub use app_fields::AppFields;
pub use body::{Body, BodyRef};
pub use comp_id::{CompId, is_comp_id};
pub use config::Config;
pub use envelope::{Envelope, EnvelopeRef};
pub use flag::{read_flag, write_flag};
pub use header::{Header, push_header};
pub use limits::MAX_MESSAGE_NUMBER;
pub use number::{read_number, write_number};
pub use price::{
    PriceText, price_four_text, price_short_text, read_price, write_price_four, write_price_short,
};
pub use read::read_envelope;
pub use session_body::SessionBody;
pub use shares::read_shares;
pub use stamp::Stamp;
pub use stamp_text::{read_stamp, stamp_bytes, write_stamp};
pub use tag_fault::TagFault;
pub use text_ref::TextRef;
pub use writable::is_header_tag;
pub use write::write_envelope;
pub use write_fault::WriteFault;
