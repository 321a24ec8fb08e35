//! How venues spell an order, and a report on it, in the fields of a message.
//!
//! Promises:
//! - The trait `Dialect` and its laws (`IsWording`), for orders and reports: each leg and moment in range, and each
//!   report, has fields that may be written for it; they read back as it, and fit a message in at most 1,000 bytes;
//!   an order carries the mark of a sweep, `59=3` and its own moment (60); a report's 37, 39, 151 and 14 are what
//!   its exchange knows. Two legs, or two reports, that differ have different fields (`orders_tell_legs_apart`,
//!   `reports_tell_apart`). Generic code knows a dialect by these laws alone. `write_order` may want memory only
//!   where the list has no room for as many fields as an order has at most, 26 in any dialect.
//! - What differs between venues is a `Spelling`: a leg's number, the mark, a price and a symbol. Every spelling is
//!   a dialect, proved once; orders and reports are read as exactly `order_read_of` and `report_read_of`, with the
//!   first fault in order (V01 to V04), and a mark that isn't written isn't read. A refusal to write leaves the list
//!   as it was.
//! - `Plain`, `Split4` and `Coded` are spellings, and `AnyDialect` is any one of them, chosen when the program runs.
//! - The bytes of a message in a dialect (`IsFramed`): there are such bytes for every message in range, writing it
//!   is refused for lack of memory alone, and of every stream that begins with them the next frame is seen as
//!   exactly that message (`writable_messages_are_framed`, `writable_messages_fit`, `frames_read_back`).
//! - `write_message`, the one writer for both ends of a session, gives exactly such bytes of a message, in any
//!   dialect and with any stamp: a message in range is refused for lack of memory alone. `append_message` gives them
//!   behind what a buffer holds; a refusal, which comes only without room for them, leaves that as it was. `decode`
//!   reads an envelope as exactly the message that it is (`decoded`), takes no memory, and gives what is in range
//!   (`IsRead`), asking nothing. `read_order` and `read_report` give legs and reports in range, in every dialect.
//! - `ExecId`, `OrderId`, `LastPx`, `Fill` and `OrderView` can't be made out of range, and a `Report` is made of
//!   them.
#![tactic(auto)]

mod accepted;
mod any_dialect;
mod app_write;
mod coded;
mod content;
mod dialect;
mod digits;
mod fault;
mod field_value;
mod fill;
mod fixed_id;
mod free_text;
mod kind;
pub mod laws;
mod limit;
mod mark;
mod message;
mod message_read;
mod message_write;
mod note;
mod order;
mod order_view;
mod ordinal;
mod outgoing;
mod plain;
mod plain_id;
mod push;
mod report;
mod report_read;
mod report_tag;
mod report_write;
mod shaped;
mod spelled;
mod spelling;
mod split;
mod split4;
mod symbol_text;
mod tag;
mod time;
mod worded;
mod words;

pub use any_dialect::AnyDialect;
pub use coded::Coded;
pub use content::Content;
pub use dialect::Dialect;
pub use fault::{DialectFault, SpellFault};
pub use field_value::required;
pub use fill::Fill;
pub use free_text::{ExecId, FreeText, LastPx, MAX_ID, MAX_LAST_PX, OrderId};
pub use kind::{ORDER_KIND, REPORT_KIND};
pub use message::Message;
pub use message_read::decode;
pub use message_write::{append_message, write_message};
pub use note::Note;
pub use order_view::OrderView;
pub use outgoing::Outgoing;
pub use plain::Plain;
pub use report::{Report, ReportKind};
pub use report_read::{exec_id_in, kind_in};
pub use spelling::{IdText, Spelling};
pub use split4::Split4;
pub use symbol_text::read_symbol;
pub use worded::Worded;
pub use words::{Extra, IdShape, MAX_EXTRA, MarkValue, PriceShape, SymbolShape, Words};
