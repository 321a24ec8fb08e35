//! The interface for programs and the page: connections of HTTP/1.1, served over any desk's day. It reads and writes no
//! stream: bytes that came are taken, and what is to be sent is put behind what is sent before.
//!
//! Promises:
//! - `allowed` says exactly what a request asks for, or why it isn't carried out, the first reason in order (`allowed`
//!   of `specs/Door.antt`). A request that isn't allowed asks the day nothing (`respond`, private).
//! - A call is answered with exactly the stated text of what the day said (`answer`, private, over the words of the
//!   trait `Day`), the metrics too. A sweep is handed to the day where its whole body was read and asks for those legs,
//!   and otherwise the day is asked nothing (`Handles`).
//! - The text of an answer is exactly its status, its head and its body (`reply_text`).
//! - The requests of a connection are those that its bytes begin with, one after the other, by the grammar of `http1`,
//!   each with its fields and its body; behind each just the bytes that follow it are left (`Reader`, private, over
//!   `Gives` of `specs/Reading.antt`). None is given with two lengths, or with a field twice that the desk looks at.
//! - A request that isn't allowed, a sweep and a close are answered by one text behind what is sent before, and it says
//!   truly whether the connection stays (`respond`, private, over `Sends`).
//! - That a request is refused only where it has to be, or waited for only where it isn't whole, and the stream of
//!   events, is only tested.
//!
//! See `docs/api.md`.
#![tactic(auto)]

mod admitted;
mod answer;
mod call;
mod connection;
mod day;
mod day_sums;
mod door;
mod guesses;
mod metric_text;
mod metrics;
mod parts;
mod process_use;
mod reading;
mod refusal_counts;
mod refused;
mod reply;
mod request;
mod run;
mod status;
mod stopped;
mod stream;
mod user;
mod venue_metric;
mod window;

pub use admitted::Admitted;
pub use call::Call;
pub use connection::{Connection, Turn, refuse};
pub use day::Day;
pub use day_sums::DaySums;
pub use door::{Door, allowed};
pub use guesses::Guesses;
pub use process_use::ProcessUse;
pub use refusal_counts::RefusalCounts;
pub use refused::Refused;
pub use reply::{Kind, Reply};
pub use request::{Method, Request};
pub use run::Run;
pub use status::{Allow, Status};
pub use stopped::Stopped;
pub use stream::{STILL_HERE, events_text, stream_head};
pub use user::{Right, Rights, User};
pub use window::MOST_SWEEPS;
