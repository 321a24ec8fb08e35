//! Simulated exchanges: an exchange behind a link in memory, and one behind TCP. Each trades a part of every order and
//! cancels the rest, and fails as it is planned.
//!
//! Promises:
//! - `MemoryLink` is a link in memory round an exchange: it keeps the laws of `Link` and tells its traffic, whatever
//!   its plan, so what is proved over every link that tells is proved over it.
//! - `Acceptor::receive`, which it and the server stand on, takes any bytes in any pieces: the frames that they
//!   complete are read one after the other, up to where none is left or the plan cuts the connection (`Hears` in
//!   `specs/Hearing.antt`).
//! - Each is taken as `exchange_core` says, but for the one that the plan loses. An order that it accepts trades as
//!   many shares as planned, at most all, at its limit price, and its rest is cancelled (`takes` in
//!   `specs/Dealing.antt`).
//! - What a message puts behind the bytes that wait to be sent are the frames of its answer, and of the reports on
//!   its order, in order (`Answers` in `specs/Sending.antt`, of the engine's `take`).
//! - Of `serve` it is proved that no connection is left at its end, and of it and `serve_raw` that they are safe.
//!
//! See `docs/live.md`.
#![tactic(auto)]

mod acceptor;
mod matching_engine;
mod memory_link;
mod memory_plan;
mod outbox;
mod plan;
mod port;
mod raw_server;
mod recorded;
mod recording;
mod server;
mod stream;
mod trade_price;

pub use acceptor::Acceptor;
pub use memory_link::MemoryLink;
pub use memory_plan::MemoryPlan;
pub use plan::Plan;
pub use port::Port;
pub use raw_server::serve_raw;
pub use server::serve;
