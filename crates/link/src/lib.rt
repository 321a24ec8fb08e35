//! What a worker needs of a connection, a connection over TCP, and the bell that ends its rests.
//!
//! Promises:
//! - The trait `Link` and its laws: no call answers a fault without counting it, a rest counts none and moves no
//!   byte, a read that gives bytes and a write of bytes move one at least, and a link that tells its traffic has
//!   after each call exactly the bytes more that the call took or gave.
//! - `write_whole` writes all bytes, in order and each once; a fault comes only of the link, and then the first of
//!   them were taken, and not all.
//! - `TcpLink` is a link over TCP that tells its traffic: of each write the bytes that the system took, of each read
//!   those that it gave. The record of them (`Told`, private) takes no byte, so no proof holds it to the calls of the
//!   system: `read_now`, `write_once`, and the `dial` and `write` of a `TcpLink` have to be read. What was taken may be
//!   lost.
//! - It dials the address that it was given; or of the hosts that it was given the one whose turn it is, at an address
//!   that this host was looked up to for that dial (`TcpLink::connect`, private, asks for it). An IP in place of a name
//!   stands for itself alone. Behind a dial the next host has its turn, and behind a session that came up the first.
//! - That a read of it doesn't wait, that a rest ends, and that a `Bell` ends it, is only tested.
//!
//! See `docs/worker.md`.
#![tactic(auto)]

mod bell;
mod dial_error;
mod goal;
mod got;
mod host;
mod link;
mod link_fault;
mod poller;
mod rest;
mod tcp_link;
mod told;
mod whole;

pub use bell::Bell;
pub use dial_error::{DialError, LastDial};
pub use goal::Goal;
pub use got::Got;
pub use host::Host;
pub use link::Link;
pub use link_fault::LinkFault;
pub use poller::Poller;
pub use rest::Rest;
pub use tcp_link::TcpLink;
pub use whole::write_whole;
