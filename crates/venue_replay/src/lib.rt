//! A venue of the world: the dispatcher's session and the exchange, and every frame ever written between them, as
//! bytes. What happens there is defined in crate `schedule`.
#![tactic(auto)]

mod ends;
mod frame;
mod inbound;
mod keep;
mod moment;
mod network;
mod sending;
mod step_call;
mod venue;

pub use frame::Frame;
pub use inbound::Inbound;
pub use sending::Sending;
pub use venue::Venue;
