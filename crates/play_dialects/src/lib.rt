//! What plays cases on legs, and on orders, reports and messages as each dialect spells them.
#![tactic(auto)]

mod content_in;
mod content_text;
mod leg_text;
mod legs;
mod message;
mod order;
mod player;
mod report;
mod text;

pub use player::DialectsPlayer;
