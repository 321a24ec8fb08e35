//! What plays cases on messages: single values, and envelopes with the bodies of a session.
#![tactic(auto)]

mod body_in;
mod body_text;
mod config;
mod envelope;
mod player;
mod reading;
mod value;

pub use player::MessagesPlayer;
