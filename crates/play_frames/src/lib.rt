//! What plays cases on frames: streams that are fed, fields that are written, and texts of fields.
#![tactic(auto)]

mod given;
mod lookup;
mod player;
mod stream;
mod writer;

pub use player::FramesPlayer;
