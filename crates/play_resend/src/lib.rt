//! What plays cases on a session's numbers. `cases/resend/README.md` has the commands.
#![tactic(auto)]

mod player;
mod tell;

pub use player::ResendPlayer;
