//! What plays cases on a session with an exchange. `cases/session/README.md` has the commands.
#![tactic(auto)]

mod act;
mod act_words;
mod call_context;
mod note_text;
mod player;
mod recorded_session;
mod setup;
mod standing;
mod tell;
mod trial_run;

pub use player::SessionPlayer;
