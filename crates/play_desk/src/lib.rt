//! What plays cases on the desk and on the book. `cases/desk/README.md` has the commands.
#![tactic(auto)]

mod book_calls;
mod desk_calls;
mod history;
mod note_text;
mod note_words;
mod player;
mod sweep_text;

pub use player::DeskPlayer;
