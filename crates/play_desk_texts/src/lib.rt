//! What plays cases on the texts of a desk: its file, its lines and their answers, what it is told, and its logs.
//! `cases/config`, `cases/lines`, `cases/news` and `cases/logs` say at their heads which commands they have.
#![tactic(auto)]

mod answer_words;
mod config_text;
mod ending_words;
mod leg_words;
mod lines;
mod log_text;
mod news_words;
mod player;
mod say;
mod status_words;

pub use player::DeskTextsPlayer;
