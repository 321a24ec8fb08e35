//! What plays cases on the lines of a journal, which are told, kept, cut by a crash, damaged, and read. The files of
//! `cases/journal` say at their heads which commands there are.
#![tactic(auto)]

mod player;
mod words;

pub use player::JournalPlayer;
