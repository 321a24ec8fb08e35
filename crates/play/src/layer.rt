//! A layer that cases are on.

use play_desk::DeskPlayer;
use play_desk_texts::DeskTextsPlayer;
use play_dialects::DialectsPlayer;
use play_exchange::ExchangePlayer;
use play_frames::FramesPlayer;
use play_journal::JournalPlayer;
use play_messages::MessagesPlayer;
use play_resend::ResendPlayer;
use play_session::SessionPlayer;
use std::alloc::Global;

/// A layer that cases are on, with what plays them.
#[derive(Drop)]
pub enum Layer {
    Frames(FramesPlayer),
    Messages(MessagesPlayer),
    Dialects(DialectsPlayer),
    Resend(ResendPlayer),
    Session(SessionPlayer),
    Exchange(ExchangePlayer),
    Desk(DeskPlayer),
    DeskTexts(DeskTextsPlayer),
    Journal(JournalPlayer),
}

impl Layer {
    /// The layer of this name, with nothing of a case yet. Cases on the book are played as those on the desk, and one
    /// player plays those on the file of a desk, its lines, its news and its logs.
    pub fn named(alloc: Global, name: &str) -> Option<Layer> {
        match name {
            "frames" => Some(Layer::Frames(FramesPlayer::new(alloc))),
            "messages" => Some(Layer::Messages(MessagesPlayer::new(alloc))),
            "dialects" => Some(Layer::Dialects(DialectsPlayer::new(alloc))),
            "resend" => Some(Layer::Resend(ResendPlayer::new(alloc))),
            "session" => Some(Layer::Session(SessionPlayer::new(alloc))),
            "exchange" => Some(Layer::Exchange(ExchangePlayer::new(alloc))),
            "desk" | "book" => Some(Layer::Desk(DeskPlayer::new(alloc))),
            "config" | "lines" | "news" | "logs" => {
                Some(Layer::DeskTexts(DeskTextsPlayer::new(alloc)))
            }
            "journal" => Some(Layer::Journal(JournalPlayer::new(alloc))),
            _ => None,
        }
    }
}
