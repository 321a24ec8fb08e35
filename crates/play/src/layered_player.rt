//! What plays a case file of any layer.

use crate::layer::Layer;
use case_text::{Answers, PlayFault, Player};
use std::alloc::Global;

/// Plays the cases of the layer that was named last.
#[derive(Drop)]
pub struct LayeredPlayer {
    alloc: Global,
    layer: Option<Layer>,
}

impl LayeredPlayer {
    /// No layer is named yet.
    pub fn new(alloc: Global) -> LayeredPlayer {
        LayeredPlayer { alloc, layer: None }
    }
}

/// Begins a case of a layer.
fn begin(layer: &mut Layer) -> Result<(), PlayFault> {
    match layer {
        Layer::Frames(player) => player.begin(),
        Layer::Messages(player) => player.begin(),
        Layer::Dialects(player) => player.begin(),
        Layer::Resend(player) => player.begin(),
        Layer::Session(player) => player.begin(),
        Layer::Exchange(player) => player.begin(),
        Layer::Desk(player) => player.begin(),
        Layer::DeskTexts(player) => player.begin(),
        Layer::Journal(player) => player.begin(),
    }
}

/// Carries out a command of a layer.
fn command(layer: &mut Layer, line: &str, answers: &mut Answers) -> Result<(), PlayFault> {
    match layer {
        Layer::Frames(player) => player.command(line, answers),
        Layer::Messages(player) => player.command(line, answers),
        Layer::Dialects(player) => player.command(line, answers),
        Layer::Resend(player) => player.command(line, answers),
        Layer::Session(player) => player.command(line, answers),
        Layer::Exchange(player) => player.command(line, answers),
        Layer::Desk(player) => player.command(line, answers),
        Layer::DeskTexts(player) => player.command(line, answers),
        Layer::Journal(player) => player.command(line, answers),
    }
}

impl Player for LayeredPlayer {
    fn begin(&mut self) -> Result<(), PlayFault> {
        match &mut self.layer {
            Some(layer) => begin(layer),
            None => Ok(()),
        }
    }

    fn command(&mut self, line: &str, answers: &mut Answers) -> Result<(), PlayFault> {
        if let Some(name) = line.strip_prefix("layer ") {
            self.layer = Layer::named(self.alloc, name);
            return match self.layer {
                Some(_) => Ok(()),
                None => Err(PlayFault::NotUnderstood),
            };
        }
        match &mut self.layer {
            Some(layer) => command(layer, line, answers),
            None => Err(PlayFault::NotUnderstood),
        }
    }
}
