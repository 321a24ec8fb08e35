//! A case file is played.

use crate::answers::Answers;
use crate::fault::PlayFault;
use crate::line::Line;
use std::alloc::Global;
use std::io;
use std::io::{BufRead, Write};

/// What carries out the commands of a case file.
pub trait Player {
    /// Begins a case: nothing of the one before is left.
    fn begin(&mut self) -> Result<(), PlayFault>;

    /// Carries out a command.
    fn command(&mut self, line: &str, answers: &mut Answers) -> Result<(), PlayFault>;
}

/// The answers to a line, which are none where it isn't a command.
fn answer<P: Player>(player: &mut P, text: &str, answers: &mut Answers) -> Result<(), PlayFault> {
    match Line::of(text) {
        Line::Wanted | Line::Note => Ok(()),
        Line::Case(_) => player.begin(),
        Line::Command(line) => player.command(line, answers),
    }
}

/// Plays a line: writes it again unless it was wanted, and then the answers to it.
fn play_line<W: Write, P: Player>(
    alloc: Global,
    text: &str,
    out: &mut W,
    player: &mut P,
) -> io::Result<()> {
    if Line::of(text) != Line::Wanted {
        writeln!(out, "{text}")?;
    }
    let mut answers = Answers::new(alloc);
    match answer(player, text, &mut answers) {
        Ok(()) => {}
        Err(PlayFault::NotUnderstood) => answers.refuse()?,
        Err(PlayFault::OutOfMemory) => return Err(io::ErrorKind::OutOfMemory.into()),
    }
    out.write_all(answers.text().as_bytes())
}

/// Plays a case file to its end.
pub fn play<R: BufRead + Drop, W: Write, P: Player>(
    alloc: Global,
    input: R,
    out: &mut W,
    player: &mut P,
) -> io::Result<()> {
    for line in input.lines(alloc) {
        play_line(alloc, &line?, out, player)?;
    }
    Ok(())
}
