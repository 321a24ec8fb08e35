//! The program `play`: plays a case file, from the standard input to the standard output. It writes the file with the
//! answers as they are.
//!
//! A line `layer NAME` says what the cases below it are on: `frames`, `messages`, `dialects`, `resend`, `session`,
//! `exchange`, `desk`, `book`, `config`, `lines`, `news`, `logs` or `journal`. A command before the first such line
//! isn't understood.
#![tactic(auto)]

mod layer;
mod layered_player;

use crate::layered_player::LayeredPlayer;
use case_text::play;
use std::io;
use std::io::{BufReader, BufWriter, Write};

fn main(rt: HostRuntime) -> io::Result<()> {
    let alloc = rt.alloc();
    let input = BufReader::new(alloc, rt.reader())?;
    let mut out = BufWriter::new(alloc, io::writer(&rt))?;
    play(alloc, input, &mut out, &mut LayeredPlayer::new(alloc))?;
    out.flush()
}
