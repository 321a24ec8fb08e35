//! The program `play_api`: plays a case file of `cases/api`, from the standard input to the standard output. It writes
//! the file with the answers as they are. `cases/api/README.md` has the commands.
#![tactic(auto)]

mod beside;
mod executions;
mod made_up_day;
mod player;
mod venues;
mod words;

use crate::player::ApiPlayer;
use case_text::play;
use std::io;
use std::io::{BufReader, BufWriter, Write};

fn main(rt: HostRuntime) -> io::Result<()> {
    let alloc = rt.alloc();
    let input = BufReader::new(alloc, rt.reader())?;
    let mut out = BufWriter::new(alloc, io::writer(&rt))?;
    play(alloc, input, &mut out, &mut ApiPlayer::new(alloc))?;
    out.flush()
}
