//! The words of a command line.

use std::{env, io};

fn words_once(rt: &HostRuntime) -> io::Result<Vec<String>> {
    let words: Vec<String> = env::args(rt)?.collect(rt.alloc())?;
    Ok(words)
}

/// The words of the command line, of which the first is the program's own name; had at the second try where the first
/// is refused.
pub fn words(rt: &HostRuntime) -> io::Result<Vec<String>> {
    match words_once(rt) {
        Err(_) => words_once(rt),
        words => words,
    }
}
