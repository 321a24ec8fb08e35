//! What the process uses of the machine, as Linux says it.

use desk_http::ProcessUse;
use fix_tags::read_number;
use memchr::memrchr;
use std::fs::File;
use std::os::unix::fs::FileExt;
use text_pieces::Pieces;

/// The file that says it.
pub const PROCESS_FILE: &str = "/proc/self/stat";

/// A tick of processor time, in microseconds.
const TICK: u64 = 10_000;

/// A page of memory, in bytes.
const PAGE: u64 = 4_096;

/// The most bytes of that file.
const MAX_LINE: usize = 1_024;

/// What the process uses by that file, if it was opened.
pub(crate) fn process_use(file: &Option<File>) -> Option<ProcessUse> {
    let file = file.as_ref()?;
    let mut line = [0; MAX_LINE];
    let length = file.read_at(&mut line, 0).ok()?;
    use_in(line.get(..length)?)
}

/// What a process uses, by its line. Behind its name, which may have spaces, the 12th and 13th words are its ticks as a
/// user and in the system, the 21st its bytes and the 22nd its resident pages.
fn use_in(line: &[u8]) -> Option<ProcessUse> {
    let name_end = memrchr(b')', line)?;
    let mut words = Pieces::new(b' ', line.get(name_end..)?);
    skip(&mut words, 12);
    let user = read_number(words.next()?)?;
    let system = read_number(words.next()?)?;
    skip(&mut words, 7);
    let mapped = read_number(words.next()?)?;
    let pages = read_number(words.next()?)?;
    Some(ProcessUse {
        cpu: user.saturating_add(system).saturating_mul(TICK),
        resident: pages.saturating_mul(PAGE),
        mapped,
    })
}

/// Passes over words.
fn skip(words: &mut Pieces<'_>, count: usize) {
    for _ in 0..count {
        words.next();
    }
}
