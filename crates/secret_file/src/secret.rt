//! The secret of a file.

ghost use Rattle.std.specs.Prelude.{◌≡◌, IfErr, IfOk};
ghost use Rattle.std.specs.Io.BufRead.{strip_last};
ghost use Rattle.secret_file.specs.Secret.{is_open_to_others, secret_of};

use crate::fault::SecretFault;
use command_line::read_up_to;
use desk_words::Printable;
use std::alloc::Global;
use std::fs;
use std::fs::{Files, OpenFile};
use std::io::ErrorKind;
use std::os::unix::fs::PermissionsExt;

/// The bits of a mode that give others than the owner a right.
const OTHERS: u32 = 0o077;

/// Whether a mode gives others than a file's owner a right.
fn is_open_to_others(mode: u32) -> bool
    ensures { result ≡ is_open_to_others mode }
{
    mode & OTHERS != 0
}

/// A text without the line feed at its end.
fn without_feed(text: &[u8]) -> &[u8]
    ensures { result.now ≡ strip_last 10 text.now }
{
    match text {
        [rest @ .., b'\n'] => rest,
        text => text,
    }
}

/// A text without the carriage return at its end.
fn without_return(text: &[u8]) -> &[u8]
    ensures { result.now ≡ strip_last 13 text.now }
{
    match text {
        [rest @ .., b'\r'] => rest,
        text => text,
    }
}

/// The secret that a file's text is.
fn secret_of<const N: usize>(text: &[u8]) -> Option<Printable<N>>
    ensures { result ≡ secret_of N text.now }
{
    Printable::new(without_return(without_feed(text)))
}

/// The secret that a file of this path has: one line of 1 to N printable bytes, whose end may be missing. A file that
/// others than its owner may open is refused before it is read.
pub fn read_secret<const N: usize, R: Files>(
    rt: &R,
    alloc: Global,
    path: &str,
) -> Result<Printable<N>, SecretFault> {
    let mut file = match fs::open(rt, path) {
        Ok(file) => file,
        Err(error) if error.kind() == ErrorKind::OutOfMemory => {
            return Err(SecretFault::OutOfMemory);
        }
        Err(_) => return Err(SecretFault::NoFile),
    };
    let Ok(metadata) = file.metadata() else {
        return Err(SecretFault::ReadFailed);
    };
    if is_open_to_others(metadata.permissions().mode()) {
        return Err(SecretFault::OpenToOthers);
    }
    // One byte more than a secret and its end may have.
    let most = (N as u64).saturating_add(3);
    let text = read_up_to(alloc, most, &mut file)?;
    match secret_of(text.as_slice()) {
        Some(secret) => Ok(secret),
        None => Err(SecretFault::BadLine { most: N }),
    }
}
