//! What a log is called.

ghost use Rattle.std.specs.Prelude.{◌≡◌, ◌≤◌, length, map, IfOk, IfSome, option_map, true};
ghost use Rattle.std.specs.Option.{option_to_list};
ghost use Rattle.check_command.specs.PathName.{AreNames, file_name, is_sweeps, sweeps_paths, venue_name};

use crate::fault::CommandFault;
use desk_words::VenueName;
use std::alloc::Global;

/// The most venues of a day.
const MOST: usize = 16;

const SWEEPS: &[u8; 10] = b"sweeps.log";

/// What a path ends with: the name of a file.
fn file_name(path: &[u8]) -> &[u8]
    ensures { result.now ≡ file_name path.now }
{
    let mut name = path;
    for place in 0..path.len() {
        if path[place] == b'/' {
            name = &path[place + 1..];
        }
    }
    name
}

/// Whether a log is that of a desk's lines: it is called `sweeps.log`.
pub(crate) fn is_sweeps(path: &str) -> bool
    ensures { result ≡ is_sweeps path.now }
{
    file_name(path.as_bytes()) == SWEEPS.as_slice()
}

/// The log of a desk's lines among the logs, if there is one; two are refused.
pub(crate) fn sweeps_of<'a>(paths: &[&'a str]) -> Result<Option<&'a str>, CommandFault>
    ensures { IfOk result (λ found. option_to_list (option_map (λ path. path.now) found)
        ≡ sweeps_paths (map (λ path. path.now) paths.now)) }
{
    let mut sweeps = None;
    for path in paths {
        if is_sweeps(path) {
            if sweeps.is_some() {
                return Err(CommandFault::BadName);
            }
            sweeps = Some(*path);
        }
    }
    Ok(sweeps)
}

/// The names of the venues after which the logs are called, but for the log of a desk's lines: at most 16, no two
/// alike.
pub(crate) fn venue_names(alloc: Global, paths: &[&str]) -> Result<Vec<VenueName>, CommandFault>
    ensures few { IfOk result (λ names. length names.items ≤ 16) }
    ensures names { IfOk result (λ names. AreNames names.items (map (λ path. path.now) paths.now)) }
{
    let mut names = Vec::new(alloc);
    for path in paths {
        if !is_sweeps(path) {
            let name = venue_of(path).ok_or(CommandFault::BadName)?;
            if names.len() >= MOST || names.contains(&name) {
                return Err(CommandFault::BadName);
            }
            if names.push(name).is_err() {
                return Err(CommandFault::OutOfMemory);
            }
        }
    }
    Ok(names)
}

/// The venue after which a log is called, as `NYSE` of `day/NYSE.log`.
fn venue_of(path: &str) -> Option<VenueName>
    ensures { IfSome result (λ name. name ≡ venue_name path.now) }
{
    match file_name(path.as_bytes()) {
        [name @ .., b'.', b'l', b'o', b'g'] => VenueName::new(name),
        _ => None,
    }
}
