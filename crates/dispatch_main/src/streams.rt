//! The standard streams at the program's start.

use std::alloc::Global;
use std::fs::{File, OpenOptions};
use std::os::fd::AsRawFd;

/// How many standard streams there are; their descriptors are the numbers below it.
const STREAMS: i32 = 3;

/// `/dev/null`, opened against the direction of a standard stream: to write in the place of standard input, and to read in
/// that of an output. It has the lowest descriptor that is free.
fn open_null(rt: &HostRuntime, is_input: bool) -> Option<File> {
    OpenOptions::new()
        .read(!is_input)
        .write(is_input)
        .open(rt, "/dev/null")
        .ok()
}

/// Files in the place of the standard streams that are closed, for as long as they are held, so that nothing that is opened
/// later gets the descriptor of one. A read or a write of a stream fails as it did while it was closed.
pub fn hold_closed_streams(rt: &HostRuntime, alloc: Global) -> Vec<File> {
    let mut held = Vec::new(alloc);
    for is_input in [true, false, false] {
        let Some(file) = open_null(rt, is_input) else {
            break;
        };
        let is_of_its_kind = is_input == (file.as_raw_fd() == 0);
        if file.as_raw_fd() < STREAMS && is_of_its_kind && held.push(file).is_err() {
            break;
        }
    }
    held
}
