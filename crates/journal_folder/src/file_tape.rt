//! A file as a tape.

ghost use Rattle.std.specs.Prelude.{◌≡◌, IfOk, length};
ghost use Rattle.journal_tape.specs.Tape.{Only, zeros};
ghost use Rattle.journal_folder.specs.FileCalls.{Leaves, LeftSince, counts_now, end_after, only_now, seen_after};

use crate::durable::Durable;
use crate::shown::Shown;
use journal_tape::{Tape, TapeFault};
use std::fs::{File, Files, OpenOptions};
use std::io;
use std::io::{ErrorKind, Write};
use std::os::unix::fs::{FileExt, OpenOptionsExt};

/// How many zeros are written at once.
const ZEROS: [u8; 4096] = [0; 4096];

/// A file of a fixed length, which began with zeros and which no other hand writes. What it has on the disk is told by
/// the calls on it: the system isn't part of any proof.
#[derive(Drop)]
pub struct FileTape {
    file: File,
    durable: Durable,
    room: usize,
    end: usize,
    shown: Shown,
    pub ghost end_is: { end ≡ end_after shown.calls },
}

/// Writes so many zeros, and puts them on the disk.
fn fill(file: &mut File, room: usize) -> io::Result<()> {
    let mut left = room;
    while left > 0 {
        let count = left.min(ZEROS.len());
        file.write_all(&ZEROS[..count])?;
        left -= count;
    }
    file.sync_all()
}

/// How a file is made.
#[derive(Clone, Copy, Debug, PartialEq, Eq)]
pub enum Making {
    /// It isn't there.
    New,
    /// It may be there, and what it has doesn't count.
    Again,
}

/// Makes a file of so many zeros, which this user alone may read. Once it is there, it is made again at another try.
fn make_file<R: Files<File = File>>(
    rt: &R,
    path: &str,
    making: &mut Making,
    room: usize,
    durable: Durable,
) -> io::Result<File> {
    let mut options = OpenOptions::new();
    options.write(true).mode(0o600);
    match *making {
        Making::New => options.create_new(true),
        Making::Again => options.create(true).truncate(true),
    };
    let mut file = options.open(rt, path)?;
    *making = Making::Again;
    match durable {
        Durable::Process => file.set_len(room as u64)?,
        Durable::Power => fill(&mut file, room)?,
    }
    Ok(file)
}

impl FileTape {
    /// Makes a file of so many zeros, all of them on the disk where it is to outlive a loss of power. That it stands in
    /// its folder there is the caller's to see to. Once the file is there, it is made again at another try.
    pub fn make<R: Files<File = File>>(
        rt: &R,
        path: &str,
        making: &mut Making,
        room: usize,
        durable: Durable,
    ) -> io::Result<FileTape>
        ensures zeros { IfOk result (λ tape. seen_after tape.room tape.shown.calls ≡ zeros room) }
        ensures durable { IfOk result (λ tape. Only (seen_after tape.room tape.shown.calls)
            (Leaves tape.room tape.shown.calls)) }
    {
        let file = make_file(rt, path, making, room, durable)?;
        Ok(FileTape {
            file,
            durable,
            room,
            end: 0,
            shown: Shown::new(),
        })
    }
}

/// Why bytes weren't written.
fn fault_of(error: &io::Error) -> TapeFault {
    match error.kind() {
        ErrorKind::StorageFull => TapeFault::Full,
        _ => TapeFault::Failed,
    }
}

impl Tape for FileTape {
    ghost seen = { λ tape. seen_after tape.room tape.shown.calls };

    ghost may_leave = { λ tape c. Leaves tape.room tape.shown.calls c };

    ghost moment = { λ tape. length tape.shown.calls };

    ghost left_since = { λ tape t c. LeftSince tape.room tape.shown.calls t c };

    ghost counts_now = { λ tape t c le left. counts_now tape.room tape.shown.calls t c le left };

    ghost only_now = { λ tape c left. only_now tape.room tape.shown.calls c left };

    /// Bytes go behind those that were written, and nowhere else.
    #[tactic(auto, using(crate::proofs::Calls::written, crate::proofs::Calls::mixes, crate::proofs::Calls::time_more, crate::proofs::Calls::time_same, crate::proofs::Calls::end_more))]
    fn write_at(&mut self, at: usize, bytes: &[u8]) -> Result<(), TapeFault> {
        if at != self.end {
            return Err(TapeFault::Failed);
        }
        let Some(end) = at.checked_add(bytes.len()) else {
            return Err(TapeFault::Full);
        };
        self.shown = self.shown.writing(bytes);
        self.end = end;
        match self.file.write_all_at(bytes, at as u64) {
            Ok(()) => Ok(()),
            Err(error) => Err(fault_of(&error)),
        }
    }

    /// With `Durable::Process` the system has all that was written, and nothing is asked of it.
    #[tactic(auto, using(crate::proofs::Calls::synced_seen, crate::proofs::Calls::synced_only, crate::proofs::Calls::synced_leaves, crate::proofs::Calls::synced_end, crate::proofs::Calls::time_more, crate::proofs::Calls::time_same))]
    fn sync(&mut self) -> Result<(), TapeFault> {
        let done = match self.durable {
            Durable::Process => Ok(()),
            Durable::Power => self.file.sync_data(),
        };
        match done {
            Ok(()) => {
                self.shown = self.shown.synced();
                Ok(())
            }
            Err(error) => Err(fault_of(&error)),
        }
    }
}
