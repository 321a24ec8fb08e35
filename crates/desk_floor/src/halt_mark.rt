//! What outlives the process of a desk that is halted.

use std::fs::{File, Files, OpenOptions};
use std::io::{self, ErrorKind};
use std::os::unix::fs::{FileExt, MetadataExt, OpenOptionsExt};
use std::sync::Mutex;

/// A file beside the day's journals, which isn't empty while the desk is halted.
#[derive(Drop)]
pub struct HaltMark {
    file: File,
    /// Whoever sets or clears it holds this meanwhile.
    pub(crate) turn: Mutex<()>,
}

impl HaltMark {
    /// The mark at this path, which is made if it isn't there.
    pub fn open<R: Files<File = File>>(rt: &R, path: &str) -> io::Result<HaltMark> {
        let mut options = OpenOptions::new();
        options.write(true).create(true).mode(0o600);
        Ok(HaltMark {
            file: options.open(rt, path)?,
            turn: Mutex::new(()),
        })
    }

    /// Whether the desk was halted.
    pub fn is_set(&self) -> io::Result<bool> {
        Ok(self.file.metadata()?.len() > 0)
    }

    /// From now on a desk that is started again is halted. Refused where the file was removed, so that it finds none.
    pub(crate) fn set(&self) -> io::Result<()> {
        self.file.write_all_at(b"halted\n", 0)?;
        self.file.sync_all()?;
        if self.file.metadata()?.nlink() == 0 {
            return Err(io::Error::from(ErrorKind::NotFound));
        }
        Ok(())
    }

    /// From now on it isn't.
    pub(crate) fn clear(&self) -> io::Result<()> {
        self.file.set_len(0)?;
        self.file.sync_all()
    }
}
