//! An input that fails where a file wouldn't.

use replay_command::replay_run;
use std::io::{self, IsTerminal, Read, Write};

/// An input that gives a first line, and then fails.
#[derive(Drop)]
struct Broken {
    is_read: bool,
}

impl Read for Broken {
    fn read(&mut self, buf: &mut [u8]) -> io::Result<usize> {
        if self.is_read {
            return Err(io::Error::from(io::ErrorKind::BrokenPipe));
        }
        self.is_read = true;
        let line = b"venues 1000 plain\n";
        let count = line.len().min(buf.len());
        buf[..count].copy_from_slice(&line[..count]);
        Ok(count)
    }
}

/// What was written to standard error, which is a terminal or not.
#[derive(Drop)]
struct Screen {
    text: Vec<u8>,
    is_terminal: bool,
}

impl Write for Screen {
    fn write(&mut self, buf: &[u8]) -> io::Result<usize> {
        self.text.write(buf)
    }

    fn flush(&mut self) -> io::Result<()> {
        self.text.flush()
    }
}

impl IsTerminal for Screen {
    fn is_terminal(&self) -> bool {
        self.is_terminal
    }
}

#[test]
fn an_input_that_cannot_be_read_is_told(rt: HostRuntime) {
    let alloc = rt.alloc();
    let mut out = Vec::new(alloc);
    let mut err = Screen {
        text: Vec::new(alloc),
        is_terminal: false,
    };
    let status = replay_run(
        &rt,
        alloc,
        &["replay"],
        &mut Broken { is_read: false },
        &mut out,
        &mut err,
    );
    assert_eq!(rt; status, 4);
    assert_eq!(rt; err.text.as_slice(), &b"dispatch: read failed\n"[..]);
    assert!(rt; out.is_empty());
}
