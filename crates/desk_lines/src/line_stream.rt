//! A client's connection, over TCP or a Unix socket, and where clients come in.

use std::fs::{self, Files};
use std::io::{self, ErrorKind, Read, Write};
use std::net::{Net, Shutdown, SocketAddr, TcpListener, TcpStream};
use std::os::fd::{AsRawFd, RawFd};
use std::os::unix::fs::MetadataExt;
use std::os::unix::net::{UnixListener, UnixStream};
use std::time::Duration;

/// The bits of a mode that say what a file is, and those of a socket.
const KIND: u32 = 0o170000;

const SOCKET: u32 = 0o140000;

/// Where clients come in.
#[derive(Drop)]
pub(crate) enum LineListener {
    Tcp(TcpListener),
    Unix(UnixListener),
}

/// A client's connection.
#[derive(Drop)]
pub(crate) enum LineStream {
    Tcp(TcpStream),
    Unix(UnixStream),
}

/// Whether a path is that of a socket.
fn is_socket(files: &impl Files, path: &str) -> bool {
    match fs::symlink_metadata(files, path) {
        Ok(metadata) => metadata.mode() & KIND == SOCKET,
        Err(_) => false,
    }
}

/// Removes the socket of this path, if it is one.
pub(crate) fn remove_socket(files: &impl Files, path: &str) {
    if is_socket(files, path) {
        let _ = fs::remove_file(files, path);
    }
}

/// Removes a socket on which nobody listens, as one that a killed dispatcher left. A stuck listener isn't waited for.
fn remove_dead_socket<R: Net + Files>(rt: &R, path: &str) {
    match mio::net::UnixStream::connect(rt, path) {
        Err(fault) if fault.kind() == ErrorKind::ConnectionRefused => remove_socket(rt, path),
        _ => {}
    }
}

impl LineListener {
    /// One at an address, whose accepts don't wait.
    pub fn at<R: Net<Listener = TcpListener, Stream = TcpStream>>(
        rt: &R,
        address: SocketAddr,
    ) -> io::Result<LineListener> {
        let listener = TcpListener::bind(rt, address)?;
        listener.set_nonblocking(true)?;
        Ok(LineListener::Tcp(listener))
    }

    /// One on a Unix socket of this path, whose accepts don't wait. A socket on which nobody listens makes room for it.
    pub fn on<R: Net + Files>(rt: &R, path: &str) -> io::Result<LineListener> {
        remove_dead_socket(rt, path);
        let listener = UnixListener::bind(rt, path)?;
        listener.set_nonblocking(true)?;
        Ok(LineListener::Unix(listener))
    }

    /// By which the system tells whether a client comes.
    pub fn fd(&self) -> RawFd {
        match self {
            LineListener::Tcp(listener) => listener.as_raw_fd(),
            LineListener::Unix(listener) => listener.as_raw_fd(),
        }
    }

    /// The next client.
    pub fn accept(&self) -> io::Result<LineStream> {
        match self {
            LineListener::Tcp(listener) => {
                let (client, _) = listener.accept()?;
                Ok(LineStream::Tcp(client))
            }
            LineListener::Unix(listener) => {
                let (client, _) = listener.accept()?;
                Ok(LineStream::Unix(client))
            }
        }
    }
}

impl LineStream {
    /// Reads and writes wait from now on, so long at most. What is written leaves at once.
    pub fn prepare(&self, most: Duration) -> io::Result<()> {
        match self {
            LineStream::Tcp(stream) => {
                stream.set_nonblocking(false)?;
                stream.set_nodelay(true)?;
                stream.set_read_timeout(Some(most))?;
                stream.set_write_timeout(Some(most))
            }
            LineStream::Unix(stream) => {
                stream.set_nonblocking(false)?;
                stream.set_read_timeout(Some(most))?;
                stream.set_write_timeout(Some(most))
            }
        }
    }

    /// Reads wait so long at most from now on.
    pub fn set_read_timeout(&self, most: Duration) -> io::Result<()> {
        match self {
            LineStream::Tcp(stream) => stream.set_read_timeout(Some(most)),
            LineStream::Unix(stream) => stream.set_read_timeout(Some(most)),
        }
    }

    /// Another handle of the connection.
    pub fn try_clone(&self) -> io::Result<LineStream> {
        match self {
            LineStream::Tcp(stream) => Ok(LineStream::Tcp(stream.try_clone()?)),
            LineStream::Unix(stream) => Ok(LineStream::Unix(stream.try_clone()?)),
        }
    }

    /// Nothing more is written.
    pub fn end_writing(&self) -> io::Result<()> {
        match self {
            LineStream::Tcp(stream) => stream.shutdown(Shutdown::Write),
            LineStream::Unix(stream) => stream.shutdown(Shutdown::Write),
        }
    }

    /// By which the system tells whether it may be read.
    pub fn fd(&self) -> RawFd {
        match self {
            LineStream::Tcp(stream) => stream.as_raw_fd(),
            LineStream::Unix(stream) => stream.as_raw_fd(),
        }
    }
}

impl Read for LineStream {
    fn read(&mut self, buf: &mut [u8]) -> io::Result<usize> {
        match self {
            LineStream::Tcp(stream) => stream.read(buf),
            LineStream::Unix(stream) => stream.read(buf),
        }
    }
}

impl Write for LineStream {
    fn write(&mut self, buf: &[u8]) -> io::Result<usize> {
        match self {
            LineStream::Tcp(stream) => stream.write(buf),
            LineStream::Unix(stream) => stream.write(buf),
        }
    }

    fn flush(&mut self) -> io::Result<()> {
        match self {
            LineStream::Tcp(stream) => stream.flush(),
            LineStream::Unix(stream) => stream.flush(),
        }
    }
}
