//! The exchange serves its clients.
ghost use Rattle.std.specs.Prelude.{IfErr};
ghost use Rattle.exchange_command.specs.Running.{IsOfServing};

use crate::fault::CommandFault;
use clock::Clock;
use dialect::Dialect;
use exchange_sim::Acceptor;
use std::alloc::AllocError;
use std::io::{ErrorKind, Read, Write};
use std::net::{OpenListener, OpenStream};

/// How many bytes are read at once.
const MOST_READ: usize = 4_096;

/// Serves one client after another, until one leaves after a Logout. It fails only where the system gives no client any
/// more, and for lack of memory.
pub fn serve<L, D, C>(listener: &L, acceptor: &mut Acceptor<D, C>) -> Result<(), CommandFault>
where
    L: OpenListener,
    L::Stream: Read + Write + OpenStream,
    D: Dialect,
    C: Clock,
    ensures { IfErr result IsOfServing }
{
    for client in listener.incoming() {
        match client {
            Ok(mut stream) => serve_client(&mut stream, acceptor)?,
            Err(error) if is_passing(error.kind()) => {}
            Err(_) => return Err(CommandFault::AcceptFailed),
        }
        if is_left_for_good(acceptor) {
            break;
        }
    }
    Ok(())
}

/// Whether another client may be accepted after a failure of this kind.
fn is_passing(kind: ErrorKind) -> bool {
    matches!(kind, ErrorKind::ConnectionAborted | ErrorKind::Interrupted)
}

/// Whether the last client left after a Logout. Where the exchange cut its connection it may come back.
fn is_left_for_good<D: Dialect, C: Clock>(acceptor: &Acceptor<D, C>) -> bool {
    acceptor.is_connected() && acceptor.exchange().closed_at().is_some()
}

/// Serves a client until it leaves, or the exchange cuts its connection. The only refusal is out of memory.
fn serve_client<S: Read + Write + OpenStream, D: Dialect, C: Clock>(
    stream: &mut S,
    acceptor: &mut Acceptor<D, C>,
) -> Result<(), AllocError> {
    let _ = stream.set_nodelay(true);
    acceptor.connect();
    for _ in 0..u64::MAX {
        if !goes_on(stream, acceptor)? {
            break;
        }
    }
    Ok(())
}

/// Reads once, takes what came, and writes what is answered. It says whether the connection goes on.
fn goes_on<S: Read + Write, D: Dialect, C: Clock>(
    stream: &mut S,
    acceptor: &mut Acceptor<D, C>,
) -> Result<bool, AllocError> {
    let mut buf = [0; MOST_READ];
    let count = match stream.read(&mut buf) {
        Ok(0) => return Ok(false),
        Ok(count) => count,
        Err(error) => return Ok(error.kind() == ErrorKind::Interrupted),
    };
    acceptor.receive(&buf[..count])?;
    let waiting = acceptor.waiting();
    let waits = waiting.len();
    let is_taken = stream.write_all(waiting).is_ok();
    acceptor.pass(waits);
    Ok(is_taken && acceptor.is_connected())
}
