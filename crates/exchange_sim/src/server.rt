//! A server round a simulated exchange.

ghost use Rattle.std.specs.Prelude.{◌≡◌, false, OnOk};

use crate::acceptor::Acceptor;
use crate::port::Port;
use crate::stream::{Heard, hear, say};
use clock::Clock;
use dialect::Dialect;
use std::alloc::AllocError;
use std::io::{Read, Write};
use std::sync::atomic::{AtomicBool, Ordering};

/// How many bytes a turn reads at most.
const MOST_READ: usize = 1_024;

/// Serves one client after another until `is_over`, or for so many turns, each of which waits for a client or its bytes
/// as long as the port has it. Where a connection fails, or the plan cuts it, the next client is waited for. The only
/// refusal is out of memory.
pub fn serve<D: Dialect, C: Clock>(
    port: &mut Port,
    acceptor: &mut Acceptor<D, C>,
    is_over: &AtomicBool,
    turn_limit: u64,
) -> Result<(), AllocError>
    ensures { OnOk result (acceptor.new.is_connected ≡ false) }
{
    let mut client = None;
    for _ in 0..turn_limit {
        if is_over.load(Ordering::SeqCst) {
            break;
        }
        client = match client {
            Some(stream) => served(stream, port, acceptor)?,
            None => greeted(port.next_client(), acceptor),
        };
    }
    acceptor.disconnect();
    Ok(())
}

/// Where a client came its connection begins.
fn greeted<S, D: Dialect, C: Clock>(client: Option<S>, acceptor: &mut Acceptor<D, C>) -> Option<S> {
    if client.is_some() {
        acceptor.connect();
    }
    client
}

/// Serves a client for a turn, and gives it back unless its connection ended.
fn served<S: Read + Write + Drop, D: Dialect, C: Clock>(
    mut stream: S,
    port: &mut Port,
    acceptor: &mut Acceptor<D, C>,
) -> Result<Option<S>, AllocError> {
    if goes_on(&mut stream, port, acceptor)? {
        Ok(Some(stream))
    } else {
        acceptor.disconnect();
        Ok(None)
    }
}

/// Reads once, takes what came and writes what is answered; where nothing came it then waits. It says whether the
/// connection goes on.
fn goes_on<S: Read + Write, D: Dialect, C: Clock>(
    stream: &mut S,
    port: &mut Port,
    acceptor: &mut Acceptor<D, C>,
) -> Result<bool, AllocError> {
    let mut buf = [0; MOST_READ];
    let heard = hear(stream, &mut buf);
    match heard {
        Heard::Bytes(count) => acceptor.receive(&buf[..count])?,
        Heard::Nothing => {}
        Heard::Gone => return Ok(false),
    }
    if !acceptor.is_connected() {
        return Ok(false);
    }
    let Some(count) = say(stream, acceptor.waiting()) else {
        return Ok(false);
    };
    acceptor.pass(count);
    if heard == Heard::Nothing {
        port.rest();
    }
    Ok(true)
}
