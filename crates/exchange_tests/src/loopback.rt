//! Servers over loopback, and a session over TCP.

use crate::client::{Client, Told};
use crate::support::{TRADES_6, end, stopped_clock, worked_leg};
use clock::StoppedClock;
use dialect::Plain;
use exchange_sim::{Acceptor, Plan, Port, serve, serve_raw};
use link::{Got, Link, LinkFault, Poller, Rest, TcpLink};
use std::alloc::{AllocError, Global};
use std::net::{Net, SocketAddr, TcpListener, TcpStream};
use std::sync::atomic::{AtomicBool, Ordering};
use std::test::Fail;
use std::thread;
use std::thread::Threads;
use std::time::{Clock, Duration};

/// An exchange of this plan.
fn exchange_of(alloc: Global, plan: Plan) -> Result<Acceptor<Plain, StoppedClock>, Fail> {
    Ok(Acceptor::new(alloc, Plain, stopped_clock()?, end(b"B", b"A")?, plan))
}

/// What a session over TCP is told of its leg. Then the day is over.
fn told<N: Net + Clock>(
    rt: &N,
    alloc: Global,
    addr: SocketAddr,
    is_over: &AtomicBool,
) -> Result<Told, Fail> {
    let told = played(rt, alloc, addr);
    is_over.store(true, Ordering::SeqCst);
    told
}

fn played<N: Net + Clock>(rt: &N, alloc: Global, addr: SocketAddr) -> Result<Told, Fail> {
    let poller = Poller::new(rt, alloc)?;
    let link = TcpLink::new(rt, addr, poller, Rest::Sleep);
    trade(Client::new(alloc, link)?)
}

/// Sends the worked leg once the session is up, and waits until the rest of it is cancelled.
fn trade<K: Link>(mut client: Client<K>) -> Result<Told, Fail> {
    client.log_on(1_000)?;
    client.send(&worked_leg()?)?;
    client.finish(1_000)?;
    let _ = client.link.shut();
    Ok(client.told)
}

/// What a session over TCP is told of its leg by an exchange in another thread, which cuts its connection behind this
/// message.
fn over_tcp<R: Net<Listener = TcpListener, Stream = TcpStream> + Clock + Threads + Sync>(
    rt: &R,
    alloc: Global,
    cut_after: u64,
) -> Result<Told, Fail> {
    let mut port = Port::open(rt, alloc)?;
    let addr = port.addr()?;
    let plan = Plan {
        cut_after,
        ..TRADES_6
    };
    let mut exchange = exchange_of(alloc, plan)?;
    let is_over = AtomicBool::new(false);
    let (served, told) = thread::join(
        rt,
        || serve(&mut port, &mut exchange, &is_over, u64::MAX),
        || told(rt, alloc, addr, &is_over),
    );
    let told = told?;
    served?;
    Ok(told)
}

#[test]
fn a_leg_over_tcp(rt: HostRuntime) -> Result<(), Fail> {
    for cut_after in [0, 3] {
        let Told {
            accepted,
            cancelled,
            filled,
            withdrawn: _,
        } = over_tcp(&rt, rt.alloc(), cut_after)?;
        assert_eq!(rt; (accepted, filled, cancelled), (1, 6, 1), "{cut_after}");
    }
    Ok(())
}

#[test]
fn a_server_with_no_client(rt: HostRuntime) -> Result<(), Fail> {
    let mut port = Port::open(&rt, rt.alloc())?;
    let mut exchange = exchange_of(rt.alloc(), TRADES_6)?;
    for (is_over, turn_limit) in [(false, 5), (true, u64::MAX)] {
        let is_over = AtomicBool::new(is_over);
        let served = serve(&mut port, &mut exchange, &is_over, turn_limit);
        assert_eq!(rt; served, Ok(()));
    }
    assert!(rt; !serve_raw(&mut port, &[], 5));
    Ok(())
}

/// What a client is sent that writes one byte, and leaves once it has so many.
fn sent<N: Net + Clock>(
    rt: &N,
    alloc: Global,
    addr: SocketAddr,
    poller: Poller,
    count: usize,
) -> Result<Vec<u8>, AllocError> {
    let mut link = TcpLink::new(rt, addr, poller, Rest::Sleep);
    let mut bytes = Vec::new(alloc);
    let mut buf = [0; 3];
    if link.dial().is_err() || link.write(b"x").is_err() {
        return Ok(bytes);
    }
    for _turn in 0..1_000 {
        if bytes.len() >= count {
            break;
        }
        match link.read(&mut buf) {
            Ok(Got::Bytes(count)) => bytes.extend_from_slice(&buf[..count])?,
            Ok(Got::Nothing) => link.rest(Duration::from_secs(5)),
            Ok(Got::End) | Err(_) => break,
        }
    }
    Ok(bytes)
}

#[test]
fn a_server_that_keeps_no_rules(rt: HostRuntime) -> Result<(), Fail> {
    let alloc = rt.alloc();
    let mut port = Port::open(&rt, alloc)?;
    let addr = port.addr()?;
    let poller = Poller::new(&rt, alloc)?;
    let frames = vec![in alloc;
        Vec::from_slice(alloc, b"8=FIX")?,
        Vec::new(alloc),
        Vec::from_slice(alloc, b".4.4")?,
    ]?;
    let (served, sent) = thread::join(
        &rt,
        || serve_raw(&mut port, &frames, 1_000),
        || sent(&rt, alloc, addr, poller, 9),
    );
    assert!(rt; served);
    assert_eq!(rt; sent?.as_slice(), b"8=FIX.4.4".as_slice());
    Ok(())
}
