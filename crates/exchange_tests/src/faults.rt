//! What each fault of a plan does to a session in memory that sends one leg of 10 shares.

use crate::client::{Client, Told};
use crate::support::{TRADES_6, end, faultless, stopped_clock, worked_leg};
use clock::StoppedClock;
use dialect::Plain;
use exchange_sim::{MemoryLink, MemoryPlan, Plan};
use link::{Got, Link, LinkFault};
use session_core::Phase;
use std::alloc::Global;
use std::test::Fail;

/// A link of this plan.
fn link_of(alloc: Global, plan: MemoryPlan) -> Result<MemoryLink<Plain, StoppedClock>, Fail> {
    Ok(MemoryLink::new(alloc, Plain, stopped_clock()?, end(b"B", b"A")?, plan))
}

/// What is seen at the end of a day.
#[derive(Clone, Copy, Debug, PartialEq, Eq)]
struct Seen {
    told: Told,
    /// How many orders the exchange has accepted.
    accepted: usize,
    phase: Phase,
    /// How many calls of the link failed.
    faults: u64,
}

impl Seen {
    /// What is seen where no call failed and the session is up.
    const fn well(told: Told, accepted: usize) -> Seen {
        Seen {
            told,
            accepted,
            phase: Phase::Up,
            faults: 0,
        }
    }
}

/// A leg that was accepted, traded in part, and cancelled.
const DONE: Told = Told {
    accepted: 1,
    cancelled: 1,
    filled: 6,
    withdrawn: 0,
};

/// A leg that was lost on its way.
const LOST: Told = Told {
    accepted: 0,
    cancelled: 0,
    filled: 0,
    withdrawn: 1,
};

/// A session logs on, sends its leg, and shows a sign of life after a while. Each part takes so many turns, and as many
/// as `again` are left for it to be up once more.
fn play(
    client: &mut Client<MemoryLink<Plain, StoppedClock>>,
    turns: u64,
    again: u64,
) -> Result<(), Fail> {
    client.log_on(turns)?;
    client.send(&worked_leg()?)?;
    client.turns(turns)?;
    client.beat()?;
    client.turns(turns)?;
    client.log_on(again)
}

/// What a day over a link of this plan tells, and whether its leg was sent.
fn day(alloc: Global, plan: MemoryPlan, turns: u64, again: u64) -> Result<(Seen, bool), Fail> {
    let mut client = Client::new(alloc, link_of(alloc, plan)?)?;
    play(&mut client, turns, again)?;
    let seen = Seen {
        told: client.told,
        accepted: client.link.exchange().accepted().len(),
        phase: client.session.phase(),
        faults: client.link.faults(),
    };
    Ok((seen, client.session.leg_state(1).is_some()))
}

#[test]
fn a_leg_in_pieces_of_any_size(rt: HostRuntime) -> Result<(), Fail> {
    for (most_written, most_read, turns) in [
        (usize::MAX, usize::MAX, 20),
        (1, 1, 2_000),
        (0, 7, 400),
        (100, usize::MAX, 20),
    ] {
        let plan = MemoryPlan {
            most_written,
            most_read,
            ..faultless()
        };
        let (seen, _sent) = day(rt.alloc(), plan, turns, 0)?;
        assert_eq!(rt; seen, Seen::well(DONE, 1), "{plan:?}");
    }
    Ok(())
}

// Message 1 is the Logon, 2 the fence, and 3 the order.
#[test]
fn a_lost_message_and_a_cut(rt: HostRuntime) -> Result<(), Fail> {
    for (lose, cut_after, wanted) in [
        (3, 0, Seen::well(LOST, 0)),
        (0, 1, Seen::well(DONE, 1)),
        (0, 2, Seen::well(DONE, 1)),
        (0, 3, Seen::well(DONE, 1)),
        (0, 4, Seen::well(DONE, 1)),
    ] {
        let plan = MemoryPlan::faultless(Plan {
            fill: 6,
            cut_after,
            lose,
        });
        let (seen, _sent) = day(rt.alloc(), plan, 40, 0)?;
        assert_eq!(rt; seen, wanted, "{plan:?}");
    }
    Ok(())
}

#[test]
fn more_shares_than_the_leg_has(rt: HostRuntime) -> Result<(), Fail> {
    for (fill, filled, cancelled) in [(10, 10, 0), (1_000, 10, 0), (0, 0, 1)] {
        let plan = MemoryPlan::faultless(Plan { fill, ..TRADES_6 });
        let told = Told {
            accepted: 1,
            cancelled,
            filled,
            withdrawn: 0,
        };
        let (seen, _sent) = day(rt.alloc(), plan, 40, 0)?;
        assert_eq!(rt; seen, Seen::well(told, 1), "{plan:?}");
    }
    Ok(())
}

// In each day another call fails. A leg that was sent is as it was wanted where the exchange has it, and else lost; and
// the session is up again.
#[test]
fn each_call_fails_in_turn(rt: HostRuntime) -> Result<(), Fail> {
    let mut failed = 0u64;
    for fails_at in 1..1_000 {
        let plan = MemoryPlan {
            fails_at,
            ..faultless()
        };
        let (seen, sent) = day(rt.alloc(), plan, 20, 100)?;
        let wanted = if seen.accepted == 0 { LOST } else { DONE };
        assert!(rt; !sent || seen.told == wanted, "{fails_at} {seen:?}");
        assert_eq!(rt; seen.phase, Phase::Up, "{fails_at}");
        if seen.faults == 0 {
            break;
        }
        failed = fails_at;
    }
    assert!(rt; failed > 20 && failed < 999, "{failed}");
    Ok(())
}

/// The phase of a session that tried to log on over a link of noise, and what a read then gives.
fn noise(alloc: Global, buf: &mut [u8]) -> Result<(Phase, Result<Got, LinkFault>), Fail> {
    let plan = MemoryPlan {
        noise: Some(b'x'),
        most_read: 64,
        ..faultless()
    };
    let mut client = Client::new(alloc, link_of(alloc, plan)?)?;
    client.log_on(100)?;
    let phase = client.session.phase();
    Ok((phase, client.link.read(buf)))
}

/// How many bytes are noise.
fn noisy(bytes: &[u8]) -> usize {
    bytes.iter().filter(|byte| **byte == b'x').count()
}

#[test]
fn nothing_but_noise(rt: HostRuntime) -> Result<(), Fail> {
    let mut buf = [0; 100];
    let found = noise(rt.alloc(), &mut buf)?;
    assert_eq!(rt; found, (Phase::LoggingOn, Ok(Got::Bytes(64))));
    assert_eq!(rt; noisy(&buf), 64);
    Ok(())
}

/// A call of a link.
#[derive(Clone, Copy, Debug)]
enum Call {
    Dial,
    Read,
    Write,
    Shut,
}

/// What a call gives: how many bytes, or nothing where it only succeeds.
fn made(link: &mut impl Link, call: Call) -> Result<Got, LinkFault> {
    match call {
        Call::Dial => link.dial().map(|()| Got::Nothing),
        Call::Read => link.read(&mut [0; 1]),
        Call::Write => link.write(b"x").map(Got::Bytes),
        Call::Shut => link.shut().map(|()| Got::Nothing),
    }
}

#[test]
fn with_no_connection(rt: HostRuntime) -> Result<(), Fail> {
    let mut link = link_of(rt.alloc(), faultless())?;
    for (call, wanted) in [
        (Call::Read, Ok(Got::End)),
        (Call::Write, Err(LinkFault)),
        (Call::Shut, Ok(Got::Nothing)),
        (Call::Dial, Ok(Got::Nothing)),
        (Call::Read, Ok(Got::Nothing)),
        (Call::Write, Ok(Got::Bytes(1))),
        (Call::Shut, Ok(Got::Nothing)),
        (Call::Read, Ok(Got::End)),
    ] {
        assert_eq!(rt; made(&mut link, call), wanted, "{call:?}");
    }
    assert_eq!(rt; link.faults(), 1);
    Ok(())
}
