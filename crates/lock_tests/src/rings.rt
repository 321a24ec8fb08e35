//! A ring at its limit, what comes back, what is left, and two threads at once.

ghost use Rattle.std.specs.Prelude.{◌≡◌, IfOk};

use leg::{Leg, LegId, PlacedLeg, Side, Symbol, Terms};
use std::sync::Wait;
use std::test::Fail;
use std::thread;
use venue_queue::{Drain, Feed, meet, pair};

// The leg of an ordinal.
fn placed(ordinal: u64) -> Result<PlacedLeg, Fail> {
    let symbol = Symbol::new(b"IBM", b"").ok().ok_or("a symbol")?;
    let terms = Terms::new(symbol, Side::Buy, 10, 100_000)
        .ok()
        .ok_or("terms")?;
    let id = LegId::new(1, 1);
    Ok(PlacedLeg {
        ordinal,
        leg: Leg { id, terms },
    })
}

// Pushes the legs of these ordinals.
fn push_all(rt: &impl Wait, feed: &mut Feed, from: u64, to: u64) -> Result<(), Fail>
    ensures { feed.new.table ≡ feed.old.table }
{
    for ordinal in from..to {
        if feed.push(rt, placed(ordinal)?).is_err() {
            return Err(Fail::from("a leg came back"));
        }
    }
    Ok(())
}

// Pops the legs of these ordinals.
fn pop_all(rt: &impl Wait, drain: &mut Drain, from: u64, to: u64) -> Result<(), Fail>
    ensures { drain.new.table ≡ drain.old.table }
{
    for ordinal in from..to {
        let leg = drain.pop(rt).ok_or("a leg")?;
        if leg.ordinal != ordinal {
            return Err(Fail::from("another leg"));
        }
    }
    Ok(())
}

#[test]
fn meet_after_pops(rt: HostRuntime) -> Result<(), Fail> {
    let (mut feed, mut drain) = pair(rt.alloc(), 64)?;
    push_all(&rt, &mut feed, 1, 65)?;
    assert_eq!(rt; feed.push(&rt, placed(65)?), Err(placed(65)?));
    pop_all(&rt, &mut drain, 1, 65)?;
    assert_eq!(rt; drain.pop(&rt), None);
    let met = meet(&rt, rt.alloc(), feed, drain)?;
    assert_eq!(rt; (met.pushed, met.popped, met.left.len()), (64, 64, 0));
    Ok(())
}

#[test]
fn what_is_left_comes_in_order(rt: HostRuntime) -> Result<(), Fail> {
    let (mut feed, mut drain) = pair(rt.alloc(), 2)?;
    push_all(&rt, &mut feed, 1, 3)?;
    assert_eq!(rt; feed.push(&rt, placed(3)?), Err(placed(3)?));
    assert_eq!(rt; drain.pop_to(&rt, 0), None);
    assert_eq!(rt; drain.pop_to(&rt, 1), Some(placed(1)?));
    assert_eq!(rt; drain.pop_to(&rt, 1), None);
    assert_eq!(rt; feed.push(&rt, placed(3)?), Ok(()));
    assert_eq!(rt; (feed.pushed(), drain.popped()), (3, 1));
    let met = meet(&rt, rt.alloc(), feed, drain)?;
    assert_eq!(rt; (met.pushed, met.popped), (3, 1));
    assert_eq!(rt; met.left.as_slice(), [placed(2)?, placed(3)?].as_slice());
    Ok(())
}

// Pushes so many legs, each again until the ring has room.
fn feed_all(rt: &impl Wait, feed: &mut Feed, count: u64) -> Result<(), Fail> {
    for ordinal in 1..=count {
        let mut leg = placed(ordinal)?;
        for _ in rt.forever() {
            match feed.push(rt, leg) {
                Ok(()) => break,
                Err(back) => leg = back,
            }
            thread::yield_now();
        }
    }
    Ok(())
}

// Pops so many legs, and says whether their ordinals were 1, 2 and so on.
fn drain_all(rt: &impl Wait, drain: &mut Drain, count: u64) -> bool {
    let mut in_order = true;
    for ordinal in 1..=count {
        for _ in rt.forever() {
            if let Some(leg) = drain.pop(rt) {
                in_order &= leg.ordinal == ordinal;
                break;
            }
            thread::yield_now();
        }
    }
    in_order
}

#[test]
fn two_threads_push_and_pop(rt: HostRuntime) -> Result<(), Fail> {
    let (mut feed, mut drain) = pair(rt.alloc(), 64)?;
    let (fed, in_order) = thread::join(
        &rt,
        || feed_all(&rt, &mut feed, 100_000),
        || drain_all(&rt, &mut drain, 100_000),
    );
    fed?;
    assert!(rt; in_order);
    assert_eq!(rt; (feed.pushed(), drain.popped()), (100_000, 100_000));
    Ok(())
}
