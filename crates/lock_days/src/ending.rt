//! The sums once a day is over.

use exec_collector::{Accounts, WorkerSeat, check_count};
use release_lock::{CallerSeat, Run, check_placed};
use std::alloc::Global;
use std::fmt::Write;
use trial::{Floor, Post, TrialFault, room_for};

/// The seats of the posts, and the caller's.
fn seats_of<L: Run, M: Accounts>(
    alloc: Global,
    seat: CallerSeat<L>,
    posts: Vec<Post<L, M>>,
) -> Result<(Vec<CallerSeat<L>>, Vec<WorkerSeat<M>>), TrialFault> {
    let mut callers = room_for(alloc, 1)?;
    callers.push(seat)?;
    let mut seats = room_for(alloc, posts.len())?;
    for post in posts {
        let Post { drain: _, seat } = post;
        seats.push(seat)?;
    }
    Ok((callers, seats))
}

/// Adds the line of the sums: the shares on the caller's seat and on those of the workers, where they are those placed
/// and those resolved; and what is placed where no seat counts it.
pub fn tell_sums<L: Run, M: Accounts>(
    alloc: Global,
    floor: Floor<L, M>,
    text: &mut String,
) -> Result<(), TrialFault> {
    let Floor {
        lock,
        collector,
        seat,
        posts,
    } = floor;
    let (callers, seats) = seats_of(alloc, seat, posts)?;
    let mut locked = lock.into_locked();
    let mut counted = collector.into_counted();
    let without = check_placed(&mut locked, Vec::new(alloc));
    let placed = check_placed(&mut locked, callers);
    let resolved = check_count(&mut counted, seats);
    writeln!(
        text,
        "sums: placed {placed:?} resolved {resolved:?}; without the caller's seat {without:?}"
    )?;
    Ok(())
}
