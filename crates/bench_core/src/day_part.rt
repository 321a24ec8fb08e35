//! What a sweep and a trade cost at desk and book, and a leg and a report in a session: a day of sweeps, or of a
//! session's legs, goes before, and then sweeps are placed, trades booked, legs sent or reports received.

mod desk_day;
mod session_day;
mod worked;

use desk_day::DeskDay;
use session_day::SessionDay;
use std::alloc::Global;
use std::collections::VecDeque;
use std::io::Write;
use trial::TrialFault;
use worked::worked_sweep;

/// The most of what is counted: so many sweeps fit into the backlog of each venue.
pub const MAX_DAY: u64 = 200;

/// What is done at desk and book, or in a session.
#[derive(Clone, Copy, Debug, PartialEq, Eq)]
pub enum DayPart {
    /// Sweeps are placed.
    Place,
    /// Trades are booked.
    Apply,
    /// Legs are sent.
    Send,
    /// Reports on trades are received and confirmed.
    Receive,
}

impl DayPart {
    /// The part of this name.
    pub fn named(name: &str) -> Option<DayPart> {
        match name {
            "place" => Some(DayPart::Place),
            "apply" => Some(DayPart::Apply),
            "send" => Some(DayPart::Send),
            "receive" => Some(DayPart::Receive),
            _ => None,
        }
    }
}

/// Places so many sweeps. All that a run may place are made first, so that making them costs each run the same.
fn place_sweeps(alloc: Global, day: &mut DeskDay, count: u64) -> Result<(), TrialFault> {
    let mut sweeps = Vec::new(alloc);
    for _ in 0..MAX_DAY {
        sweeps.push(worked_sweep(alloc)?)?;
    }
    for _ in 0..count {
        let sweep = sweeps.pop().ok_or(TrialFault::Refused)?;
        day.place(sweep)?;
    }
    Ok(())
}

/// Books so many trades. All that a run may book are made first.
fn book_trades(alloc: Global, day: &mut DeskDay, count: u64) -> Result<(), TrialFault> {
    let mut trades = Vec::new(alloc);
    for _ in 0..MAX_DAY {
        trades.push(day.next_trade()?)?;
    }
    for _ in 0..count {
        let trade = trades.pop().ok_or(TrialFault::Refused)?;
        day.apply(&trade)?;
    }
    Ok(())
}

/// Sends so many legs.
fn send_legs(day: &mut SessionDay, count: u64) -> Result<(), TrialFault> {
    for _ in 0..count {
        let _ = day.send_leg()?;
    }
    Ok(())
}

/// Receives so many reports on trades. All that a run may receive are written first.
fn receive_trades(alloc: Global, day: &mut SessionDay, count: u64) -> Result<(), TrialFault> {
    let mut reports = VecDeque::new(alloc);
    for _ in 0..MAX_DAY {
        reports.push_back(day.next_trade()?)?;
    }
    for _ in 0..count {
        let report = reports.pop_front().ok_or(TrialFault::Refused)?;
        let _ = day.receive(&report)?;
    }
    Ok(())
}

/// Writes what desk and book have.
fn tell_desk<W: Write>(day: &DeskDay, out: &mut W) -> Result<(), TrialFault> {
    let placed = day.placed_shares();
    let traded = day.traded_shares()?;
    writeln!(out, "{placed} shares placed, {traded} traded")?;
    Ok(())
}

/// Writes the next numbers each way of a session.
fn tell_session<W: Write>(day: &SessionDay, out: &mut W) -> Result<(), TrialFault> {
    let sent = day.next_out();
    let received = day.next_in();
    writeln!(out, "next sent {sent}, next received {received}")?;
    Ok(())
}

/// A day of so many sweeps.
fn after_sweeps(alloc: Global, before: u64) -> Result<DeskDay, TrialFault> {
    let mut day = DeskDay::new(alloc)?;
    day.go_on(before)?;
    Ok(day)
}

/// A day of a session with so many legs.
fn after_legs(alloc: Global, before: u64) -> Result<SessionDay, TrialFault> {
    let mut day = SessionDay::new(alloc)?;
    day.go_on(before)?;
    Ok(day)
}

/// After so many sweeps or legs it does the part so often, and writes how all stands then.
pub fn run_day<W: Write>(
    alloc: Global,
    part: DayPart,
    before: u64,
    count: u64,
    out: &mut W,
) -> Result<(), TrialFault> {
    match part {
        DayPart::Place => {
            let mut day = after_sweeps(alloc, before)?;
            place_sweeps(alloc, &mut day, count)?;
            tell_desk(&day, out)
        }
        DayPart::Apply => {
            let mut day = after_sweeps(alloc, before)?;
            book_trades(alloc, &mut day, count)?;
            tell_desk(&day, out)
        }
        DayPart::Send => {
            let mut day = after_legs(alloc, before)?;
            send_legs(&mut day, count)?;
            tell_session(&day, out)
        }
        DayPart::Receive => {
            let mut day = after_legs(alloc, before)?;
            receive_trades(alloc, &mut day, count)?;
            tell_session(&day, out)
        }
    }
}
