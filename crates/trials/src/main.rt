//! The program `trials`: days on which something fails, told line by line.
//!
//! With no word it tells all of them, as they are stored beside it. `refusals`, `locks`, `workers` and `threads` are
//! the days of one kind; `locks refused` and `workers refused` the day of theirs on which memory is refused, so that
//! `checks/built/` can refuse it each growth in turn.
#![tactic(auto)]

mod request;
mod telling;

use crate::request::Request;
use crate::telling::tell;
use day_trial::DayFault;
use std::process::ExitCode;
use trial::{TrialFault, status_of, words};

/// What the words of the command line ask for.
fn requested(rt: &HostRuntime) -> Result<Request, TrialFault> {
    Request::of(words(rt)?.as_slice()).ok_or(TrialFault::Words)
}

fn main(rt: HostRuntime) -> ExitCode {
    let mut out = rt.stdout();
    let told = match requested(&rt) {
        Ok(request) => tell(&rt, rt.alloc(), request, &mut out),
        Err(fault) => Err(DayFault::Trial(fault)),
    };
    ExitCode::from(status_of("trials", told, &mut rt.stderr()))
}
