//! The program `bench`: it does the work that the scripts of `bench/` count or time, as often as it is asked to, and
//! prints what shows that it was done. Its first word says which part of it: `day`, `replay`, `threads`, `turn` or
//! `wire`; with no word each of them but `wire` does a little. The codec's part is a program of its own, `bench_codec`.
#![tactic(auto)]

mod expected;
mod request;

use crate::expected::Expected;
use crate::request::run;
use bench_fault::BenchFault;
use std::process::ExitCode;
use trial::{status_of, words};

fn main(rt: HostRuntime) -> ExitCode {
    let mut out = rt.stdout();
    let done = match words(&rt) {
        Ok(words) => run(&rt, rt.alloc(), words.as_slice(), &mut out),
        Err(error) => Err(BenchFault::<Expected>::from(error)),
    };
    ExitCode::from(status_of("bench", done, &mut rt.stderr()))
}
