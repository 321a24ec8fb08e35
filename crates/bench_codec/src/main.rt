//! The program `bench_codec`: it writes and reads the worked messages as often as it is asked to, by `COUNT PART`, and
//! prints what shows that it did. With no word it does each part three times. It stands apart from `bench`, so that
//! what the compiler inlines is the codec's alone.
#![tactic(auto)]

mod expected;
mod order_writer;
mod part;
mod reading;
mod request;
mod stream;
mod stretch;
mod worked;

use crate::expected::Expected;
use crate::request::run;
use bench_fault::BenchFault;
use std::process::ExitCode;
use trial::{status_of, words};

fn main(rt: HostRuntime) -> ExitCode {
    let mut out = rt.stdout();
    let done = match words(&rt) {
        Ok(words) => run(rt.alloc(), words.as_slice(), &mut out),
        Err(error) => Err(BenchFault::from(error)),
    };
    ExitCode::from(status_of("bench_codec", done, &mut rt.stderr()))
}
