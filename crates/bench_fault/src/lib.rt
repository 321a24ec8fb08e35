//! Why a program that measures stopped: its words were wrong, or its trial stopped.
#![tactic(auto)]

mod bench_fault;

pub use bench_fault::BenchFault;
