//! Who takes part in a day, and what they leave.

use crate::page_server::PageServer;
use clock::Clock;
use day_log::FileWriter;
use exec_collector::Accounts;
use kept_link::{Telling, Untold};
use link::Link;
use release_lock::Run;
use session_worker::{Worker, WorkerEnd};
use std::fs::File;
use std::net::TcpStream;
use venue_words::VenueDialect;

/// Who takes part in a day.
#[derive(Drop)]
pub struct Cast<X, K: Link, C: Clock + Drop, L: Run, M: Accounts, J: Telling = Untold> {
    pub exchanges: Vec<X>,
    pub workers: Vec<Worker<VenueDialect, K, C, L, M, J>>,
    /// What serves the page; none where it isn't served.
    pub servers: Vec<PageServer>,
    /// What writes the logs; none where none is kept.
    pub writers: Vec<FileWriter<File>>,
}

/// What its threads leave.
#[derive(Drop)]
pub struct Ended<K: Link, L: Run, M: Accounts, J: Telling = Untold> {
    pub workers: Vec<WorkerEnd<K, L, M, J>>,
    /// The clients that followed the day to its end.
    pub followers: Vec<TcpStream>,
}
