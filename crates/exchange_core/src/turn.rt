//! What is done with a message: decided before anything changes.

use crate::live_connection::LiveConnection;
use crate::sent_record::SentRecord;
use dialect::Content;
use leg::Leg;

/// What an exchange says under its next own numbers.
#[derive(Debug, Drop)]
pub enum Says<'a> {
    Nothing,
    One(Content<'a>),
    /// This, and then the request for everything from the expected number on.
    OneAndRequest(Content<'a>),
}

/// What the next own numbers are used for.
#[derive(Debug, Drop)]
pub enum Used {
    Nothing,
    One(SentRecord),
    /// Two messages of the session.
    Two,
}

/// How an exchange stands after a message, but for its orders, and what it says.
#[derive(Debug, Drop)]
pub struct Turn<'a> {
    pub expected: u64,
    pub live: Option<LiveConnection>,
    pub last: u64,
    pub closed_at: Option<usize>,
    pub says: Says<'a>,
}

/// What is done with a message.
#[derive(Debug, Drop)]
pub enum Action<'a> {
    Nothing,
    /// The order of this leg is accepted, and reported as new.
    Accept(Leg),
    Turn(Turn<'a>),
}

/// The numbers that a resend request asks for: up to the last one used, where `last` is 0.
#[derive(Clone, Copy, Debug, PartialEq, Eq)]
pub struct Asked {
    pub begin: u64,
    pub last: u64,
}

/// What is done with a message: first what was asked for is sent again, if it was.
#[derive(Debug, Drop)]
pub struct Decision<'a> {
    pub asked: Option<Asked>,
    pub action: Action<'a>,
}
