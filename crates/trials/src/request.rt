//! Which days are to be told.

/// Which days are to be told.
#[derive(Clone, Copy, Debug, PartialEq, Eq)]
pub enum Request {
    All,
    Refusals,
    Locks,
    LocksRefused,
    Workers,
    WorkersRefused,
    Threads,
}

impl Request {
    /// What these words ask for, of which the first is the program's own name.
    pub fn of(words: &[String]) -> Option<Request> {
        match words {
            [_] => Some(Request::All),
            [_, kind] => Request::of_kind(kind.as_str()),
            [_, kind, part] if part.as_str() == "refused" => Request::refused(kind.as_str()),
            _ => None,
        }
    }

    /// The days of a kind.
    fn of_kind(kind: &str) -> Option<Request> {
        match kind {
            "refusals" => Some(Request::Refusals),
            "locks" => Some(Request::Locks),
            "workers" => Some(Request::Workers),
            "threads" => Some(Request::Threads),
            _ => None,
        }
    }

    /// The day of a kind on which memory is refused.
    fn refused(kind: &str) -> Option<Request> {
        match kind {
            "locks" => Some(Request::LocksRefused),
            "workers" => Some(Request::WorkersRefused),
            _ => None,
        }
    }
}
