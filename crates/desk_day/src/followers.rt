//! Those who followed a day to its end are told how its audit ended.

ghost use Rattle.std.specs.Prelude.{◌≡◌};
ghost use Rattle.desk_json.specs.declared.event.Audit.TheVariants as audit;
ghost use Rattle.desk_day.specs.Followers.{audit_of};
ghost use Rattle.desk_words.specs.Printable.{shown};

use desk_json::Audit;
use desk_news::Told;
use desk_serve::tell_closed;
use desk_venues::DayFault;
use desk_words::shown;
use session_worker::DayReport;
use std::alloc::Global;
use std::net::TcpStream;

/// How an audit ended, if it wasn't broken off for lack of memory.
fn audit_of(audited: &Result<DayReport, DayFault>) -> Option<Audit>
    ensures { result ≡ audit_of audited.now }
{
    match audited {
        Ok(_) => Some(Audit::Whole),
        Err(DayFault::MismatchQueue) => Some(failed(b"A01")),
        Err(DayFault::MismatchShares) => Some(failed(b"A02")),
        Err(DayFault::MismatchPlaced) => Some(failed(b"A03")),
        Err(_) => None,
    }
}

fn failed(code: &[u8]) -> Audit
    ensures { result ≡ audit.Failed (shown 200 code.now) }
{
    let code: Told = shown(code);
    Audit::Failed(code)
}

/// Tells them. One that can't be told is let go.
pub fn tell_followers(
    alloc: Global,
    followers: Vec<TcpStream>,
    audited: &Result<DayReport, DayFault>,
) {
    if let Some(audit) = audit_of(audited) {
        tell_closed(alloc, followers, audit);
    }
}
