//! What a request asks for.

ghost use Rattle.std.specs.Prelude.{◌≡◌};
ghost use Rattle.desk_http.specs.Call.{by_get, by_post, call_at, changes_the_day, executions_call, place_of};
ghost use Rattle.desk_http.specs.Call.{sweep_place, sweeps_call};

use crate::refused::Refused;
use crate::request::Method;
use crate::status::Allow;
use crate::window::window_of;
use fix_tags::read_number;

/// What is served at a path.
#[derive(Clone, Copy, Debug, PartialEq, Eq)]
pub(crate) enum Place {
    Page,
    Sweeps,
    /// The sweep of a number.
    Sweep(u64),
    Executions,
    Venues,
    Events,
    Close,
    Halt,
    Resume,
    Metrics,
}

/// What the desk is asked.
#[derive(Clone, Copy, Debug, PartialEq, Eq)]
pub enum Call {
    Page,
    /// A sweep is handed in.
    Place,
    /// The sweeps behind a number, at most so many.
    Sweeps { after: u64, most: u64 },
    /// The legs of a sweep.
    Sweep(u64),
    /// The legs of the sweep that was placed under a reference, which the query has.
    Find,
    /// The executions behind a number, at most so many.
    Executions { after: u64, most: u64 },
    Venues,
    Events,
    Close,
    /// The desk is halted.
    Halt,
    /// It isn't halted any more.
    Resume,
    Metrics,
}

/// What is served at a path.
pub(crate) fn place_of(path: &[u8]) -> Option<Place>
    ensures { result ≡ place_of path.now }
{
    if path == b"/".as_slice() {
        return Some(Place::Page);
    }
    if path == b"/api/sweeps".as_slice() {
        return Some(Place::Sweeps);
    }
    if path == b"/api/executions".as_slice() {
        return Some(Place::Executions);
    }
    if path == b"/api/venues".as_slice() {
        return Some(Place::Venues);
    }
    if path == b"/api/events".as_slice() {
        return Some(Place::Events);
    }
    if path == b"/api/close".as_slice() {
        return Some(Place::Close);
    }
    if path == b"/api/halt".as_slice() {
        return Some(Place::Halt);
    }
    if path == b"/api/resume".as_slice() {
        return Some(Place::Resume);
    }
    if path == b"/metrics".as_slice() {
        return Some(Place::Metrics);
    }
    sweep_place(path)
}

/// The sweep that a path names, as `/api/sweeps/12`.
fn sweep_place(path: &[u8]) -> Option<Place>
    ensures { result ≡ sweep_place path.now }
{
    if !path.starts_with(b"/api/sweeps/") {
        return None;
    }
    let number = read_number(&path[12..])?;
    Some(Place::Sweep(number))
}

/// What is asked of the sweeps.
fn sweeps_call(method: Method, query: &[u8]) -> Result<Call, Refused>
    ensures { result ≡ sweeps_call method query.now }
{
    match method {
        Method::Post => Ok(Call::Place),
        Method::Get if query.starts_with(b"ref=") => Ok(Call::Find),
        Method::Get => match window_of(query) {
            Some(window) => Ok(Call::Sweeps {
                after: window.after,
                most: window.most,
            }),
            None => Err(Refused::BadQuery),
        },
        Method::Other => Err(Refused::NoMethod(Allow::Both)),
    }
}

/// What is asked of the executions.
fn executions_call(method: Method, query: &[u8]) -> Result<Call, Refused>
    ensures { result ≡ executions_call method query.now }
{
    match method {
        Method::Get => match window_of(query) {
            Some(window) => Ok(Call::Executions {
                after: window.after,
                most: window.most,
            }),
            None => Err(Refused::BadQuery),
        },
        Method::Post | Method::Other => Err(Refused::NoMethod(Allow::Get)),
    }
}

/// A call by GET alone.
fn by_get(method: Method, call: Call) -> Result<Call, Refused>
    ensures { result ≡ by_get method call }
{
    match method {
        Method::Get => Ok(call),
        Method::Post | Method::Other => Err(Refused::NoMethod(Allow::Get)),
    }
}

/// A call by POST alone.
fn by_post(method: Method, call: Call) -> Result<Call, Refused>
    ensures { result ≡ by_post method call }
{
    match method {
        Method::Post => Ok(call),
        Method::Get | Method::Other => Err(Refused::NoMethod(Allow::Post)),
    }
}

/// What a method and a query ask for at a place.
pub(crate) fn call_at(place: Place, method: Method, query: &[u8]) -> Result<Call, Refused>
    ensures { result ≡ call_at place method query.now }
{
    match place {
        Place::Page => by_get(method, Call::Page),
        Place::Sweeps => sweeps_call(method, query),
        Place::Sweep(number) => by_get(method, Call::Sweep(number)),
        Place::Executions => executions_call(method, query),
        Place::Venues => by_get(method, Call::Venues),
        Place::Events => by_get(method, Call::Events),
        Place::Close => by_post(method, Call::Close),
        Place::Halt => by_post(method, Call::Halt),
        Place::Resume => by_post(method, Call::Resume),
        Place::Metrics => by_get(method, Call::Metrics),
    }
}

/// Whether a call hands in, closes or halts, for which a desk may want its token.
pub(crate) fn changes_the_day(call: Call) -> bool
    ensures { result ≡ changes_the_day call }
{
    matches!(call, Call::Place | Call::Close | Call::Halt | Call::Resume)
}
