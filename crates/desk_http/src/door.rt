//! Who may ask what.

ghost use Rattle.std.specs.Prelude.{◌≡◌, IfOk, slice_get};
ghost use Rattle.std.specs.List.{list_all};
ghost use Rattle.desk_http.specs.Door.{AsksRightly, allowed, asked_by, by_token, by_user, call_of, if_may, is_in_numbers, is_json};
ghost use Rattle.desk_http.specs.Door.{is_listed, is_named, is_of_numbers, is_our_host, is_our_page, is_ours};
ghost use Rattle.desk_http.specs.Door.{is_served, knows_token, may_there, unknown, well_sent};

use crate::admitted::Admitted;
use crate::call::{Call, call_at, changes_the_day, place_of};
use crate::parts::parts_at;
use crate::refused::Refused;
use crate::request::Request;
use crate::user::{Right, User, right_of, user_with};
use constant_time::is_same;

/// What is served, and to whom.
#[derive(Debug, Drop)]
pub struct Door {
    /// The address that is served, as `127.0.0.1:8080`: each request's `Host`. A browser leaves out the port 80.
    pub host: String,
    /// What else the address may be called, as `localhost:8080` where it is a loopback one.
    pub other_name: Option<String>,
    /// Whether every address of the machine is served: a `Host` may then be any of them in numbers, as `10.0.0.7:8080`.
    pub is_open: bool,
    /// The names that it has beside those, as `desk.example.com`: a `Host` may be any of them, with whatever port.
    pub names: Vec<String>,
    /// What `Authorization` has to be where a call changes the day, as `Bearer WORD`; empty where no token is asked
    /// for. It counts only where there are no users.
    pub authorization: String,
    /// Who may ask what. Where there is a user every call but the page's is a user's.
    pub users: Vec<User>,
}

/// Whether a name is this one, where there is one.
fn is_named(name: &Option<String>, host: &[u8]) -> bool
    ensures { result ≡ is_named name.now host.now }
{
    match name {
        Some(name) => host == name.as_str().as_bytes(),
        None => false,
    }
}

/// Whether a byte is a digit, a dot or a colon.
fn is_of_numbers(byte: u8) -> bool
    ensures { result ≡ is_of_numbers byte }
{
    byte.is_ascii_digit() || byte == b'.' || byte == b':'
}

/// Whether each byte of a host is one of those.
fn are_of_numbers(host: &[u8]) -> bool
    ensures { result ≡ list_all is_of_numbers host.now }
{
    host.iter().all(|byte| is_of_numbers(*byte))
}

/// Whether a host is an address in numbers, as `10.0.0.7:8080`. No name that another site may have is one.
fn is_in_numbers(host: &[u8]) -> bool
    ensures { result ≡ is_in_numbers host.now }
{
    !host.is_empty() && are_of_numbers(host)
}

/// Whether a host is one of the names of what is served, whatever port stands behind it.
fn is_listed(door: &Door, host: &[u8]) -> bool
    ensures { result ≡ is_listed door.now host.now }
{
    let (name, _) = parts_at(host, b':');
    door.names
        .iter()
        .any(|other| other.as_str().as_bytes() == name)
}

/// Whether a host is the address that is served.
fn is_served(door: &Door, host: &[u8]) -> bool
    ensures { result ≡ is_served door.now host.now }
{
    host == door.host.as_str().as_bytes()
        || is_named(&door.other_name, host)
        || (door.is_open && is_in_numbers(host))
        || is_listed(door, host)
}

/// Whether a host of an `Origin` is our own page's, where a request has this `Host`. Another address in numbers may be
/// another site's, so where every address is served the two have to be the same, or it is one of our names.
fn is_our_host(door: &Door, host: &[u8], origin: &[u8]) -> bool
    ensures { result ≡ is_our_host door.now host.now origin.now }
{
    if door.is_open {
        return origin == host || is_listed(door, origin);
    }
    is_served(door, origin)
}

/// Whether an `Origin` is our own page's, as `http://127.0.0.1:8080`, where a request has this `Host`; or, behind a
/// proxy that speaks TLS, as `https://desk.example.com`.
fn is_our_page(door: &Door, host: &[u8], origin: &[u8]) -> bool
    ensures { result ≡ is_our_page door.now host.now origin.now }
{
    (origin.starts_with(b"http://") && is_our_host(door, host, &origin[7..]))
        || (origin.starts_with(b"https://") && is_listed(door, &origin[8..]))
}

/// Whether a request comes of our own page or of no page at all.
fn is_ours(door: &Door, request: &Request) -> bool
    ensures { result ≡ is_ours door.now request.now }
{
    request.origin.is_empty()
        || is_our_page(door, request.host.as_slice(), request.origin.as_slice())
}

/// Whether a body is said to be JSON, whatever parameters stand behind it.
fn is_json(content_type: &[u8]) -> bool
    ensures { result ≡ is_json content_type.now }
{
    content_type == b"application/json".as_slice() || content_type.starts_with(b"application/json;")
}

/// Where a call changes the day: whether it comes of our own page or of no page, and with JSON.
fn well_sent(door: &Door, request: &Request, call: Call) -> Result<(), Refused>
    ensures { result ≡ well_sent door.now request.now call }
{
    if !changes_the_day(call) {
        return Ok(());
    }
    if !is_ours(door, request) {
        return Err(Refused::ForeignOrigin);
    }
    if !is_json(request.content_type.as_slice()) {
        return Err(Refused::NotJson);
    }
    Ok(())
}

/// Why nobody is known by this token.
fn unknown(authorization: &[u8]) -> Refused
    ensures { result ≡ unknown authorization.now }
{
    if authorization.is_empty() {
        Refused::NoToken
    } else {
        Refused::WrongToken
    }
}

/// Whether a request has the desk's one token, where one is asked for.
fn knows_token(door: &Door, request: &Request) -> bool
    ensures { result ≡ knows_token door.now request.now }
{
    door.authorization.is_empty()
        || is_same(
            request.authorization.as_slice(),
            door.authorization.as_str().as_bytes(),
        )
}

/// By nobody that is known, where the desk has no users: its one token is asked for where a call changes the day.
fn by_token(door: &Door, request: &Request, call: Call) -> Result<Option<usize>, Refused>
    ensures { result ≡ by_token door.now request.now call }
{
    if changes_the_day(call) && !knows_token(door, request) {
        return Err(unknown(request.authorization.as_slice()));
    }
    Ok(None)
}

/// Whether the user at a place has a right.
fn may_there(users: &[User], place: usize, right: Right) -> bool
    ensures { result ≡ may_there (slice_get users.now place) right }
{
    match users.get(place) {
        Some(user) => user.rights.has(right),
        None => false,
    }
}

/// By the user whose token it is, if he has the right; what needs no right is everybody's.
fn by_user(
    users: &[User],
    authorization: &[u8],
    right: Option<Right>,
) -> Result<Option<usize>, Refused>
    ensures { result ≡ by_user users.now authorization.now right }
{
    let Some(right) = right else {
        return Ok(None);
    };
    if authorization.is_empty() {
        return Err(Refused::NoToken);
    }
    let Some(user) = user_with(users, authorization) else {
        return Err(Refused::WrongToken);
    };
    if !may_there(users, user, right) {
        return Err(Refused::MayNot { user, right });
    }
    Ok(Some(user))
}

/// By which user a call is asked for, or why it isn't carried out.
fn asked_by(door: &Door, request: &Request, call: Call) -> Result<Option<usize>, Refused>
    ensures { result ≡ asked_by door.now request.now call }
{
    if door.users.is_empty() {
        return by_token(door, request, call);
    }
    let authorization = request.authorization.as_slice();
    by_user(door.users.as_slice(), authorization, right_of(call))
}

/// What a request asks for, whoever sent it.
#[tactic(auto, unfolding(crate::specs::Door::call_of))]
fn call_of(request: &Request) -> Result<Call, Refused>
    ensures { result ≡ call_of request.now }
{
    let (path, query) = parts_at(request.target.as_slice(), b'?');
    match place_of(path) {
        Some(place) => call_at(place, request.method, query),
        None => Err(Refused::NoPlace),
    }
}

/// The call and who asks for it, if it may be carried out.
fn if_may(door: &Door, request: &Request, call: Call) -> Result<Admitted, Refused>
    ensures value { result ≡ if_may door.now request.now call }
    ensures rightly { IfOk result (AsksRightly door.now request.now) }
{
    well_sent(door, request, call)?;
    let by = asked_by(door, request, call)?;
    Ok(Admitted { call, by })
}

/// What a request asks for and may ask for, and by which user, or why it isn't carried out: `Host` first, then the
/// path, the method and the query, where it changes the day `Origin` and `Content-Type`, and then the token and what
/// its user may.
#[tactic(auto, unfolding(crate::specs::Door::allowed))]
pub fn allowed(door: &Door, request: &Request) -> Result<Admitted, Refused>
    ensures value { result ≡ allowed door.now request.now }
    ensures rightly { IfOk result (AsksRightly door.now request.now) }
{
    if !is_served(door, request.host.as_slice()) {
        return Err(Refused::ForeignHost);
    }
    let call = call_of(request)?;
    if_may(door, request, call)
}
