//! What serves the lines of a day's clients, if it has any.

ghost use Rattle.std.specs.Prelude.{IfErr};
ghost use Rattle.desk_venues.specs.Faults.{IsNoMismatch};

use desk_config::{DeskConfig, TokenText};
use desk_lines::{LineServer, User, close_socket, open_door, open_socket};
use desk_talk::{ClientName, Rights};
use desk_venues::{DayFault, first_address};
use json_lines::Form;
use std::alloc::{AllocError, Global};
use std::fs::Files;
use std::io::{self, ErrorKind};
use std::net::{Net, TcpListener, TcpStream};

/// Where lines are taken beside the standard input, and from whom.
#[derive(Clone, Copy)]
pub struct LineDoors<'a> {
    pub config: &'a DeskConfig,
    /// The path of the Unix socket, if there is to be one.
    pub socket: Option<&'a str>,
    /// The tokens of the configuration's users, by their places.
    pub tokens: &'a [TokenText],
    /// How answers are written.
    pub form: Form,
}

/// Who serves these lines, none where none are taken.
#[derive(Drop)]
pub struct LineHall<'a> {
    pub servers: Vec<LineServer>,
    /// The path of the Unix socket, if there is one.
    pub socket: Option<&'a str>,
}

/// The servers of the lines that come over TCP, where the configuration has an address for them, and of those that come
/// over the Unix socket, where there is to be one.
pub fn open_lines<'a, R: Net<Listener = TcpListener, Stream = TcpStream> + Files>(
    rt: &R,
    alloc: Global,
    doors: LineDoors<'a>,
) -> Result<LineHall<'a>, DayFault>
    ensures { IfErr result IsNoMismatch }
{
    let mut servers = open_listen(rt, alloc, doors)?;
    for server in open_unix(rt, alloc, doors)? {
        servers.push(server)?;
    }
    Ok(LineHall {
        servers,
        socket: doors.socket,
    })
}

/// The servers of the lines that come over TCP, if any do.
fn open_listen<R: Net<Listener = TcpListener, Stream = TcpStream>>(
    rt: &R,
    alloc: Global,
    doors: LineDoors<'_>,
) -> Result<Vec<LineServer>, DayFault>
    ensures { IfErr result IsNoMismatch }
{
    let Some(address) = &doors.config.listen else {
        return Ok(Vec::new(alloc));
    };
    let Some(at) = first_address(rt, address) else {
        return Err(DayFault::NoLines);
    };
    let users = door_users(alloc, doors)?;
    opened(open_door(rt, alloc, at, users, doors.form))
}

/// The servers of the lines that come over the Unix socket, if any do.
fn open_unix<R: Net + Files>(
    rt: &R,
    alloc: Global,
    doors: LineDoors<'_>,
) -> Result<Vec<LineServer>, DayFault>
    ensures { IfErr result IsNoMismatch }
{
    let Some(path) = doors.socket else {
        return Ok(Vec::new(alloc));
    };
    let users = door_users(alloc, doors)?;
    opened(open_socket(rt, alloc, path, users, doors.form))
}

/// The servers of a door, or why there are none.
fn opened(servers: io::Result<Vec<LineServer>>) -> Result<Vec<LineServer>, DayFault>
    ensures { IfErr result IsNoMismatch }
{
    match servers {
        Ok(servers) => Ok(servers),
        Err(error) if error.kind() == ErrorKind::OutOfMemory => Err(DayFault::OutOfMemory),
        Err(_) => Err(DayFault::NoLines),
    }
}

/// No lines are taken any more: the Unix socket is removed, if there is one.
pub fn close_lines(files: &impl Files, socket: Option<&str>) {
    if let Some(path) = socket {
        close_socket(files, path);
    }
}

/// Who may send lines at these doors.
fn door_users(alloc: Global, doors: LineDoors<'_>) -> Result<Vec<User>, DayFault>
    ensures { IfErr result IsNoMismatch }
{
    if doors.tokens.len() != doors.config.users.len() {
        return Err(DayFault::NoLines);
    }
    Ok(users_of(alloc, doors.config, doors.tokens)?)
}

/// Who may send lines: the users of a configuration, who have these tokens; whoever has its one token, where it has
/// one, may all.
fn users_of(
    alloc: Global,
    config: &DeskConfig,
    tokens: &[TokenText],
) -> Result<Vec<User>, AllocError> {
    let mut users = Vec::new(alloc);
    for (user, token) in config.users.iter().zip(tokens.iter()) {
        users.push(user_of(user, token)?)?;
    }
    if let Some(token) = &config.token {
        users.push(user_of_desk(token)?)?;
    }
    Ok(users)
}

/// A user of a file, who has this token.
fn user_of(user: &desk_config::User, token: &TokenText) -> Result<User, AllocError> {
    let Some(name) = ClientName::new(user.name.as_bytes()) else {
        return Err(AllocError);
    };
    let may = user.may;
    Ok(User {
        name,
        token: token.clone()?,
        may: Rights {
            read: may.read,
            trade: may.trade,
            close: may.close,
            halt: may.halt,
        },
    })
}

/// Whoever has the desk's one token, who is called `desk`.
fn user_of_desk(token: &TokenText) -> Result<User, AllocError> {
    Ok(User {
        name: ClientName::new(b"desk").unwrap(),
        token: token.clone()?,
        may: Rights::ALL,
    })
}
