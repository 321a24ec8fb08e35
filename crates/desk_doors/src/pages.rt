//! What serves the page of a day, if it has one.

ghost use Rattle.std.specs.Prelude.{IfErr};
ghost use Rattle.desk_venues.specs.Faults.{IsNoMismatch};

use desk_config::{DeskConfig, TokenText};
use desk_serve::{PROCESS_FILE, PageServer, Rights, User, open_page};
use desk_venues::{DayFault, first_address};
use std::alloc::{AllocError, Global};
use std::fs::{self, File, Files};
use std::io::ErrorKind;
use std::net::{Net, TcpListener, TcpStream};
use std::time::Clock;

/// A user of a file, who has this token, as the page knows him.
fn page_user(
    alloc: Global,
    user: &desk_config::User,
    token: &TokenText,
) -> Result<User, AllocError> {
    let may = user.may;
    Ok(User {
        name: String::from_str(alloc, user.name.as_str())?,
        authorization: format!(in alloc; "Bearer {token}")?,
        rights: Rights {
            read: may.read,
            trade: may.trade,
            close: may.close,
            halt: may.halt,
        },
    })
}

/// The users of a file, who have these tokens, as the page knows them. One without a token is left out.
fn page_users(
    alloc: Global,
    users: &[desk_config::User],
    tokens: &[TokenText],
) -> Result<Vec<User>, AllocError> {
    let mut known = Vec::new(alloc);
    for (user, token) in users.iter().zip(tokens.iter()) {
        known.push(page_user(alloc, user, token)?)?;
    }
    Ok(known)
}

/// The servers of the page that a configuration asks for, one for each caller and each client that may follow the day;
/// none where it asks for no page. Its users have these tokens.
pub fn open_pages<R>(
    rt: &R,
    alloc: Global,
    config: &DeskConfig,
    tokens: &[TokenText],
) -> Result<Vec<PageServer>, DayFault>
where
    R: Net<Listener = TcpListener, Stream = TcpStream> + Files<File = File> + Clock,
    ensures { IfErr result IsNoMismatch }
{
    let Some(address) = &config.page else {
        return Ok(Vec::new(alloc));
    };
    let Some(at) = first_address(rt, address) else {
        return Err(DayFault::NoPage);
    };
    if tokens.len() != config.users.len() {
        return Err(DayFault::NoPage);
    }
    let Ok(users) = page_users(alloc, config.users.as_slice(), tokens) else {
        return Err(DayFault::OutOfMemory);
    };
    let process = fs::open(rt, PROCESS_FILE).ok();
    match open_page(rt, alloc, at, address, config, users, process) {
        Ok(servers) => Ok(servers),
        Err(error) if error.kind() == ErrorKind::OutOfMemory => Err(DayFault::OutOfMemory),
        Err(_) => Err(DayFault::NoPage),
    }
}
