//! What the servers of a day's lines share.

use crate::entrance::Entrance;
use crate::line_stream::{LineListener, remove_socket};
use crate::server::LineServer;
use crate::user::User;
use desk_talk::MOST_CONNECTIONS;
use json_lines::Form;
use std::alloc::Global;
use std::fs::Files;
use std::io;
use std::net::{Net, SocketAddr, TcpListener, TcpStream};
use std::sync::Arc;

/// What the servers of a day's lines share.
#[derive(Drop)]
pub(crate) struct Door {
    pub entrance: Entrance,
    /// Who may send lines; whoever comes may where there is none.
    pub users: Vec<User>,
    /// How answers are written.
    pub form: Form,
}

/// Opens a door for lines at an address: a server for each client that may be there, and one that turns others away.
/// Refused where the address can't be had, or memory or descriptors are wanted.
pub fn open_door<R: Net<Listener = TcpListener, Stream = TcpStream>>(
    rt: &R,
    alloc: Global,
    at: SocketAddr,
    users: Vec<User>,
    form: Form,
) -> io::Result<Vec<LineServer>> {
    open_behind(rt, alloc, LineListener::at(rt, at)?, users, form)
}

/// Opens a door for lines on a Unix socket of this path, as `open_door` does. A socket on which nobody listens makes
/// room for it. Refused where another file has the path or the system makes no socket there, or memory or descriptors
/// are wanted.
pub fn open_socket<R: Net + Files>(
    rt: &R,
    alloc: Global,
    path: &str,
    users: Vec<User>,
    form: Form,
) -> io::Result<Vec<LineServer>> {
    open_behind(rt, alloc, LineListener::on(rt, path)?, users, form)
}

/// Removes the socket of a door that is closed.
pub fn close_socket(files: &impl Files, path: &str) {
    remove_socket(files, path);
}

fn open_behind(
    net: &impl Net,
    alloc: Global,
    listener: LineListener,
    users: Vec<User>,
    form: Form,
) -> io::Result<Vec<LineServer>> {
    let entrance = Entrance::new(net, alloc, listener)?;
    let door = Arc::new(
        alloc,
        Door {
            entrance,
            users,
            form,
        },
    )?;
    let mut servers = Vec::new(alloc);
    for place in 0..=MOST_CONNECTIONS {
        servers.push(LineServer::new(door.clone()?, place == 0))?;
    }
    Ok(servers)
}
