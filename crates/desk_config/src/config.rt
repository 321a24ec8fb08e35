//! The configuration of a desk.

ghost use Rattle.std.specs.Prelude.{◌≡◌};

use crate::address::{Address, MAX_HOST};
use crate::journal::JournalTerms;
use crate::label::Label;
use crate::limit_keys::LimitsTable;
use crate::user::User;
use crate::venue::Venue;
use crate::within::Within;
use desk_words::Printable;
use leg::Symbol;

/// The most bytes of the name of the logs' folder.
pub const MAX_FOLDER: usize = 200;

/// The most bytes of a token.
pub const MAX_TOKEN: usize = 128;

/// The name of a folder.
pub type FolderText = Printable<MAX_FOLDER>;

/// The name of a file beside the desk's file.
pub type FileName = Printable<MAX_FOLDER>;

/// The most bytes of the name of a socket, which Linux bounds at 107.
pub const MAX_SOCKET: usize = 100;

/// The name of a Unix socket.
pub type SocketText = Printable<MAX_SOCKET>;

/// What is asked of whoever hands in sweeps or closes the day.
pub type TokenText = Printable<MAX_TOKEN>;

/// What the page may be called, as `desk.example.com`.
pub type HostName = Printable<MAX_HOST>;

/// How many sweeps may be handed in at once.
pub type Callers = Within<1, 64>;

/// What a file says of a desk's day.
#[derive(Debug, Drop)]
pub struct DeskConfig {
    /// How many sweeps may be handed in at once.
    pub callers: Callers,
    /// The folder of the message logs, as the file names it; none are kept without it.
    pub log: Option<FolderText>,
    /// Where the day's journal is kept; none is without it.
    pub journal: Option<JournalTerms>,
    /// Where the page and its API are served; nowhere without it.
    pub page: Option<Address>,
    /// Where lines are taken over TCP; nowhere without it.
    pub listen: Option<Address>,
    /// The Unix socket on which lines are taken, as the file names it; none is without it.
    pub socket: Option<SocketText>,
    /// The token. It or a user is there where the page or the lines aren't on 127.0.0.1; no user is there beside it.
    pub token: Option<TokenText>,
    /// What the page may be called beside its address; where there is a name, there is a token or a user.
    pub hosts: Vec<HostName>,
    /// Who may do what, at most 32, no two of one name or token; whoever has the token may do all where there is none.
    pub users: Vec<User>,
    /// What orders may have at most.
    pub limits: LimitsTable,
    /// The symbols that may be ordered, at most 256; any where there is none.
    pub symbols: Vec<Symbol>,
    /// What the desk is called.
    pub label: Label,
    /// The venues, 1 to 16, in the order of the file.
    pub venues: Vec<Venue>,
}
