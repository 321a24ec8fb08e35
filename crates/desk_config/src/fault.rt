//! What is wrong with the file.

ghost use Rattle.std.specs.Prelude.{◌≡◌, Some};
ghost use Rattle.desk_config.specs.Fault.{config_fault_text, fault_text, key_fault_text};
ghost use Rattle.desk_config.specs.declared.fault.ConfigFault.TheVariants.{OutOfMemory};

use crate::found::{Found, FoundText};
use crate::key::Key;
use crate::place::Place;
use std::alloc::AllocFailed;
use std::error::Error;
use std::fmt;
use venue_words::FieldFault;

/// What is wrong in a table.
#[derive(Debug, PartialEq, Eq, Drop)]
pub enum Fault {
    /// What has to be a table is another value.
    NoTable(Found),
    /// A key that the table may not have.
    Unknown(FoundText),
    /// A key that a venue's `words` may not have.
    UnknownWord(FoundText),
    /// A key that it has to have isn't there.
    Missing(Key),
    /// The key's value is of another type, or out of its range.
    Bad {
        key: Key,
        found: Found,
    },
    /// The mark of a venue's words isn't taken.
    Mark {
        found: Found,
        fault: FieldFault,
    },
    /// A field that every order is to carry isn't taken: which one, counted from 1.
    Order {
        number: usize,
        found: Found,
        fault: FieldFault,
    },
    /// A field of the header or the Logon isn't taken: which one, counted from 1.
    Field {
        key: Key,
        number: usize,
        found: Found,
        fault: FieldFault,
    },
    /// What the journal outlives is said, and there is none.
    NoJournal,
    /// The host of this key's address isn't 127.0.0.1, and there is neither a token nor a user.
    NeedsToken(Key),
    /// The page has a name of its own, and there is neither a token nor a user.
    HostsNeedToken,
    /// There are users beside the token of the desk.
    TokenBesideUsers,
    /// A user has both `token` and `token_file`.
    TwoTokens,
    /// A value of `may` names nothing that a user may do: which one, counted from 1.
    Right {
        number: usize,
        found: Found,
    },
    /// A value of `may` names what an earlier one does: which one, counted from 1.
    RightTwice {
        number: usize,
        found: Found,
    },
    /// An earlier user, counted from 1, has the same name.
    SameUser(usize),
    /// An earlier user, counted from 1, is known by the same token.
    SameToken(usize),
    /// A name of the page isn't one: which one, counted from 1.
    Host {
        number: usize,
        found: Found,
    },
    /// A symbol of the limits isn't one: which one, counted from 1.
    Symbol {
        number: usize,
        found: Found,
    },
    /// A venue has both `address` and `addresses`.
    TwoAddresses,
    /// One of a venue's addresses isn't one: which one, counted from 1.
    Address {
        number: usize,
        found: Found,
    },
    /// A venue that has an address says how a simulated one fills.
    OnlySimulated,
    /// An earlier venue, counted from 1, has the same name.
    SameName(usize),
    /// An earlier venue, counted from 1, has the same address and the same comp ids.
    SameSession(usize),
    /// There is a journal, and this venue, counted from 1, is called as that of the desk.
    DeskName(usize),
}

impl fmt::Display for Fault {
    ghost output = { λ fault. Some (fault_text fault) };

    fn fmt<W: fmt::Write>(&self, f: &mut fmt::Formatter<W>) -> fmt::Result {
        match self {
            Fault::NoTable(found) => write!(f, "it is {found}, and has to be a table"),
            Fault::Unknown(key) => write!(f, "unknown key {key}"),
            Fault::UnknownWord(key) => write!(f, "unknown key words.{key}"),
            Fault::Missing(key) => write!(f, "{key} is missing"),
            Fault::Bad { key, found } => {
                let wants = key.wants();
                write!(f, "{key} is {found}, and has to be {wants}")
            }
            Fault::Mark { found, fault } => write!(f, "words.mark is {found}: {fault}"),
            Fault::Order {
                number,
                found,
                fault,
            } => write!(f, "order {number} is {found}: {fault}"),
            Fault::Field {
                key,
                number,
                found,
                fault,
            } => write!(f, "{key} {number} is {found}: {fault}"),
            Fault::NoJournal => write!(f, "durable is there, and there is no journal"),
            Fault::NeedsToken(key) => {
                write!(
                    f,
                    "{key} is not at 127.0.0.1, and there is no token and no user"
                )
            }
            Fault::HostsNeedToken => write!(f, "hosts is there, and there is no token and no user"),
            Fault::TokenBesideUsers => write!(f, "token is there, and so are users"),
            Fault::TwoTokens => write!(f, "token and token_file are both there"),
            Fault::Right { number, found } => write!(
                f,
                "may {number} is {found}, and has to be read, trade, close or halt"
            ),
            Fault::RightTwice { number, found } => {
                write!(f, "may {number} is {found}, as an earlier one is")
            }
            Fault::SameUser(place) => write!(f, "name is that of user {place}"),
            Fault::SameToken(place) => write!(f, "token is that of user {place}"),
            Fault::Host { number, found } => write!(
                f,
                "hosts {number} is {found}, and has to be a name as desk.example.com"
            ),
            Fault::Symbol { number, found } => write!(
                f,
                "symbols {number} is {found}, and has to be a symbol as BRK.B"
            ),
            Fault::TwoAddresses => write!(f, "address and addresses are both there"),
            Fault::Address { number, found } => {
                write!(f, "addresses {number} is {found}, and has to be HOST:PORT")
            }
            Fault::OnlySimulated => write!(f, "fill is there, and the venue isn't simulated"),
            Fault::SameName(place) => write!(f, "name is that of venue {place}"),
            Fault::SameSession(place) => {
                write!(f, "address and comp ids are those of venue {place}")
            }
            Fault::DeskName(place) => write!(
                f,
                "journal is there, and venue {place} is called desk, as the desk's journal is"
            ),
        }
    }
}

/// What is wrong, and in which table.
#[derive(Debug, PartialEq, Eq, Drop)]
pub struct KeyFault {
    pub place: Place,
    pub fault: Fault,
}

impl fmt::Display for KeyFault {
    ghost output = { λ fault. Some (key_fault_text fault) };

    fn fmt<W: fmt::Write>(&self, f: &mut fmt::Formatter<W>) -> fmt::Result {
        let place = &self.place;
        let fault = &self.fault;
        write!(f, "{place}{fault}")
    }
}

/// Why a file gives no configuration. Its text names the place and the key; the file's name is the caller's to say.
#[derive(Debug, Drop)]
pub enum ConfigFault {
    /// The text is no TOML, as where a key stands twice; or memory ran out while it was read.
    Toml(toml::de::Error),
    /// The first fault of its keys and values.
    Key(KeyFault),
    /// No memory is left for the list of venues.
    OutOfMemory,
}

/// What TOML's reader says of its own faults isn't promised.
impl fmt::Display for ConfigFault {
    ghost output = { config_fault_text };

    fn fmt<W: fmt::Write>(&self, f: &mut fmt::Formatter<W>) -> fmt::Result {
        match self {
            ConfigFault::Toml(fault) => write!(f, "{fault}"),
            ConfigFault::Key(fault) => write!(f, "{fault}"),
            ConfigFault::OutOfMemory => write!(f, "out of memory"),
        }
    }
}

impl Error for ConfigFault {}

impl<T: Drop> From<AllocFailed<T>> for ConfigFault {
    ghost from_gives = { λ _ fault. fault ≡ OutOfMemory };

    fn from(_: AllocFailed<T>) -> ConfigFault {
        ConfigFault::OutOfMemory
    }
}
