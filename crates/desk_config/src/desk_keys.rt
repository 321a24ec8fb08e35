//! The keys of `[desk]`.

ghost use Rattle.std.specs.Prelude.{◌≡◌};
ghost use Rattle.desk_config.specs.Desk.{desk_in, desk_table, doors_in, is_open, journal_in, label_in};
ghost use Rattle.desk_config.specs.Reading.{in_place};
ghost use Rattle.toml.specs.View.{view};

use crate::address::Address;
use crate::config::{Callers, FolderText, SocketText, TokenText};
use crate::fault::{Fault, KeyFault};
use crate::journal::{DayPattern, Durable, JournalTerms};
use crate::key::Key;
use crate::keys::Keys;
use crate::label::Label;
use crate::place::Place;
use crate::user::UserName;
use crate::value_at::{checked, value_at};
use fix_tags::CompId;
use toml::Value;

/// How many callers there are where the file doesn't say.
const CALLERS: u64 = 8;

/// What `[desk]` says.
#[derive(Debug, Drop)]
pub(crate) struct DeskTable {
    pub sender: Option<CompId>,
    pub callers: Callers,
    pub log: Option<FolderText>,
    pub journal: Option<JournalTerms>,
    pub doors: Doors,
    pub label: Label,
}

/// Where the journal is kept, which outlives the process where the file doesn't say more.
#[tactic(auto, unfolding(crate::specs::Desk::journal_in))]
fn journal_in(desk: &Value) -> Result<Option<JournalTerms>, Fault>
    ensures { result ≡ journal_in (view desk.now) }
{
    let folder: Option<DayPattern> = value_at(desk, Key::Journal)?;
    let durable: Option<Durable> = value_at(desk, Key::Durable)?;
    match (folder, durable) {
        (Some(folder), durable) => {
            let durable = durable.unwrap_or(Durable::Process);
            Ok(Some(JournalTerms { folder, durable }))
        }
        (None, Some(_)) => Err(Fault::NoJournal),
        (None, None) => Ok(None),
    }
}

/// Where a day is reached, and by which token.
#[derive(Debug, Drop)]
pub(crate) struct Doors {
    pub page: Option<Address>,
    pub listen: Option<Address>,
    pub socket: Option<SocketText>,
    pub token: Option<TokenText>,
}

/// Whether an address is one that others can reach.
fn is_open(address: &Option<Address>) -> bool
    ensures { result ≡ is_open address.now }
{
    match address {
        Some(address) => !address.is_loopback(),
        None => false,
    }
}

/// Where the page is served and lines are taken, and the token: it or a user has to be there unless both addresses are
/// 127.0.0.1, and not both of them. A socket is guarded by its folder's rights.
#[tactic(auto, unfolding(crate::specs::Desk::doors_in))]
fn doors_in(has_users: bool, desk: &Value) -> Result<Doors, Fault>
    ensures { result ≡ doors_in has_users (view desk.now) }
{
    let page: Option<Address> = value_at(desk, Key::Page)?;
    let listen: Option<Address> = value_at(desk, Key::Listen)?;
    let socket: Option<SocketText> = value_at(desk, Key::Socket)?;
    let token: Option<TokenText> = value_at(desk, Key::Token)?;
    let is_guarded = has_users || token.is_some();
    if has_users && token.is_some() {
        Err(Fault::TokenBesideUsers)
    } else if !is_guarded && is_open(&page) {
        Err(Fault::NeedsToken(Key::Page))
    } else if !is_guarded && is_open(&listen) {
        Err(Fault::NeedsToken(Key::Listen))
    } else {
        Ok(Doors {
            page,
            listen,
            socket,
            token,
        })
    }
}

/// What the desk is called.
#[tactic(auto, unfolding(crate::specs::Desk::label_in))]
fn label_in(desk: &Value) -> Result<Label, Fault>
    ensures { result ≡ label_in (view desk.now) }
{
    let name: Option<UserName> = value_at(desk, Key::DeskName)?;
    let environment: Option<UserName> = value_at(desk, Key::Environment)?;
    Ok(Label { name, environment })
}

#[tactic(auto, unfolding(crate::specs::Desk::desk_table))]
fn desk_table(has_users: bool, desk: &Value) -> Result<DeskTable, Fault>
    ensures { result ≡ desk_table has_users (view desk.now) }
{
    checked(desk, Keys::Desk)?;
    let sender = value_at(desk, Key::Sender)?;
    let callers = value_at(desk, Key::Callers)?.unwrap_or(Callers::of(CALLERS));
    let log = value_at(desk, Key::Log)?;
    let journal = journal_in(desk)?;
    let doors = doors_in(has_users, desk)?;
    let label = label_in(desk)?;
    Ok(DeskTable {
        sender,
        callers,
        log,
        journal,
        doors,
        label,
    })
}

/// What a file's `[desk]` says; a file without one has neither name, comp id, nor log, journal, page, lines
/// over sockets or token, and 8 callers.
#[tactic(auto, unfolding(crate::specs::Desk::desk_in))]
pub(crate) fn read_desk(file: &Value) -> Result<DeskTable, KeyFault>
    ensures { result ≡ desk_in (view file.now) }
{
    let Some(desk) = file.get("desk") else {
        return Ok(DeskTable {
            sender: None,
            callers: Callers::of(CALLERS),
            log: None,
            journal: None,
            doors: Doors {
                page: None,
                listen: None,
                socket: None,
                token: None,
            },
            label: Label {
                name: None,
                environment: None,
            },
        });
    };
    match desk_table(file.get("user").is_some(), desk) {
        Ok(table) => Ok(table),
        Err(fault) => Err(KeyFault {
            place: Place::Desk,
            fault,
        }),
    }
}
