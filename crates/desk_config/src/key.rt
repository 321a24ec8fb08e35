//! The keys of the file.

ghost use Rattle.std.specs.Prelude.{◌≡◌, Some};
ghost use Rattle.desk_config.specs.Key.{key_name, key_shown, key_wants};

use std::fmt;

/// A key of the file, of its `[desk]` or `[limits]`, of a `[[user]]`, of a `[[venue]]` or of that one's `words`.
#[derive(Clone, Copy, Debug, PartialEq, Eq)]
pub enum Key {
    Venue,
    User,
    DeskName,
    Environment,
    Sender,
    Callers,
    Log,
    Journal,
    Durable,
    Page,
    Listen,
    Socket,
    Token,
    Hosts,
    TokenFile,
    UserName,
    May,
    Name,
    Address,
    Addresses,
    Target,
    Dialect,
    Words,
    Id,
    Mark,
    Price,
    Symbol,
    Order,
    Header,
    Logon,
    PasswordFile,
    Heartbeat,
    NextExpected,
    Reopen,
    MaxNumber,
    Fill,
    LegShares,
    LegDollars,
    SweepDollars,
    DayDollars,
    Symbols,
}

impl Key {
    /// The key as the file spells it.
    pub fn name(self) -> &'static str
        ensures { result.now ≡ key_name self }
    {
        match self {
            Key::Venue => "venue",
            Key::User => "user",
            Key::Sender => "sender",
            Key::Callers => "callers",
            Key::Log => "log",
            Key::Journal => "journal",
            Key::Durable => "durable",
            Key::Page => "page",
            Key::Listen => "listen",
            Key::Socket => "socket",
            Key::Token => "token",
            Key::Hosts => "hosts",
            Key::TokenFile => "token_file",
            Key::May => "may",
            Key::DeskName | Key::Name | Key::UserName => "name",
            Key::Environment => "environment",
            Key::Address => "address",
            Key::Addresses => "addresses",
            Key::Target => "target",
            Key::Dialect => "dialect",
            Key::Words => "words",
            Key::Id => "id",
            Key::Mark => "mark",
            Key::Price => "price",
            Key::Symbol => "symbol",
            Key::Order => "order",
            Key::Header => "header",
            Key::Logon => "logon",
            Key::PasswordFile => "password_file",
            Key::Heartbeat => "heartbeat",
            Key::NextExpected => "next_expected",
            Key::Reopen => "reopen",
            Key::MaxNumber => "max_number",
            Key::Fill => "fill",
            Key::LegShares => "leg_shares",
            Key::LegDollars => "leg_dollars",
            Key::SweepDollars => "sweep_dollars",
            Key::DayDollars => "day_dollars",
            Key::Symbols => "symbols",
        }
    }

    /// What the key's value has to be.
    pub fn wants(self) -> &'static str
        ensures { result.now ≡ key_wants self }
    {
        match self {
            Key::Venue => "1 to 16 tables",
            Key::User => "1 to 32 tables",
            Key::Sender | Key::Target => "1 to 16 printable characters without spaces",
            Key::Callers => "1 to 64",
            Key::Log => "the name of a folder, 1 to 200 printable characters",
            Key::Journal => {
                "the name of a folder, 1 to 200 printable characters, with % only in %Y-%m-%d, once"
            }
            Key::Durable => "process or power",
            Key::Page | Key::Listen => "HOST:PORT",
            Key::Socket => "the name of a socket, 1 to 100 printable characters",
            Key::Token => "1 to 128 printable characters",
            Key::Hosts => "an array of 1 to 8 names as desk.example.com",
            Key::DeskName | Key::Environment | Key::UserName => "1 to 32 of A-Z a-z 0-9 - _ .",
            Key::May => "an array of read, trade, close or halt",
            Key::Name => "1 to 16 of A-Z a-z 0-9 _ -",
            Key::Address => "HOST:PORT or simulated",
            Key::Addresses => "an array of 1 to 4 HOST:PORT",
            Key::Dialect => "plain, split or coded",
            Key::Words => "a table of id, mark, price and symbol",
            Key::Id => "sweep 12's leg 3, as S12L3 or 000000000012-03",
            Key::Mark => "a text TAG=VALUE",
            Key::Price => "short or 1 to 4 decimals",
            Key::Symbol => "dot, slash, another mark from ! to /, or 55+65",
            Key::Order => "an array of texts TAG=VALUE",
            Key::Header | Key::Logon => "an array of 1 to 8 texts TAG=VALUE",
            Key::PasswordFile | Key::TokenFile =>
                "the name of a file, 1 to 200 printable characters",
            Key::Heartbeat => "1 to 3600",
            Key::NextExpected | Key::Reopen => "true or false",
            Key::MaxNumber => "16 to 999999999",
            Key::Fill => "0 to 1000000",
            Key::LegShares => "1 to 1000000",
            Key::LegDollars | Key::SweepDollars | Key::DayDollars => {
                "whole dollars, 1 to 1000000000000000"
            }
            Key::Symbols => "an array of 1 to 256 symbols as BRK.B",
        }
    }
}

/// A key of `words` has its table's name before it, as `words.id`.
impl fmt::Display for Key {
    ghost output = { λ key. Some (key_shown key) };

    fn fmt<W: fmt::Write>(&self, f: &mut fmt::Formatter<W>) -> fmt::Result {
        let name = self.name();
        match self {
            Key::Id | Key::Mark | Key::Price | Key::Symbol => write!(f, "words.{name}"),
            _ => write!(f, "{name}"),
        }
    }
}
