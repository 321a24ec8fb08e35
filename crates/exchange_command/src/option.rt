//! An option of `dispatch exchange`.
ghost use Rattle.std.specs.Prelude.{◌≡◌, Some};
ghost use Rattle.exchange_command.specs.ExchangeOption.{option_name};

use std::fmt;

/// An option of `dispatch exchange`, in the order in which their values are tried.
#[derive(Clone, Copy, Debug, PartialEq, Eq)]
pub enum ExchangeOption {
    Port,
    Sender,
    Target,
    Dialect,
    Fill,
    Cut,
    Lose,
}

/// The options, in the order in which help lists them.
pub static EXCHANGE_OPTIONS: [ExchangeOption; 7] = [
    ExchangeOption::Port,
    ExchangeOption::Sender,
    ExchangeOption::Target,
    ExchangeOption::Dialect,
    ExchangeOption::Fill,
    ExchangeOption::Cut,
    ExchangeOption::Lose,
];

impl ExchangeOption {
    /// The name, without its dashes, for any time.
    pub fn name<'a>(self) -> &'a str
        ensures { result.now ≡ option_name self }
    {
        match self {
            ExchangeOption::Port => "port",
            ExchangeOption::Sender => "sender",
            ExchangeOption::Target => "target",
            ExchangeOption::Dialect => "dialect",
            ExchangeOption::Fill => "fill",
            ExchangeOption::Cut => "cut",
            ExchangeOption::Lose => "lose",
        }
    }

    /// What stands for its value in the help.
    pub fn value_name<'a>(self) -> &'a str {
        match self {
            ExchangeOption::Sender | ExchangeOption::Target => "ID",
            ExchangeOption::Dialect => "D",
            _ => "N",
        }
    }

    /// What the help says of it.
    pub fn help<'a>(self) -> &'a str {
        match self {
            ExchangeOption::Port => "the port of this machine on which it listens, 1 to 65535",
            ExchangeOption::Sender => "its own comp id (49), which a desk's file has as target",
            ExchangeOption::Target => "the desk's comp id (56), which a desk's file has as sender",
            ExchangeOption::Dialect => "how orders are spelled",
            ExchangeOption::Fill => {
                "how many shares of each order it trades before it cancels the rest, 0 to 1000000"
            }
            ExchangeOption::Cut => {
                "the message behind which it cuts the connection, up to 1000000; 0 for never"
            }
            ExchangeOption::Lose => "the message that it loses, up to 1000000; 0 for none",
        }
    }

    /// Its value where the command line has none. The other options are required.
    pub fn default_value<'a>(self) -> Option<&'a str> {
        match self {
            ExchangeOption::Port | ExchangeOption::Sender | ExchangeOption::Target => None,
            ExchangeOption::Dialect => Some("plain"),
            ExchangeOption::Fill => Some("1000000"),
            ExchangeOption::Cut | ExchangeOption::Lose => Some("0"),
        }
    }

    /// What its value has to be, as the line behind a bad one says.
    pub fn wanted(self) -> &'static str {
        match self {
            ExchangeOption::Port => "a whole number from 1 to 65535 is wanted",
            ExchangeOption::Sender | ExchangeOption::Target => {
                "1 to 16 printable bytes and no space are wanted"
            }
            ExchangeOption::Dialect => "plain, split or coded is wanted",
            ExchangeOption::Fill | ExchangeOption::Cut | ExchangeOption::Lose => {
                "a whole number from 0 to 1000000 is wanted"
            }
        }
    }
}

impl fmt::Display for ExchangeOption {
    ghost output = { λ option. Some (option_name option) };

    fn fmt<W: fmt::Write>(&self, f: &mut fmt::Formatter<W>) -> fmt::Result {
        f.write_str(self.name())
    }
}
