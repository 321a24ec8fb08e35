//! An option of `dispatch order`.
ghost use Rattle.std.specs.Prelude.{◌≡◌, Some};
ghost use Rattle.order_command.specs.OrderOption.{option_name};

use std::fmt;

/// An option of `dispatch order`, in the order in which their values are tried.
#[derive(Clone, Copy, Debug, PartialEq, Eq)]
pub enum OrderOption {
    Dialect,
    Sweep,
    Leg,
    Symbol,
    Side,
    Shares,
    Price,
    Number,
    From,
    To,
    At,
}

/// The options, in the order in which help lists them.
pub static ORDER_OPTIONS: [OrderOption; 11] = [
    OrderOption::Dialect,
    OrderOption::Sweep,
    OrderOption::Leg,
    OrderOption::Symbol,
    OrderOption::Side,
    OrderOption::Shares,
    OrderOption::Price,
    OrderOption::Number,
    OrderOption::From,
    OrderOption::To,
    OrderOption::At,
];

impl OrderOption {
    /// The name, without its dashes, for any time.
    pub fn name<'a>(self) -> &'a str
        ensures { result.now ≡ option_name self }
    {
        match self {
            OrderOption::Dialect => "dialect",
            OrderOption::Sweep => "sweep",
            OrderOption::Leg => "leg",
            OrderOption::Symbol => "symbol",
            OrderOption::Side => "side",
            OrderOption::Shares => "shares",
            OrderOption::Price => "price",
            OrderOption::Number => "number",
            OrderOption::From => "from",
            OrderOption::To => "to",
            OrderOption::At => "at",
        }
    }

    /// What stands for its value in the help.
    pub fn value_name<'a>(self) -> &'a str {
        match self {
            OrderOption::Dialect => "D",
            OrderOption::Symbol => "S",
            OrderOption::Side => "SIDE",
            OrderOption::From | OrderOption::To => "ID",
            OrderOption::At => "STAMP",
            _ => "N",
        }
    }

    /// What the help says of it.
    pub fn help<'a>(self) -> &'a str {
        match self {
            OrderOption::Dialect => "how the order is spelled",
            OrderOption::Sweep => "the sweep's number, 1 to 999999999999",
            OrderOption::Leg => "the leg's place in the sweep, 1 to 32",
            OrderOption::Symbol => {
                "1 to 6 letters, and with a suffix a point and 1 to 3 letters, as BRK.B"
            },
            OrderOption::Side => "buy or sell",
            OrderOption::Shares => "1 to 1000000",
            OrderOption::Price => {
                "in ten-thousandths of a dollar, 1 to 9999999999: 102500 is $10.25"
            },
            OrderOption::Number => "the message's number, 1 to 999999998",
            OrderOption::From => "the sender's comp id, 1 to 16 printable bytes and no space",
            OrderOption::To => "the target's comp id, 1 to 16 printable bytes and no space",
            OrderOption::At => {
                "the sending time, as 20240102-14:30:00.000; else the clock's, in UTC"
            }
        }
    }

    /// What its value has to be, as the line behind a bad one says.
    pub fn wanted(self) -> &'static str {
        match self {
            OrderOption::Dialect => "plain, split or coded is wanted",
            OrderOption::Sweep => "a whole number from 1 to 999999999999 is wanted",
            OrderOption::Leg => "a whole number from 1 to 32 is wanted",
            OrderOption::Symbol => {
                "1 to 6 letters A to Z are wanted, and with a suffix a point and 1 to 3 letters, as BRK.B"
            }
            OrderOption::Side => "buy or sell is wanted",
            OrderOption::Shares => "a whole number from 1 to 1000000 is wanted",
            OrderOption::Price => {
                "a whole number of ten-thousandths of a dollar from 1 to 9999999999 is wanted, as 102500 for $10.25"
            }
            OrderOption::Number => "a whole number from 1 to 999999998 is wanted",
            OrderOption::From | OrderOption::To => {
                "1 to 16 printable bytes and no space are wanted"
            }
            OrderOption::At => "a moment with its milliseconds is wanted, as 20240102-14:30:00.000",
        }
    }
}

impl fmt::Display for OrderOption {
    ghost output = { λ option. Some (option_name option) };

    fn fmt<W: fmt::Write>(&self, f: &mut fmt::Formatter<W>) -> fmt::Result {
        f.write_str(self.name())
    }
}
