//! An option of `dispatch live`.
ghost use Rattle.std.specs.Prelude.{◌≡◌, Some};
ghost use Rattle.live_command.specs.LiveOption.{option_name};

use std::fmt;

/// An option of `dispatch live`, in the order in which their values are tried. Each is a number.
#[derive(Clone, Copy, Debug, PartialEq, Eq)]
pub enum LiveOption {
    Venues,
    Callers,
    Sweeps,
    Cut,
    Turns,
}

/// The options, in the order in which help lists them.
pub static LIVE_OPTIONS: [LiveOption; 5] = [
    LiveOption::Venues,
    LiveOption::Callers,
    LiveOption::Sweeps,
    LiveOption::Cut,
    LiveOption::Turns,
];

impl LiveOption {
    /// The name, without its dashes, for any time.
    pub fn name<'a>(self) -> &'a str
        ensures { result.now ≡ option_name self }
    {
        match self {
            LiveOption::Venues => "venues",
            LiveOption::Callers => "callers",
            LiveOption::Sweeps => "sweeps",
            LiveOption::Cut => "cut",
            LiveOption::Turns => "turns",
        }
    }

    /// The value that it has where the command line gives none.
    pub fn default_value<'a>(self) -> &'a str {
        match self {
            LiveOption::Venues | LiveOption::Callers => "2",
            LiveOption::Sweeps => "5",
            LiveOption::Cut => "0",
            LiveOption::Turns => "10000",
        }
    }

    /// What the help says of it.
    pub fn help<'a>(self) -> &'a str {
        match self {
            LiveOption::Venues => {
                "how many venues there are, each with an exchange and a worker, 1 to 16"
            }
            LiveOption::Callers => "how many callers release sweeps at once, 1 to 64",
            LiveOption::Sweeps => "how many sweeps each caller releases, 1 to 1000000",
            LiveOption::Cut => {
                "the message behind which exchange 0 cuts its connection, up to 1000000; 0 for never"
            }
            LiveOption::Turns => {
                "how often a worker rests, and a sweep is tried, at most, 1 to 1000000"
            }
        }
    }

    /// What its value has to be, as the line behind a bad one says.
    pub fn wanted(self) -> &'static str {
        match self {
            LiveOption::Venues => "a whole number from 1 to 16 is wanted",
            LiveOption::Callers => "a whole number from 1 to 64 is wanted",
            LiveOption::Cut => "a whole number from 0 to 1000000 is wanted",
            LiveOption::Sweeps | LiveOption::Turns => "a whole number from 1 to 1000000 is wanted",
        }
    }
}

impl fmt::Display for LiveOption {
    ghost output = { λ option. Some (option_name option) };

    fn fmt<W: fmt::Write>(&self, f: &mut fmt::Formatter<W>) -> fmt::Result {
        f.write_str(self.name())
    }
}
