//! Why nothing came of an event, in words.

ghost use Rattle.std.specs.Prelude.{Some};

use crate::idle::Idle;
use std::fmt;

/// Why nothing came of an event, by what session and exchange expect after it.
#[derive(Clone, Copy)]
pub(crate) struct IdleText {
    pub(crate) session: u64,
    pub(crate) exchange: u64,
    pub(crate) idle: Idle,
}

/// What the exchange didn't take.
#[derive(Clone, Copy)]
struct Dropped {
    connection: u64,
    number: u64,
    expected: u64,
}

impl fmt::Display for Dropped {
    ghost use Rattle.event_text.specs.Idle.{dropped_text};

    ghost output = { λ it. Some (dropped_text it.connection it.number it.expected) };

    fn fmt<W: fmt::Write>(&self, f: &mut fmt::Formatter<W>) -> fmt::Result {
        let Dropped {
            connection,
            number,
            expected,
        } = *self;
        if number == expected {
            write!(
                f,
                "dropped: connection {connection} is over at the exchange"
            )
        } else {
            write!(
                f,
                "dropped: number {number}, the exchange expects {expected}"
            )
        }
    }
}

impl fmt::Display for IdleText {
    ghost use Rattle.event_text.specs.Idle.{idle_text};

    ghost output = { λ it. Some (idle_text it.session it.exchange it.idle) };

    fn fmt<W: fmt::Write>(&self, f: &mut fmt::Formatter<W>) -> fmt::Result {
        match self.idle {
            Idle::SessionNotUp => write!(f, "not possible: the session isn't up"),
            Idle::NotConnected => write!(f, "not possible: the session isn't connected"),
            Idle::NotLoggedOn => write!(f, "not possible: the session isn't logged on"),
            Idle::SilentOnce => {
                write!(
                    f,
                    "the session ends its connection if it hears nothing again"
                )
            }
            Idle::CloseAsked => write!(f, "the session was to close before"),
            Idle::SessionClosed => write!(f, "the session was closed before"),
            Idle::GateUp => write!(f, "not possible: the gate is up"),
            Idle::GateNotUp => write!(f, "not possible: the gate isn't up"),
            Idle::NothingPlaced => write!(f, "not possible: nothing is placed"),
            Idle::LegsPlaced => write!(f, "not possible: legs are placed"),
            Idle::NoFrame => write!(f, "not possible: no such frame"),
            Idle::OldConnection(connection) => {
                write!(
                    f,
                    "not possible: a frame of connection {connection}, which is over"
                )
            }
            Idle::ToSession { number, expected } => {
                if self.session == expected {
                    write!(
                        f,
                        "dropped: number {number}, the session expects {expected}"
                    )
                } else {
                    write!(f, "the session took number {number}")
                }
            }
            Idle::NoneThere(connection) => {
                write!(
                    f,
                    "dropped: connection {connection}, the exchange has had none"
                )
            }
            Idle::AnotherThere { connection, last } => {
                write!(
                    f,
                    "dropped: connection {connection}, the exchange's is {last}"
                )
            }
            Idle::ToExchange {
                connection,
                number,
                expected,
            } => {
                if self.exchange == expected {
                    let dropped = Dropped {
                        connection,
                        number,
                        expected,
                    };
                    write!(f, "{dropped}")
                } else {
                    write!(f, "the exchange took number {number}")
                }
            }
            Idle::NoExchange => write!(f, "the exchange has no connection"),
        }
    }
}
