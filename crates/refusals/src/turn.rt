//! The turns of the day.

use std::fmt;
use trial::{Order, TEN};

/// A turn of the day. Frames, orders and trades are counted from 1, in the order in which they were made.
#[derive(Clone, Copy, Debug)]
pub enum Turn {
    Connect,
    /// The frame of this count comes to the exchange.
    ToExchange(usize),
    /// The frame of this count comes to the session. Behind it the book takes what it says.
    ToSession(usize),
    /// The frame of this count comes to the session, the book doesn't take the note, and the connection breaks.
    Unconfirmed(usize),
    GateUp,
    GateDown,
    Place(&'static [Order]),
    /// The next leg is taken from the desk. Behind it the leg is sent.
    Take,
    Drop,
    /// The leg that was taken is sent.
    Send,
    /// The note that came is booked.
    Book,
    Trade { order: usize, shares: u64 },
    CancelRest(usize),
    Reject(usize),
    Bust { order: usize, trade: usize },
    Test,
    Quiet,
    Silent,
    Break,
    ExchangeBreak,
    Close,
}

impl fmt::Display for Turn {
    fn fmt<W: fmt::Write>(&self, f: &mut fmt::Formatter<W>) -> fmt::Result {
        match self {
            Turn::Connect => f.write_str("connect"),
            Turn::ToExchange(frame) => write!(f, "to {frame}"),
            Turn::ToSession(frame) => write!(f, "from {frame}"),
            Turn::Unconfirmed(frame) => write!(f, "from {frame}, which isn't booked"),
            Turn::GateUp => f.write_str("up"),
            Turn::GateDown => f.write_str("down"),
            Turn::Place(_) => f.write_str("place"),
            Turn::Take => f.write_str("take"),
            Turn::Drop => f.write_str("drop"),
            Turn::Send => f.write_str("send"),
            Turn::Book => f.write_str("book"),
            Turn::Trade { order, shares } => write!(f, "trade {order} {shares}"),
            Turn::CancelRest(order) => write!(f, "cancel {order}"),
            Turn::Reject(order) => write!(f, "reject {order}"),
            Turn::Bust { order, trade } => write!(f, "bust {order} {trade}"),
            Turn::Test => f.write_str("test"),
            Turn::Quiet => f.write_str("quiet"),
            Turn::Silent => f.write_str("silent"),
            Turn::Break => f.write_str("break"),
            Turn::ExchangeBreak => f.write_str("xbreak"),
            Turn::Close => f.write_str("close"),
        }
    }
}

/// An order of BRK.B at 10.25 dollars.
const BRK_B: Order = Order {
    root: b"BRK",
    suffix: b"B",
    price: 102_500,
    ..TEN
};

/// The sweep of which two legs are taken and one is dropped.
const FIRST: [Order; 3] = [
    Order {
        shares: 100,
        ..BRK_B
    },
    Order {
        shares: 200,
        ..BRK_B
    },
    Order { shares: 300, ..TEN },
];

/// The sweep of the second connection.
const SECOND: [Order; 1] = [Order { shares: 50, ..TEN }];

/// The sweep before the close.
const THIRD: [Order; 1] = [TEN];

/// The day: two legs are in doubt when the connection breaks, of which one was accepted; the next connection settles
/// both; a trade isn't booked before the connection breaks again, and is sent again; then trades, cancels, a bust, a
/// reject, and the close.
pub const DAY: [Turn; 70] = [
    Turn::Connect,
    Turn::ToExchange(1),
    Turn::ToSession(1),
    Turn::ToExchange(2),
    Turn::ToSession(2),
    Turn::GateUp,
    Turn::Place(&FIRST),
    Turn::Take,
    Turn::Take,
    Turn::Break,
    Turn::GateDown,
    Turn::Drop,
    Turn::ToExchange(3),
    Turn::Connect,
    Turn::ToExchange(5),
    Turn::ToExchange(4),
    Turn::ToSession(4),
    Turn::ToSession(5),
    Turn::ToExchange(8),
    Turn::ToExchange(9),
    Turn::ToSession(6),
    Turn::GateUp,
    Turn::Place(&SECOND),
    Turn::Take,
    Turn::ToSession(5),
    Turn::ToExchange(10),
    Turn::ToExchange(11),
    Turn::ToExchange(6),
    Turn::ToSession(8),
    Turn::ToSession(9),
    Turn::ToSession(10),
    Turn::Trade {
        order: 1,
        shares: 60,
    },
    Turn::Unconfirmed(11),
    Turn::ExchangeBreak,
    Turn::GateDown,
    Turn::Connect,
    Turn::ToExchange(12),
    Turn::ToSession(12),
    Turn::ToExchange(13),
    Turn::ToExchange(14),
    Turn::ToSession(15),
    Turn::ToSession(13),
    Turn::ToSession(14),
    Turn::ToSession(15),
    Turn::GateUp,
    Turn::CancelRest(1),
    Turn::ToSession(16),
    Turn::Trade {
        order: 2,
        shares: 50,
    },
    Turn::ToSession(17),
    Turn::Bust { order: 1, trade: 1 },
    Turn::ToSession(18),
    Turn::Test,
    Turn::ToSession(19),
    Turn::Quiet,
    Turn::Silent,
    Turn::Place(&THIRD),
    Turn::Take,
    Turn::Close,
    Turn::ToExchange(15),
    Turn::ToExchange(16),
    Turn::ToExchange(17),
    Turn::ToExchange(18),
    Turn::Reject(3),
    Turn::ToSession(20),
    Turn::ToSession(21),
    Turn::ToSession(22),
    Turn::ToExchange(19),
    Turn::ToSession(23),
    Turn::ToExchange(20),
    Turn::ToSession(24),
];
