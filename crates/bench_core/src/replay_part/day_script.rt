//! The script of a day at one venue, made up line by line.

use std::alloc::{AllocError, Global};

/// How many legs are sent between two breaks of the connection.
const LEGS_BETWEEN_BREAKS: u64 = 1_000;

/// A script so far: its text, how many events it has, the last frame each way, and how many orders the exchange
/// accepted.
#[derive(Drop)]
pub struct DayScript {
    alloc: Global,
    text: String,
    events: u64,
    last_to: u64,
    last_from: u64,
    orders: u64,
}

impl DayScript {
    /// A day that begins: the session logs on, and the gate goes up.
    pub fn new(alloc: Global) -> Result<DayScript, AllocError> {
        let mut day = DayScript {
            alloc,
            text: String::from_str(alloc, "venues 999999999 plain\n")?,
            events: 0,
            last_to: 0,
            last_from: 0,
            orders: 0,
        };
        day.line("connect 0\n")?;
        day.to_exchange()?;
        day.to_dispatcher()?;
        day.to_exchange()?;
        day.to_dispatcher()?;
        day.line("up 0\n")?;
        Ok(day)
    }

    /// The text of the script.
    pub fn text(&self) -> &str {
        self.text.as_str()
    }

    /// How many events the script has.
    pub fn events(&self) -> u64 {
        self.events
    }

    /// The script goes on until it has so many events, or a few more.
    pub fn go_on(&mut self, events: u64) -> Result<(), AllocError> {
        for turn in 1..events {
            if self.events >= events {
                break;
            }
            self.trade_a_leg()?;
            if turn % LEGS_BETWEEN_BREAKS == 0 {
                self.lose_a_leg()?;
            }
        }
        Ok(())
    }

    /// A leg is sent, accepted and traded in part.
    fn trade_a_leg(&mut self) -> Result<(), AllocError> {
        self.send_a_leg()?;
        self.to_exchange()?;
        self.to_dispatcher()?;
        self.orders = self.orders.saturating_add(1);
        let order = self.orders;
        let trade = format!(in self.alloc; "trade 0 {order} 60 10.25\n")?;
        self.line(trade.as_str())?;
        self.to_dispatcher()
    }

    /// A leg is sent, and lost in a break. The next connection finds that out, and withdraws it.
    fn lose_a_leg(&mut self) -> Result<(), AllocError> {
        self.send_a_leg()?;
        self.skip_to_exchange();
        for line in ["break 0\n", "down 0\n", "connect 0\n"] {
            self.line(line)?;
        }
        // The Logon, which the exchange answers with its own and a resend request.
        self.to_exchange()?;
        self.to_dispatcher()?;
        self.to_dispatcher()?;
        // The fence of the Logon is filled over. Then come the gap fill and another fence, whose answer brings the
        // session up.
        self.skip_to_exchange();
        self.to_exchange()?;
        self.to_exchange()?;
        self.to_dispatcher()?;
        self.line("up 0\n")
    }

    fn send_a_leg(&mut self) -> Result<(), AllocError> {
        self.line("release 0 IBM buy 100 102500\n")?;
        self.line("take 0\n")
    }

    /// The next frame to the exchange comes to it.
    fn to_exchange(&mut self) -> Result<(), AllocError> {
        self.skip_to_exchange();
        let frame = self.last_to;
        let line = format!(in self.alloc; "to 0 {frame}\n")?;
        self.line(line.as_str())
    }

    /// The next frame to the exchange is lost.
    fn skip_to_exchange(&mut self) {
        self.last_to = self.last_to.saturating_add(1);
    }

    /// The next frame from the exchange comes to the session.
    fn to_dispatcher(&mut self) -> Result<(), AllocError> {
        self.last_from = self.last_from.saturating_add(1);
        let frame = self.last_from;
        let line = format!(in self.alloc; "from 0 {frame}\n")?;
        self.line(line.as_str())
    }

    /// Appends the line of an event.
    fn line(&mut self, line: &str) -> Result<(), AllocError> {
        self.events = self.events.saturating_add(1);
        self.text.push_str(line)
    }
}
