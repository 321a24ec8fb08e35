//! A message as it is written.

ghost use Rattle.std.specs.Prelude.{◌≡◌};
ghost use Rattle.dialect.specs.Outgoing.{alone};

use crate::message::Message;
use crate::order_view::OrderView;

/// A message, and beside a report what its exchange knew of the order: its OrderID (37), the shares filled (14) and
/// those open (151). A message that is no report has nothing beside it.
#[derive(Clone, Debug, Drop)]
pub struct Outgoing<'a> {
    pub message: Message<'a>,
    pub beside: Option<OrderView>,
}

impl<'a> Outgoing<'a> {
    /// A message that has nothing beside it.
    pub fn alone(message: Message<'a>) -> Outgoing<'a>
        ensures { result ≡ alone message.entry }
    {
        Outgoing {
            message,
            beside: None,
        }
    }
}
