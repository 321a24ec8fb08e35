//! Where a venue's exchange is.

ghost use Rattle.std.specs.Prelude.{◌≡◌};
ghost use Rattle.desk_config.specs.Endpoint.{where_of};

use crate::address::Address;
use crate::within::Within;
use leg::MAX_SHARES;

/// How many shares of each order a simulated exchange trades at once.
pub type FillShares = Within<0, MAX_SHARES>;

/// An exchange that is dialled, or one inside this process.
#[derive(Debug, PartialEq, Eq, Drop)]
pub enum Endpoint {
    At(Address),
    /// One that trades so many shares of each order at once.
    Simulated(FillShares),
}

/// What the file names as an address.
#[derive(Debug, Drop)]
pub(crate) enum Where {
    At(Address),
    Simulated,
}

impl Where {
    /// An address, or `simulated`.
    pub(crate) fn new(text: &str) -> Option<Where>
        ensures { result ≡ where_of text.now }
    {
        if text == "simulated" {
            return Some(Where::Simulated);
        }
        let address = Address::new(text.as_bytes())?;
        Some(Where::At(address))
    }
}
