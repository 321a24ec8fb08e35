//! What an address of the file stands for.

ghost use Rattle.std.specs.Prelude.{IfSome};
ghost use Rattle.link.specs.Hosts.{StandsFor};
ghost use Rattle.desk_venues.specs.Addresses.{host_of};

use desk_config::Address;
use std::net::{Net, SocketAddr, ToSocketAddrs};

/// The first address that a host's name and port stand for, if it has one.
pub fn first_address<N: Net>(net: &N, address: &Address) -> Option<SocketAddr>
    ensures { IfSome result (StandsFor (host_of address.now)) }
{
    let port = u16::try_from(address.port.get()).ok()?;
    let mut found = (address.host.as_str(), port).to_socket_addrs(net).ok()?;
    found.next()
}
