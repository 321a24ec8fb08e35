//! A host that a link dials.

ghost use Rattle.std.specs.Prelude.{IfOk, Some, slice_get};
ghost use Rattle.std.specs.Net.ToAddrs.{host_addrs};
ghost use Rattle.link.specs.Hosts.{AreOfTurn};

use crate::dial_error::DialError;
use std::alloc::Global;
use std::marker::Model;
use std::net::{HostAddrs, Net, ToSocketAddrs};

/// A host and a port. Contracts see the name as bytes.
#[derive(Drop)]
pub struct Host {
    /// A name, which the system's resolver is asked for, or an IP.
    pub name: String<Global>,
    pub port: u16,
}

impl Model for Host {
    ghost use Rattle.std.specs.Prelude.{string_bytes};
    ghost use Rattle.link.specs.Hosts.{HostParts};

    ghost Value = { HostParts };

    ghost view = { λ h. record { name = string_bytes h.name; port = h.port } };
}

/// The addresses that the host whose turn it is stands for at this moment, in the resolver's order. It waits for the
/// resolver.
pub(crate) fn look_up<N: Net>(net: &N, hosts: &[Host], turn: usize) -> Result<HostAddrs, DialError>
    ensures { IfOk result (λ found. AreOfTurn hosts.now turn (host_addrs found)) }
{
    let Some(host) = hosts.get(turn) else {
        return Err(DialError::NoSuchHost);
    };
    match (host.name.as_str(), host.port).to_socket_addrs(net) {
        Ok(found) => Ok(found),
        Err(_) => Err(DialError::NoSuchHost),
    }
}
