//! The hosts that a venue is dialled at.

ghost use Rattle.std.specs.Prelude.{◌≡◌, ◌++◌, ◌∷◌, IfOk, OnOk, option_map, option_to_list};
ghost use Rattle.desk_venues.specs.Addresses.{backups_of, host_of};

use desk_config::Address;
use link::Host;
use std::alloc::{AllocError, Global};

/// An address of the file, as a host to dial.
fn host_of(alloc: Global, address: &Address) -> Result<Host, AllocError>
    ensures { IfOk result (λ host. host ≡ host_of address.now) }
{
    Ok(Host {
        name: String::from_str(alloc, address.host.as_str())?,
        port: address.port.get() as u16,
    })
}

/// Appends the host of an address, if there is one.
fn push_host(
    alloc: Global,
    hosts: &mut Vec<Host>,
    address: &Option<Address>,
) -> Result<(), AllocError>
    ensures { OnOk result (hosts.new.items ≡ hosts.old.items ++ option_to_list (option_map host_of address.now)) }
{
    if let Some(address) = address {
        hosts.push(host_of(alloc, address)?)?;
    }
    Ok(())
}

/// The hosts that these addresses of the file are, the first before the others, in order.
pub(crate) fn hosts_of(
    alloc: Global,
    first: &Address,
    backups: &[Option<Address>],
) -> Result<Vec<Host>, AllocError>
    ensures { IfOk result (λ hosts. hosts.items ≡ host_of first.now ∷ backups_of backups.now) }
{
    let mut hosts = Vec::new(alloc);
    hosts.push(host_of(alloc, first)?)?;
    for backup in backups {
        push_host(alloc, &mut hosts, backup)?;
    }
    Ok(hosts)
}
