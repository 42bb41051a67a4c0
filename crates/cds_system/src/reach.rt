//! Which addresses a link goes to. A callback of a stranger's choosing is a known way to turn media servers on others
//! (CVE-2020-12695). So a link goes to no address beyond the local networks.

ghost use Rattle.std.specs.Prelude.{◌↔◌, IfOk, IsTrue};
ghost use Rattle.std.specs.Net.Socket.{socket_ip};
ghost use Rattle.cds_system.specs.Near.{IsNear};

use cds_outside::LinkFault;
use std::alloc::Global;
use std::net::{IpAddr, SocketAddr};
use url::{Host, ParseError, Url};

/// Returns whether an address is of a loopback, link-local or private range.
pub fn is_near(ip: IpAddr) -> bool
    ensures { IsTrue result ↔ IsNear ip }
{
    match ip {
        IpAddr::V4(ip) => ip.is_loopback() || ip.is_link_local() || ip.is_private(),
        IpAddr::V6(ip) => { ip.is_loopback() || ip.is_unicast_link_local() || ip.is_unique_local() }
    }
}

/// Returns the address that an `http` URL names, which is near. `Failed` comes if the text is no such URL, if its host is a name,
/// or if the address is not near.
pub fn near_address(alloc: Global, url: &str) -> Result<SocketAddr, LinkFault>
    ensures { IfOk result (λ address. IsNear (socket_ip address)) }
{
    match address_in(alloc, url)? {
        Some(address) if is_near(address.ip()) => Ok(address),
        _ => Err(LinkFault::Failed),
    }
}

/// Returns the address that an `http` URL names. `None` if the text is no such URL, or its host is a name.
fn address_in(alloc: Global, url: &str) -> Result<Option<SocketAddr>, LinkFault> {
    match Url::parse(alloc, url) {
        Ok(url) => Ok(address_of(&url)),
        Err(ParseError::OutOfMemory) => Err(LinkFault::Mem),
        Err(ParseError::Overflow) => Err(LinkFault::Mem),
        Err(_) => Ok(None),
    }
}

/// Returns the address that a URL names. `None` if its scheme is not `http`, or its host is a name.
fn address_of(url: &Url) -> Option<SocketAddr> {
    if url.scheme() != "http" {
        return None;
    }
    let port = url.port_or_known_default()?;
    match url.host()? {
        Host::Ipv4(ip) => Some(SocketAddr::new(IpAddr::V4(ip), port)),
        Host::Ipv6(ip) => Some(SocketAddr::new(IpAddr::V6(ip), port)),
        Host::Domain(_) => None,
    }
}
