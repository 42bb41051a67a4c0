//! A port for datagrams that several programs may have at once. `std` and `mio` have no call for that, so these are the calls of C.

ghost use Rattle.std.specs.Prelude.{◌↔◌, pos, ◌≤ℤ◌, IsOk};

use libc::net as c;
use os::FromRawFd;
use std::io;
use std::net::UdpSocket;
use std::os::fd::{AsRawFd, OwnedFd};

/// The number of bytes of C's `sockaddr_in`.
const ADDRESS: u32 = 16;

/// The number of bytes of a flag.
const FLAG: u32 = 4;

/// Returns the error of the call of C that just answered `status`, if it is negative.
fn check(status: i32) -> io::Result<()>
    ensures { IsOk result ↔ (pos 0 ≤ℤ status) }
{
    if status < 0 {
        Err(io::Error::from_raw_os_error(os::errno()))
    } else {
        Ok(())
    }
}

/// Makes a socket for datagrams of IPv4.
fn new_socket() -> io::Result<OwnedFd> {
    let fd = unsafe { c::socket(c::AF_INET, c::SOCK_DGRAM | c::SOCK_CLOEXEC, 0) };
    check(fd)?;
    Ok(unsafe { OwnedFd::from_raw_fd(fd) })
}

/// Returns a flag that is set, as C reads it.
fn set_flag() -> [u8; 16] {
    let mut flag = [0u8; 16];
    flag[..4].copy_from_slice(&1i32.to_ne_bytes());
    flag
}

/// Returns a port at all addresses of IPv4, as C reads it.
fn at_every_address(port: u16) -> [u8; c::_SS_SIZE] {
    let family = (c::AF_INET as u16).to_ne_bytes();
    let mut address = [0u8; c::_SS_SIZE];
    address[..2].copy_from_slice(&family);
    address[2..4].copy_from_slice(&port.to_be_bytes());
    address
}

/// Opens a port for datagrams, at all addresses of IPv4. Other programs that allow it may have opened it too.
pub fn bind_shared(port: u16) -> io::Result<UdpSocket> {
    let socket = new_socket()?;
    let fd = socket.as_raw_fd();
    let shares = set_flag();
    check(unsafe { c::setsockopt(fd, c::SOL_SOCKET, c::SO_REUSEADDR, &shares, FLAG) })?;
    let address = at_every_address(port);
    check(unsafe { c::bind(fd, &address, ADDRESS) })?;
    Ok(UdpSocket::from(socket))
}
