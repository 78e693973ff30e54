// The addresses that a listener accepts from.

use mio::net as ready;
use std::alloc::Global;
use std::io;
use std::io::ErrorKind;
use std::net::{IpAddr, Ipv4Addr, Ipv6Addr, Net, SocketAddr, TcpListener};

/// Which of the machine's interfaces connections are accepted from.
#[derive(Clone, Copy, Debug, PartialEq, Eq)]
pub enum Interfaces {
    /// Those of the machine itself: 127.0.0.1 and ::1.
    Loopback,
    /// All of them.
    All,
}

impl Interfaces {
    // The address of IPv6, on all interfaces one that takes what comes by IPv4 too, where the system allows that.
    fn sixth(self) -> IpAddr {
        match self {
            Interfaces::Loopback => IpAddr::V6(Ipv6Addr::LOCALHOST),
            Interfaces::All => IpAddr::V6(Ipv6Addr::UNSPECIFIED),
        }
    }

    fn fourth(self) -> IpAddr {
        match self {
            Interfaces::Loopback => IpAddr::V4(Ipv4Addr::LOCALHOST),
            Interfaces::All => IpAddr::V4(Ipv4Addr::UNSPECIFIED),
        }
    }
}

// Listens at a port of the interfaces, by IPv6 and by IPv4. A machine may have one of them alone, but a port that another
// socket listens at is an error.
pub(crate) fn listen(
    alloc: Global,
    net: &impl Net,
    interfaces: Interfaces,
    port: u16,
) -> io::Result<Vec<TcpListener>> {
    let mut listening = Vec::with_capacity(alloc, 2)?;
    let first = match listen_at(net, interfaces.sixth(), port) {
        Ok(listener) => Some(listener),
        Err(error) if error.kind() == ErrorKind::AddrInUse => return Err(error),
        Err(_) => None,
    };
    let covered = first.is_some();
    // Port 0 is any free one, and the second address is to have the one that the first one got.
    let port = port_of(first.as_ref()).unwrap_or(port);
    if let Some(listener) = first {
        listening.push(listener)?;
    }
    match listen_at(net, interfaces.fourth(), port) {
        Ok(listener) => listening.push(listener)?,
        Err(error) => {
            if !covered || interfaces == Interfaces::Loopback {
                return Err(error);
            }
        }
    }
    Ok(listening)
}

// The port at which a socket listens.
pub(crate) fn port_of(listener: Option<&TcpListener>) -> Option<u16> {
    Some(listener?.local_addr().ok()?.port())
}

// A socket that listens at an address, and whose accepts do not wait.
fn listen_at(net: &impl Net, address: IpAddr, port: u16) -> io::Result<TcpListener> {
    let listener = ready::TcpListener::bind(net, SocketAddr::new(address, port))?;
    Ok(TcpListener::from(listener))
}
