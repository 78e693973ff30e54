//! Real sockets: which connection is served when.

use ddb_outside::{Failed, Joined, Listener, Sink, Source};
use socket_listener::{Interfaces, SocketListener, SocketSink, SocketSource};
use std::io::{Read, Write};
use std::net::{Ipv4Addr, TcpStream};

// A share of a listener, the connection that is served, and two clients.
#[derive(Drop)]
struct Scene {
    share: SocketListener<HostRuntime>,
    served: Option<Joined<SocketSource<HostRuntime>, SocketSink<HostRuntime>>>,
    clients: [TcpStream; 2],
}

// What happens, by the name of the client if it is one that acts.
#[derive(Clone, Copy)]
enum Act {
    Says(usize, &'static str),
    Hears(usize, &'static str),
    Accept,
    Rest,
    Read(&'static str),
    Write(&'static str),
    HangUp,
}

// A connection goes on inside a message whoever waits, and gives way at rest. One that is hung up inside a message is closed.
const GIVES_WAY_AT_REST: [Act; 18] = [
    Act::Says(0, "one"),
    Act::Accept,
    Act::Read("one"),
    Act::Says(1, "two"),
    Act::Says(0, "more"),
    Act::Read("more"),
    Act::Write("yes"),
    Act::Rest,
    Act::Read(""),
    Act::HangUp,
    Act::Accept,
    Act::Read("two"),
    Act::HangUp,
    Act::Hears(1, ""),
    Act::Says(0, "last"),
    Act::Accept,
    Act::Read("last"),
    Act::Hears(0, "yes"),
];

// A connection that talks without pause gives way after eight messages, here of four bytes, and loses none.
const GIVES_WAY_AFTER_ITS_TURN: [Act; 28] = [
    Act::Says(0, "11112222333344445555666677778888more"),
    Act::Accept,
    Act::Says(1, "else"),
    Act::Read("1111"),
    Act::Rest,
    Act::Read("2222"),
    Act::Rest,
    Act::Read("3333"),
    Act::Rest,
    Act::Read("4444"),
    Act::Rest,
    Act::Read("5555"),
    Act::Rest,
    Act::Read("6666"),
    Act::Rest,
    Act::Read("7777"),
    Act::Rest,
    Act::Read("8888"),
    Act::Rest,
    Act::Read(""),
    Act::HangUp,
    Act::Accept,
    Act::Read("else"),
    Act::Rest,
    Act::Read(""),
    Act::HangUp,
    Act::Accept,
    Act::Read("more"),
];

// Whether an act goes as it is written.
fn goes(scene: &mut Scene, act: Act) -> bool {
    match act {
        Act::Says(client, text) => says(&mut scene.clients, client, text),
        Act::Hears(client, text) => hears(&mut scene.clients, client, text),
        Act::Accept => accepts(scene),
        Act::HangUp => hangs_up(scene),
        _ => match &mut scene.served {
            Some(served) => goes_on(served, act),
            None => false,
        },
    }
}

fn says(clients: &mut [TcpStream], client: usize, text: &str) -> bool {
    match clients.get_mut(client) {
        Some(stream) => stream.write_all(text.as_bytes()).is_ok(),
        None => false,
    }
}

fn hears(clients: &mut [TcpStream], client: usize, text: &str) -> bool {
    let mut buf = [0u8; 4];
    match clients.get_mut(client) {
        Some(stream) => match stream.read(&mut buf) {
            Ok(count) => &buf[..count] == text.as_bytes(),
            Err(_) => false,
        },
        None => false,
    }
}

fn accepts(scene: &mut Scene) -> bool {
    match scene.share.accept() {
        Ok(served) => {
            scene.served = served;
            scene.served.is_some()
        }
        Err(Failed) => false,
    }
}

fn hangs_up(scene: &mut Scene) -> bool {
    match scene.served.take() {
        Some(served) => {
            scene.share.hang_up(served);
            true
        }
        None => false,
    }
}

fn goes_on(
    served: &mut Joined<SocketSource<HostRuntime>, SocketSink<HostRuntime>>,
    act: Act,
) -> bool {
    match act {
        Act::Rest => {
            served.source.at_rest();
            true
        }
        Act::Read(text) => reads(&mut served.source, text),
        Act::Write(text) => served.sink.write(text.as_bytes()) == Ok(text.len()),
        _ => false,
    }
}

fn reads(source: &mut SocketSource<HostRuntime>, text: &str) -> bool {
    let mut buf = [0u8; 4];
    match source.read(&mut buf) {
        Ok(count) => &buf[..count] == text.as_bytes(),
        Err(Failed) => false,
    }
}

// A listener at any free port.
fn listening(rt: HostRuntime) -> Option<SocketListener<HostRuntime>> {
    let mut listener = SocketListener::new(rt.alloc(), rt, Interfaces::Loopback);
    match listener.bind(0) {
        Ok(()) => Some(listener),
        Err(Failed) => None,
    }
}

// Two clients that have said nothing.
fn callers(rt: HostRuntime, port: Option<u16>) -> Option<[TcpStream; 2]> {
    let at = (Ipv4Addr::LOCALHOST, port?);
    let first = TcpStream::connect(&rt, at).ok()?;
    let second = TcpStream::connect(&rt, at).ok()?;
    Some([first, second])
}

// A share of a listener, and two clients.
fn opened(rt: HostRuntime) -> Option<Scene> {
    let mut listener = listening(rt)?;
    match (listener.share(), callers(rt, listener.port())) {
        (Ok(share), Some(clients)) => Some(Scene {
            share,
            served: None,
            clients,
        }),
        _ => None,
    }
}

// Whether all acts go as they are written, from the opening on.
fn all_go(rt: HostRuntime, acts: &[Act]) -> bool {
    let Some(mut scene) = opened(rt) else {
        return false;
    };
    for act in acts {
        if !goes(&mut scene, *act) {
            return false;
        }
    }
    true
}

// Whether no second listener listens at the port of a first one.
fn is_port_kept(rt: HostRuntime) -> bool {
    let Some(first) = listening(rt) else {
        return false;
    };
    let Some(port) = first.port() else {
        return false;
    };
    let mut second = SocketListener::new(rt.alloc(), rt, Interfaces::Loopback);
    second.port().is_none() && second.bind(port) == Err(Failed)
}

#[test]
fn port_in_use(rt: HostRuntime) {
    assert!(rt; is_port_kept(rt));
}

#[test]
fn gives_way_at_rest(rt: HostRuntime) {
    assert!(rt; all_go(rt, &GIVES_WAY_AT_REST));
}

#[test]
fn gives_way_after_its_turn(rt: HostRuntime) {
    assert!(rt; all_go(rt, &GIVES_WAY_AFTER_ITS_TURN));
}
