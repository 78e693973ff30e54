//! The program: a table server with the behaviour of Amazon DynamoDB's low-level API (2012-08-10).
//!
//! [`run`] carries the theorem. With the word `stdio` what it writes is, message by message, the bytes of the replies that
//! the sequential database of `table_model` gives to the messages that it reads, from the empty database on. With the word
//! `serve` each connection of a listener is answered by right replies, by the events of one history of whole requests, in
//! as many threads as there are workers. With the word `load` clients move money between accounts at once, and what is written
//! is what their bank comes to. Each exit status has its cause. `specs/` has the definitions, in reading order:
//! what is served at a port, what a load does, the program.
//!
//! `main` hands `run` the real streams, sockets and the system's clock, and ends with its status. Where a run ended badly it
//! says why on standard error.
#![tactic(auto)]

mod announced;
mod loading;
mod program;

use announced::Announced;
use ddb_outside::{StdSink, StdSource, SystemClock};
pub use program::run;
use socket_listener::{Interfaces, SocketListener};
use std::env;
use std::process::ExitCode;
use table_load::PointGate;

/// The environment variable that says whom `serve` listens to: everybody where it is `all`, and else this machine alone.
const LISTEN: &str = "DDB_SERVER_LISTEN";

fn main(rt: HostRuntime) -> ExitCode {
    let words = words(&rt);
    let interfaces = interfaces(&rt);
    let mut source = StdSource::new(rt.stdin());
    let mut sink = StdSink::new(rt.stdout());
    let mut clock = clock(rt, words.as_slice());
    let mut listener = Announced::new(
        rt,
        SocketListener::new(rt.alloc(), rt, interfaces),
        interfaces,
    );
    let status = run(
        &rt,
        words.as_slice(),
        &mut source,
        &mut sink,
        &mut clock,
        &mut listener,
        &mut PointGate::open(),
    );
    if let Some(reason) = reason(status) {
        // where standard error fails too, the status alone tells
        drop(eprintln!(rt; "ddb_server: {reason}"));
    }
    ExitCode::from(status)
}

// A server tells the time of day; a session over standard streams counts from its own beginning, so that it can be repeated.
fn clock(rt: HostRuntime, words: &[String]) -> SystemClock<HostRuntime> {
    match words {
        [word, ..] if word.as_str() == "serve" => SystemClock::time_of_day(rt),
        _ => SystemClock::from_first_look(rt),
    }
}

// Whom to listen to.
fn interfaces(rt: &HostRuntime) -> Interfaces {
    match env::var(rt, LISTEN) {
        Ok(word) if word.as_str() == "all" => Interfaces::All,
        _ => Interfaces::Loopback,
    }
}

// Why a run ended badly, by the status. Of 2 the usage line was written, of 4 the listener has said it.
fn reason(status: u8) -> Option<&'static str> {
    match status {
        1 => Some("standard input could not be read"),
        3 => Some("standard output could not be written"),
        5 => Some("the input ended inside a message"),
        6 => Some("the most messages of a session, 2^40, were answered"),
        7 => Some("memory was refused"),
        _ => None,
    }
}

// The words of the command line after the program's name; none where the system does not tell them.
fn words(rt: &(impl std::rt::Env + AllocGlobal)) -> Vec<String> {
    let Ok(words) = env::args(rt) else {
        return Vec::new(rt.alloc());
    };
    words
        .skip(1)
        .collect(rt.alloc())
        .unwrap_or(Vec::new(rt.alloc()))
}
