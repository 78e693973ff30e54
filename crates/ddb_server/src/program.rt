//! The program by the words of its command line.

ghost use Rattle.std.specs.Prelude.{◌≡◌, ◌≤◌, map, string_bytes};
ghost use Rattle.ddb_outside.specs.Causes.{Rose};
ghost use Rattle.ddb_server.specs.Programs.{Runs, RunsSession, RefusesWords, outside, session_status, usage};
ghost use Rattle.ddb_server.specs.Served.{RunsListener, serve_status};

use crate::loading::load;
use cell_service::CellService;
use command_words::{Command, WordsEnd, command};
use coordinator::Gate;
use ddb_outside::{Clock, Failed, Listener, Sink, Source, write_all};
use http_front::Reader;
use http_session::{SessionEnd, serve_session};
use http_workers::{ServeEnd, serve_all};
use plain_database::SlowDb;
use std::sync::Wait;
use std::thread::Threads;
use table_load::PointGate;
use table_service::PlainService;

/// What is written where the words are none of the commands.
const USAGE: &str =
    "usage: ddb_server stdio|serve|load [--partitions N] [--port N] [--workers N] [--start N] [--clients N] [--count N]\n";

/// Runs the program by the words of its command line, the name of the program left out, and answers its exit status.
///
/// `stdio` is a session from the empty database on: its status is 0 where the input was read to its end, to a message that
/// asked for the end of the connection or to what is no message; 1 where the source failed, 3 where the sink failed, 5
/// where the input ended inside a message, 6 where 2^40 messages were answered, 7 where memory was refused and a message
/// could not be read.
///
/// `serve` binds the listener to the port and serves its connections by as many workers as the words state, each in a thread
/// of its own, out of tables in as many partitions as they state, which are empty at first: what all requests do is one history.
/// Beside the workers a feeder brings global indexes up to date, and a recovery worker ends transactions that were left in the
/// middle and removes expired items. Its status is 0 where no connection will come any more; 4 where the port could not be
/// bound, a share of the listener was refused, or accepting failed 16 times in a row; 7 where memory was refused before
/// anything was served.
///
/// `load` makes a bank of 64 accounts in empty tables, lets so many clients move money between them at the same time, each in a
/// thread of its own, until each of `count` transfers was made once, and writes six lines of what the bank comes to. Its status
/// is 0 where they were written, 3 where the sink failed at them, 6 where the units of a pass are used up, 7 where memory was
/// refused, 8 where the gate stopped it, which may stop transactions in the middle.
///
/// Other words are answered by the usage line and status 2, or 3 where the sink failed at it. Where memory was refused for the
/// words the status is 7.
pub fn run<R, S, K, C, L>(
    rt: &R,
    words: &[String],
    source: &mut S,
    sink: &mut K,
    clock: &mut C,
    listener: &mut L,
    gate: &mut PointGate,
) -> u8
where
    R: AllocGlobal + Threads + Wait + Sync,
    S: Source,
    K: Sink,
    C: Clock + Send + Drop,
    L: Listener + Send + Drop,
    ensures runs { Runs (map string_bytes words.now)
        (outside (S.left source.old) (C.coming clock.old) (K.written sink.old) (L.connections listener.old) (L.ends listener.old))
        (outside (S.left source.new) (C.coming clock.new) (K.written sink.new) (L.connections listener.new) (L.ends listener.new))
        result }
    ensures read { result ≡ 1 → Rose (S.faults source.old) (S.faults source.new) }
    ensures write { result ≡ 3 → Rose (K.faults sink.old) (K.faults sink.new) }
    ensures net { result ≡ 4 → Rose (L.faults listener.old) (L.faults listener.new) }
    ensures stopped { result ≡ 8 → Rose (⟦<PointGate as Gate>⟧.stops gate.old) (⟦<PointGate as Gate>⟧.stops gate.new) }
{
    match command(rt.alloc(), words) {
        Ok(Command::Stdio { partitions: _ }) => serve_stream(rt, source, sink, clock),
        Ok(
            Command::Serve {
                port,
                partitions,
                workers,
            },
        ) => serve_port(rt, clock, listener, port, partitions, workers),
        Ok(
            Command::Load {
                start,
                clients,
                count,
                partitions,
            },
        ) => load(rt, sink, gate, start, clients, u64::from(count), partitions),
        Err(WordsEnd::Refused) => refuse_words(sink),
        Err(WordsEnd::NoMemory) => 7,
    }
}

/// A session over a source and a sink, from the empty database on.
fn serve_stream<R: AllocGlobal, S: Source, K: Sink, C: Clock>(
    rt: &R,
    source: &mut S,
    sink: &mut K,
    clock: &mut C,
) -> u8
    ensures session { RunsSession (S.left source.old) (C.coming clock.old) (C.coming clock.new) (K.written sink.old) (K.written sink.new) result }
    ensures read { result ≡ 1 → Rose (S.faults source.old) (S.faults source.new) }
    ensures write { result ≡ 3 → Rose (K.faults sink.old) (K.faults sink.new) }
    ensures net { (result ≡ 4) → ⊥ }
{
    let alloc = rt.alloc();
    let Ok(mut database) = SlowDb::new(alloc) else {
        return session_status(SessionEnd::NoMemory);
    };
    let Ok(mut reader) = Reader::make(alloc) else {
        return session_status(SessionEnd::NoMemory);
    };
    let end = serve_session(
        rt,
        alloc,
        &PlainService,
        &mut database,
        &mut reader,
        source,
        sink,
        clock,
    );
    session_status(end)
}

/// The connections of a port by so many workers, out of so many partitions, from empty tables on.
fn serve_port<R, C, L>(
    rt: &R,
    clock: &C,
    listener: &mut L,
    port: u16,
    partitions: u32,
    workers: u32,
) -> u8
where
    R: AllocGlobal + Threads + Wait + Sync,
    C: Clock + Send + Drop,
    L: Listener + Send + Drop,
    requires partitions { (1 ≤ partitions) × (partitions ≤ 64) }
    requires workers { (1 ≤ workers) × (workers ≤ 62) }
    ensures served { RunsListener partitions workers (C.coming clock.now) (L.connections listener.old) (L.connections listener.new) result }
    ensures done { result ≡ 0 → Rose (L.ends listener.old) (L.ends listener.new) }
    ensures net { result ≡ 4 → Rose (L.faults listener.old) (L.faults listener.new) }
    ensures read { (result ≡ 1) → ⊥ }
    ensures write { (result ≡ 3) → ⊥ }
{
    let alloc = rt.alloc();
    let Ok((service, mut sessions, mut helpers)) = CellService::make(alloc, partitions, workers)
    else {
        return 7;
    };
    if listener.bind(port).is_err() {
        return 4;
    }
    let end = serve_all(
        rt,
        alloc,
        &service,
        &mut sessions,
        &mut helpers,
        clock,
        listener,
    );
    service.meet_all(sessions.as_mut_slice(), helpers.as_mut_slice());
    serve_status(end)
}

/// Answers words that are none of the commands.
fn refuse_words<K: Sink>(sink: &mut K) -> u8
    ensures refused { RefusesWords (K.written sink.old) (K.written sink.new) result }
    ensures write { result ≡ 3 → Rose (K.faults sink.old) (K.faults sink.new) }
{
    match write_all(sink, USAGE.as_bytes()) {
        Ok(()) => 2,
        Err(Failed) => 3,
    }
}

/// The exit status of a session's end.
fn session_status(end: SessionEnd) -> u8
    ensures { result ≡ session_status end }
{
    match end {
        SessionEnd::Ended | SessionEnd::Asked | SessionEnd::Refused(_) => 0,
        SessionEnd::ReadFault => 1,
        SessionEnd::WriteFault => 3,
        SessionEnd::Cut { .. } => 5,
        SessionEnd::Spent => 6,
        SessionEnd::NoMemory => 7,
    }
}

/// The exit status of serving's end.
fn serve_status(end: ServeEnd) -> u8
    ensures { result ≡ serve_status end }
{
    match end {
        ServeEnd::Done => 0,
        ServeEnd::NetFault => 4,
        ServeEnd::NoMemory => 7,
    }
}
