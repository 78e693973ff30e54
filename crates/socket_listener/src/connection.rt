// A connection's socket, which its source, its sink and the place where it waits share: one descriptor for all.
ghost use Rattle.std.specs.Io.{ReadsAtMost, WritesAtMost};

use std::alloc::Global;
use std::io;
use std::io::{Read, Write};
use std::net::{Shutdown, TcpStream};
use std::sync::Arc;
use std::time::Duration;

// A connection's socket. Its reads and writes answer `WouldBlock` where they would wait.
pub(crate) type Socket = Arc<TcpStream>;

// How many pieces of what a client still sends are read where its connection is closed.
const LAST_PIECES: u32 = 16;

// Makes the socket of a connection that was accepted.
pub(crate) fn prepare(alloc: Global, stream: TcpStream) -> io::Result<Socket> {
    stream.set_nonblocking(true)?;
    stream.set_nodelay(true)?;
    Ok(Arc::new(alloc, stream)?)
}

// Reads what has come.
pub(crate) fn read(mut stream: &TcpStream, buf: &mut [u8]) -> io::Result<usize>
    ensures { ReadsAtMost result buf.new }
{
    stream.read(buf)
}

// Reads what comes in this time: `WouldBlock` says that nothing did.
pub(crate) fn read_within(stream: &TcpStream, buf: &mut [u8], time: Duration) -> io::Result<usize>
    ensures { ReadsAtMost result buf.new }
{
    stream.set_read_timeout(Some(time))?;
    stream.set_nonblocking(false)?;
    let got = read(stream, buf);
    stream.set_nonblocking(true)?;
    got
}

// Writes what the client takes at once.
pub(crate) fn write(mut stream: &TcpStream, piece: &[u8]) -> io::Result<usize>
    ensures { WritesAtMost result piece.now }
{
    stream.write(piece)
}

// Writes what the client takes in this time: `WouldBlock` says that it took nothing.
pub(crate) fn write_within(stream: &TcpStream, piece: &[u8], time: Duration) -> io::Result<usize>
    ensures { WritesAtMost result piece.now }
{
    stream.set_write_timeout(Some(time))?;
    stream.set_nonblocking(false)?;
    let taken = write(stream, piece);
    stream.set_nonblocking(true)?;
    taken
}

// Tells the client that nothing more will come. What it has sent and nobody read is taken first, since else the system
// would break the connection off, and the client might lose the last reply.
pub(crate) fn finish(stream: &TcpStream) {
    if stream.shutdown(Shutdown::Write).is_err() {
        return;
    }
    let mut piece = [0u8; 4_096];
    for _ in 0..LAST_PIECES {
        match read(stream, &mut piece) {
            Ok(count) if 0 < count => {}
            _ => return,
        }
    }
}
