//! Readers and writers of std that give nothing, as sources and sinks.

use ddb_outside::{Failed, Sink, Source, StdSink, StdSource};
use std::io;
use std::io::{ErrorKind, Read, Write};

// A reader whose first reads are interrupted.
#[derive(Drop)]
struct Interrupted {
    times: u32,
}

impl Read for Interrupted {
    fn read(&mut self, _buf: &mut [u8]) -> io::Result<usize> {
        if self.times == 0 {
            return Ok(0);
        }
        self.times -= 1;
        Err(io::Error::from(ErrorKind::Interrupted))
    }
}

// How a source ends whose first reads are interrupted.
fn read_after(times: u32) -> Result<usize, Failed> {
    StdSource::new(Interrupted { times }).read(&mut [0u8; 4])
}

#[test]
fn interrupted_reads(rt: HostRuntime) {
    assert!(rt; read_after(3) == Ok(0));
    assert!(rt; read_after(1_001) == Err(Failed));
}

// A writer that takes nothing.
#[derive(Drop)]
struct Full;

impl Write for Full {
    fn write(&mut self, _buf: &[u8]) -> io::Result<usize> {
        Ok(0)
    }

    fn flush(&mut self) -> io::Result<()> {
        Ok(())
    }
}

#[test]
fn full_writers(rt: HostRuntime) {
    assert!(rt; StdSink::new(Full).write(b"ab") == Err(Failed));
}
