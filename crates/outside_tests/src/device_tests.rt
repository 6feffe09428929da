//! Ends of the system, call by call: devices and files, and a writer that takes every byte and then can't flush them.

use outside_io::{
    DirShelf, Failed, LoadFault, Shelf, Sink, Source, StdSink, StdSource, read_all, send,
};
use std::io::{Read, Write};
use std::test::Fail;
use std::{fs, io};

#[derive(Drop)]
struct Broken;

impl Read for Broken {
    fn read(&mut self, _buf: &mut [u8]) -> io::Result<usize> {
        Err(io::Error::from(io::ErrorKind::Other))
    }
}

#[test]
fn reads_devices(rt: HostRuntime) -> Result<(), Fail> {
    let mut zeros = StdSource::new(fs::open(&rt, "/dev/zero")?);
    let mut piece = [1u8; 3];
    assert!(rt; zeros.read(&mut piece)? == 3 && piece == [0u8; 3]);
    let endless = read_all(rt.alloc(), &mut zeros, 100_000).is_err();
    assert!(rt; endless);
    Ok(())
}

#[test]
fn reads_nothing(rt: HostRuntime) -> Result<(), Fail> {
    let mut nothing = StdSource::new(fs::open(&rt, "/dev/null")?);
    let is_empty = read_all(rt.alloc(), &mut nothing, 9)?.is_empty();
    assert!(rt; is_empty);
    let mut piece = [1u8; 3];
    assert!(rt; StdSource::new(Broken).read(&mut piece) == Err(Failed));
    Ok(())
}

/// Whether a sink takes one byte.
fn sends<K: Sink>(sink: &mut K) -> bool {
    send(sink, b"a".as_slice()) == Ok(())
}

#[test]
fn writes_devices(rt: HostRuntime) -> Result<(), Fail> {
    let is_full = !sends(&mut StdSink::new(fs::create(&rt, "/dev/full")?));
    let is_sent = sends(&mut StdSink::new(fs::create(&rt, "/dev/null")?));
    send(&mut StdSink::new(rt.stderr()), b"".as_slice())?;
    assert!(rt; is_full && is_sent);
    Ok(())
}

#[derive(Drop)]
struct Unflushed;

impl Write for Unflushed {
    fn write(&mut self, buf: &[u8]) -> io::Result<usize> {
        Ok(buf.len())
    }

    fn flush(&mut self) -> io::Result<()> {
        Err(io::Error::from(io::ErrorKind::Other))
    }
}

/// What is sent is flushed through the object of the system too. Standard output itself keeps nothing back, so no run could show it.
#[test]
fn tells_a_flush_that_fails(rt: HostRuntime) {
    assert!(rt; !sends(&mut StdSink::new(Unflushed)));
}

/// The name of an answer to a load.
fn name_of(loaded: Result<(), LoadFault>) -> &'static str {
    match loaded {
        Ok(()) => "Ok",
        Err(LoadFault::Failed) => "Failed",
        Err(LoadFault::Absent) => "Absent",
        Err(LoadFault::NoMemory) => "NoMemory",
    }
}

/// Path, answer, bytes that came.
const FILES: [(&str, &str, usize); 6] = [
    ("/dev/null", "Ok", 0),
    ("/dev/zero", "Ok", 70_001),
    ("/no such file", "Absent", 0),
    ("", "Absent", 0),
    ("/", "Failed", 0),
    ("/dev/null/file", "Failed", 0),
];

#[test]
fn loads_files(rt: HostRuntime) -> Result<(), Fail> {
    let mut shelf = DirShelf::new(&rt);
    let mut into = Vec::new(rt.alloc());
    for (path, answer, count) in FILES {
        into.push(1)?;
        let loaded = name_of(shelf.load(path, 70_000, &mut into));
        assert!(rt; loaded == answer && into.len() == count, "{path}");
    }
    Ok(())
}
