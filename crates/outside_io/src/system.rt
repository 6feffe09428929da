//! The real input, output and files: the trusted edge. Nothing is told of what they hold, and nothing is proved of it.

ghost use Rattle.std.specs.Prelude.{◌≡◌, ◌+◌, ◌-◌, ◌^◌, ◌<◌, ◌≤◌, [], true, false, None, length};

use crate::{Failed, InputFault, LoadFault, Shelf, Sink, Source, fail, read_into};
use std::io::{ErrorKind, Read, Write};
use std::rt::Files;
use std::{fs, io};

/// A reader of the system, as standard input.
#[derive(Drop)]
pub struct StdSource<R> {
    reader: R,
    faults: u64,
}

impl<R: Read> StdSource<R> {
    /// This reader, with no fault so far.
    pub fn new(reader: R) -> Self
        ensures no_faults { ⟦<StdSource<R> as Source>⟧.faults result ≡ 0 }
    {
        StdSource { reader, faults: 0 }
    }
}

impl<R: Read> Source for StdSource<R> {
    ghost left = { λ _. None };

    ghost faults = { λ s. s.faults };

    fn read(&mut self, piece: &mut [u8]) -> Result<usize, Failed> {
        match self.reader.read(piece) {
            Ok(count) => Ok(count),
            Err(_) => Err(fail(&mut self.faults)),
        }
    }
}

/// A writer of the system, as standard output and standard error.
#[derive(Drop)]
pub struct StdSink<W> {
    writer: W,
    flushed: bool,
    faults: u64,
}

impl<W: Write> StdSink<W> {
    /// This writer, with no fault so far.
    pub fn new(writer: W) -> Self
        ensures no_faults { ⟦<StdSink<W> as Sink>⟧.faults result ≡ 0 }
    {
        StdSink {
            writer,
            flushed: false,
            faults: 0,
        }
    }
}

impl<W: Write> Sink for StdSink<W> {
    ghost held = { λ _. None };

    ghost flushed = { λ s. s.flushed };

    ghost faults = { λ s. s.faults };

    fn write(&mut self, piece: &[u8]) -> Result<usize, Failed> {
        match self.writer.write(piece) {
            Ok(count) if count > 0 || piece.is_empty() => {
                self.flushed = self.flushed && piece.is_empty();
                Ok(count)
            }
            _ => Err(fail(&mut self.faults)),
        }
    }

    fn flush(&mut self) -> Result<(), Failed> {
        match self.writer.flush() {
            Ok(()) => {
                self.flushed = true;
                Ok(())
            }
            Err(_) => Err(fail(&mut self.faults)),
        }
    }
}

/// Files by their paths.
#[derive(Drop)]
pub struct DirShelf<'a, R> {
    files: &'a R,
    faults: u64,
}

impl<'a, R: Files> DirShelf<'a, R> {
    /// The files of this runtime, with no fault so far.
    pub fn new(files: &'a R) -> Self
        ensures no_faults { ⟦<DirShelf<'a, R> as Shelf>⟧.faults result ≡ 0 }
    {
        DirShelf { files, faults: 0 }
    }
}

impl<R: Files> Shelf for DirShelf<'_, R> {
    ghost content = { λ s name. None };

    ghost faults = { λ s. s.faults };

    fn load(&mut self, name: &str, max: usize, into: &mut Vec<u8>) -> Result<(), LoadFault> {
        into.clear();
        match read_file(self.files, name, max, into) {
            Ok(()) => Ok(()),
            Err(fault) => {
                into.clear();
                if fault == LoadFault::Failed {
                    fail(&mut self.faults);
                }
                Err(fault)
            }
        }
    }
}

// Reads at most `max + 1` bytes of the file of this path.
fn read_file<R: Files>(
    files: &R,
    path: &str,
    max: usize,
    into: &mut Vec<u8>,
) -> Result<(), LoadFault>
    requires small { max < 2 ^ 32 }
    requires empty { into.old.items ≡ [] }
    ensures bound { length into.new.items ≤ max + 1 }
{
    let file = match fs::open(files, path) {
        Ok(file) => file,
        Err(error) => return Err(fault_of(&error)),
    };
    let mut source = StdSource::new(file);
    match read_into(&mut source, max, into) {
        Ok(()) | Err(InputFault::TooLong) => Ok(()),
        Err(InputFault::Failed) => Err(LoadFault::Failed),
        Err(InputFault::NoMemory) => Err(LoadFault::NoMemory),
    }
}

// Only a path that is not found is absent.
fn fault_of(error: &io::Error) -> LoadFault {
    match error.kind() {
        ErrorKind::NotFound => LoadFault::Absent,
        ErrorKind::OutOfMemory => LoadFault::NoMemory,
        _ => LoadFault::Failed,
    }
}
