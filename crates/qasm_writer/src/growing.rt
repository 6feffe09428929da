//! A sink that keeps all bytes in memory, and fails for want of it.

ghost use Rattle.std.specs.Prelude.{◌≡◌, ◌-◌, ◌<◌, [], true, false, Some};

use outside_io::{Failed, Sink};
use std::alloc::Global;

/// The bytes that came.
#[derive(Drop)]
pub struct Growing {
    bytes: Vec<u8>,
    flushed: bool,
    faults: u64,
}

impl Growing {
    /// No bytes.
    pub fn new(alloc: Global) -> Self
        ensures value { result.bytes.items ≡ [] }
    {
        Growing {
            bytes: Vec::new(alloc),
            flushed: false,
            faults: 0,
        }
    }

    /// The bytes that came.
    pub fn into_bytes(self) -> Vec<u8>
        ensures value { result ≡ self.bytes }
    {
        self.bytes
    }
}

impl Sink for Growing {
    ghost held = { λ s. Some s.bytes.items };

    ghost flushed = { λ s. s.flushed };

    ghost faults = { λ s. s.faults };

    fn write(&mut self, piece: &[u8]) -> Result<usize, Failed> {
        if self.bytes.extend_from_slice(piece).is_err() {
            self.faults = self.faults.saturating_add(1);
            return Err(Failed);
        }
        self.flushed = self.flushed && piece.is_empty();
        Ok(piece.len())
    }

    fn flush(&mut self) -> Result<(), Failed> {
        self.flushed = true;
        Ok(())
    }
}
