//! Sources, sinks and shelves in memory that never fail: their count of faults is always 0.

ghost use Rattle.std.specs.Prelude.{◌≡◌, ℕ, ◌+◌, ◌-◌, ◌<◌, ◌≤◌, List, [], true, false, Some, None, Ok, drop, take, length, if◌then◌else◌, IfOk, OnOk, OnErr, option_map, vec_len, vec_capacity};
ghost use Rattle.std.specs.declared.option.Option.{Option};
ghost use Rattle.outside_io.specs.Causes.{HasCause};
ghost use Rattle.outside_io.specs.Bytes.{Gains, Stays};
ghost use Rattle.outside_io.specs.Memory.{RoomState, appended};

use crate::{Failed, LoadFault, Shelf, Sink, Source, copy_some, copy_text};
use std::alloc::{AllocError, Global};
use std::marker::Model;

/// Bytes to read.
#[derive(Drop)]
pub struct CalmSource {
    bytes: Vec<u8>,
    at: usize,
}

impl Model for CalmSource {
    ghost Value = { List ℕ };

    ghost view = { λ s. drop s.at s.bytes.items };

    ghost invariant = { λ s. s.at ≤ vec_len s.bytes };
}

impl CalmSource {
    /// A source of these bytes.
    pub fn new(bytes: Vec<u8>) -> Self
        ensures value { result ≡ bytes.items }
    {
        CalmSource { bytes, at: 0 }
    }

    /// The bytes that are left.
    pub fn rest(&self) -> &[u8]
        ensures value { result.now ≡ self.now }
    {
        &self.bytes[self.at..]
    }
}

#[tactic(auto, using(crate::proofs::Known::read_steps))]
impl Source for CalmSource {
    ghost left = { λ s. Some s };

    ghost faults = { λ _. 0 };

    fn read(&mut self, piece: &mut [u8]) -> Result<usize, Failed> {
        let count = copy_some(&self.bytes[self.at..], piece, usize::MAX);
        self.at += count;
        Ok(count)
    }
}

/// Bytes that were written, in a room that is there from the start. A write past the room is lost, and from then on the sink
/// tells nothing.
#[derive(Drop)]
pub struct CalmSink {
    bytes: Vec<u8>,
    capacity: usize,
    has_lost: bool,
    flushed: bool,
}

impl Model for CalmSink {
    ghost Value = { RoomState };

    ghost view = { λ s. record { held = if s.has_lost then None else Some s.bytes.items; capacity = s.capacity; flushed = s.flushed } };

    ghost invariant = { λ s. (vec_len s.bytes ≤ s.capacity) × (s.capacity ≤ vec_capacity s.bytes) };
}

impl CalmSink {
    /// An empty sink with room for `capacity` bytes.
    pub fn new(alloc: Global, capacity: usize) -> Result<Self, AllocError>
        ensures ok { IfOk result (λ s. s ≡ record { held = Some []; capacity = capacity; flushed = false }) }
    {
        let bytes = Vec::with_capacity(alloc, capacity)?;
        Ok(CalmSink {
            bytes,
            capacity,
            has_lost: false,
            flushed: false,
        })
    }

    /// The bytes that came, if none was lost.
    pub fn told(&self) -> Option<&[u8]>
        ensures value { option_map (λ b. b.now) result ≡ self.now.held }
    {
        if self.has_lost {
            return None;
        }
        Some(self.bytes.as_slice())
    }

    /// Whether a flush came after the last byte.
    pub fn is_flushed(&self) -> bool
        ensures value { result ≡ self.now.flushed }
    {
        self.flushed
    }
}

impl Sink for CalmSink {
    ghost held = { λ s. s.held };

    ghost flushed = { λ s. s.flushed };

    ghost faults = { λ _. 0 };

    fn write(&mut self, piece: &[u8]) -> Result<usize, Failed>
        ensures bound { IfOk result (λ n. n ≤ length piece.now) }
        ensures progress { IfOk result (λ n. 0 < length piece.now → 0 < n) }
        ensures gains { IfOk result (λ n. Gains self.old.held self.new.held (take n piece.now)) }
        ensures stays { OnErr result (Stays self.old.held self.new.held) }
        ensures unflushed { OnOk result (0 < length piece.now → self.new.flushed ≡ false) }
        ensures cause { HasCause 0 0 result }
        ensures takes { result ≡ Ok (length piece.now) }
        ensures lasts { self.new ≡ appended self.old piece.now }
    {
        if self.capacity - self.bytes.len() < piece.len() {
            self.has_lost = true;
        } else {
            self.bytes.extend_from_slice(piece).unwrap();
        }
        self.flushed = self.flushed && piece.is_empty();
        Ok(piece.len())
    }

    fn flush(&mut self) -> Result<(), Failed>
        ensures stays { Stays self.old.held self.new.held }
        ensures flushed { OnOk result (self.new.flushed ≡ true) }
        ensures cause { HasCause 0 0 result }
        ensures lasts { self.new ≡ record self.old { flushed = true } }
    {
        self.flushed = true;
        Ok(())
    }
}

/// One text for every name, or none for any.
#[derive(Drop)]
pub struct CalmShelf {
    text: Option<Vec<u8>>,
}

impl Model for CalmShelf {
    ghost Value = { Option (List ℕ) };

    ghost view = { λ s. option_map (λ t. t.items) s.text };
}

impl CalmShelf {
    /// A shelf with this text under every name.
    pub fn new(text: Vec<u8>) -> Self
        ensures value { result ≡ Some text.items }
    {
        CalmShelf { text: Some(text) }
    }

    /// A shelf on which no name has a text.
    pub fn empty() -> Self
        ensures value { result ≡ None }
    {
        CalmShelf { text: None }
    }
}

impl Shelf for CalmShelf {
    ghost content = { λ s _. Some s };

    ghost faults = { λ _. 0 };

    fn load(&mut self, _name: &str, max: usize, into: &mut Vec<u8>) -> Result<(), LoadFault> {
        into.clear();
        match &self.text {
            None => Err(LoadFault::Absent),
            Some(text) => copy_text(text, max, into),
        }
    }
}
