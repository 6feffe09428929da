//! Sources, sinks and shelves in memory, whose calls fail by a list. They are for tests: what they hold, how many calls were
//! made and what is left can be read back.

ghost use Rattle.std.specs.Prelude.{◌≡◌, ℕ, ◌+◌, ◌-◌, ◌^◌, ◌<◌, ◌≤◌, ◌↔◌, List, [], true, false, Some, None, drop, min, take, length, IfOk, OnOk, OnErr, IsErr, IsErrOf, option_map, vec_len, vec_capacity, string_bytes};
ghost use Rattle.std.specs.Io.{ReadsAtMost};
ghost use Rattle.std.specs.Io.KnownBytes.{ReadConsumes};
ghost use Rattle.outside_io.specs.Causes.{HasCause, Rose};
ghost use Rattle.outside_io.specs.Bytes.{Gains, Stays};
ghost use Rattle.outside_io.specs.Shelf.{HasNoText, LoadsText};
ghost use Rattle.outside_io.specs.Memory.{CallLog, IsToFail, RefusesWrite, ShelfState, SinkState, SourceState, failed, flushed, no_calls, passed, taken, text_of, written};

use crate::{Failed, LoadFault, Shelf, Sink, Source, copy_some, copy_text, fail};
use std::alloc::{AllocError, Global};
use std::marker::Model;

// Counts calls and faults, and says which calls fail.
#[derive(Drop)]
struct Calls {
    made: u64,
    failing: Vec<u64>,
    faults: u64,
}

impl Model for Calls {
    ghost Value = { CallLog };

    ghost view = { λ c. record { made = c.made; failing = c.failing.items; faults = c.faults } };
}

impl Calls {
    fn new(failing: Vec<u64>) -> Self
        ensures { result ≡ no_calls failing.items }
    {
        Calls {
            made: 0,
            failing,
            faults: 0,
        }
    }

    fn made(&self) -> u64
        ensures { result ≡ self.now.made }
    {
        self.made
    }

    // Counts a call, and fails it if it is on the list.
    fn begin(&mut self) -> Result<(), Failed>
        ensures fails { IsErr result ↔ IsToFail self.old }
        ensures ok { OnOk result (self.new ≡ passed self.old) }
        ensures err { OnErr result (self.new ≡ failed self.old) }
        ensures grows { self.old.faults ≤ self.new.faults }
    {
        self.made = self.made.saturating_add(1);
        if self.failing.contains(&self.made) {
            return Err(fail(&mut self.faults));
        }
        Ok(())
    }

    // Fails the call that has begun.
    fn fail(&mut self) -> Failed
        ensures counted { (before : CallLog) → self.old ≡ passed before → self.new ≡ failed before }
        ensures grows { self.old.faults ≤ self.new.faults }
    {
        fail(&mut self.faults)
    }
}

/// Bytes to read, at most so many a call.
#[derive(Drop)]
pub struct MemSource {
    bytes: Vec<u8>,
    at: usize,
    most: usize,
    calls: Calls,
}

impl Model for MemSource {
    ghost Value = { SourceState };

    ghost view = { λ s. record { left = drop s.at s.bytes.items; most = s.most; calls = s.calls } };

    ghost invariant = { λ s. (s.at ≤ vec_len s.bytes) × (0 < s.most) };
}

impl MemSource {
    /// A source of these bytes, of which one call moves at most `most`. The calls of `failing`, counted from 1, fail.
    pub fn new(bytes: Vec<u8>, most: usize, failing: Vec<u64>) -> Self
        requires positive { 0 < most }
        ensures value { result ≡ record { left = bytes.items; most = most; calls = no_calls failing.items } }
    {
        MemSource {
            bytes,
            at: 0,
            most,
            calls: Calls::new(failing),
        }
    }

    /// The bytes that are left.
    pub fn rest(&self) -> &[u8]
        ensures value { result.now ≡ self.now.left }
    {
        &self.bytes[self.at..]
    }

    /// How many calls of `read` were made.
    pub fn calls(&self) -> u64
        ensures value { result ≡ self.now.calls.made }
    {
        self.calls.made()
    }
}

#[tactic(auto, using(crate::proofs::Known::read_steps))]
impl Source for MemSource {
    ghost left = { λ s. Some s.left };

    ghost faults = { λ s. s.calls.faults };

    fn read(&mut self, piece: &mut [u8]) -> Result<usize, Failed>
        ensures bound { ReadsAtMost result piece.new }
        ensures bytes { ReadConsumes (Some self.old.left) (Some self.new.left) result piece.new }
        ensures cause { HasCause self.old.calls.faults self.new.calls.faults result }
        ensures fails { IsErr result ↔ IsToFail self.old.calls }
        ensures moves { IfOk result (λ n. n ≡ min (min (length piece.old) (length self.old.left)) self.old.most) }
        ensures ok { IfOk result (λ n. self.new ≡ taken self.old n) }
        ensures err { OnErr result (self.new ≡ record self.old { calls = failed self.old.calls }) }
    {
        self.calls.begin()?;
        let count = copy_some(&self.bytes[self.at..], piece, self.most);
        self.at += count;
        Ok(count)
    }
}

/// Bytes that were written, at most so many a call, in a room that is there from the start.
#[derive(Drop)]
pub struct MemSink {
    bytes: Vec<u8>,
    capacity: usize,
    most: usize,
    flushed: bool,
    calls: Calls,
}

impl Model for MemSink {
    ghost Value = { SinkState };

    ghost view = { λ s. record { held = s.bytes.items; capacity = s.capacity; most = s.most; flushed = s.flushed; calls = s.calls } };

    ghost invariant = { λ s. (vec_len s.bytes ≤ s.capacity) × (s.capacity ≤ vec_capacity s.bytes) × (0 < s.most) };
}

impl MemSink {
    /// An empty sink with room for `capacity` bytes, of which one call moves at most `most`. The calls of `failing`, counted
    /// from 1 over writes and flushes, fail, and so does a write past the room.
    pub fn new(
        alloc: Global,
        capacity: usize,
        most: usize,
        failing: Vec<u64>,
    ) -> Result<Self, AllocError>
        requires positive { 0 < most }
        ensures ok { IfOk result (λ s. s ≡ record { held = []; capacity = capacity; most = most; flushed = false; calls = no_calls failing.items }) }
    {
        let bytes = Vec::with_capacity(alloc, capacity)?;
        Ok(MemSink {
            bytes,
            capacity,
            most,
            flushed: false,
            calls: Calls::new(failing),
        })
    }

    /// The bytes that came.
    pub fn as_slice(&self) -> &[u8]
        ensures value { result.now ≡ self.now.held }
    {
        self.bytes.as_slice()
    }

    /// Whether a flush came after the last byte.
    pub fn is_flushed(&self) -> bool
        ensures value { result ≡ self.now.flushed }
    {
        self.flushed
    }

    /// How many calls of `write` and `flush` were made.
    pub fn calls(&self) -> u64
        ensures value { result ≡ self.now.calls.made }
    {
        self.calls.made()
    }
}

impl Sink for MemSink {
    ghost held = { λ s. Some s.held };

    ghost flushed = { λ s. s.flushed };

    ghost faults = { λ s. s.calls.faults };

    fn write(&mut self, piece: &[u8]) -> Result<usize, Failed>
        ensures bound { IfOk result (λ n. n ≤ length piece.now) }
        ensures progress { IfOk result (λ n. 0 < length piece.now → 0 < n) }
        ensures gains { IfOk result (λ n. Gains (Some self.old.held) (Some self.new.held) (take n piece.now)) }
        ensures stays { OnErr result (Stays (Some self.old.held) (Some self.new.held)) }
        ensures unflushed { OnOk result (0 < length piece.now → self.new.flushed ≡ false) }
        ensures cause { HasCause self.old.calls.faults self.new.calls.faults result }
        ensures fails { IsErr result ↔ RefusesWrite self.old (length piece.now) }
        ensures moves { IfOk result (λ n. n ≡ min (length piece.now) self.old.most) }
        ensures ok { IfOk result (λ n. self.new ≡ written self.old (take n piece.now)) }
        ensures err { OnErr result (self.new ≡ record self.old { calls = failed self.old.calls }) }
    {
        self.calls.begin()?;
        let count = piece.len().min(self.most);
        if self.capacity - self.bytes.len() < count {
            return Err(self.calls.fail());
        }
        self.bytes.extend_from_slice(&piece[..count]).unwrap();
        self.flushed = self.flushed && count == 0;
        Ok(count)
    }

    fn flush(&mut self) -> Result<(), Failed>
        ensures stays { Stays (Some self.old.held) (Some self.new.held) }
        ensures flushed { OnOk result (self.new.flushed ≡ true) }
        ensures cause { HasCause self.old.calls.faults self.new.calls.faults result }
        ensures fails { IsErr result ↔ IsToFail self.old.calls }
        ensures ok { OnOk result (self.new ≡ flushed self.old) }
        ensures err { OnErr result (self.new ≡ record self.old { calls = failed self.old.calls }) }
    {
        self.calls.begin()?;
        self.flushed = true;
        Ok(())
    }
}

/// A text under its name.
#[derive(Drop)]
pub struct NamedText {
    name: String,
    text: Vec<u8>,
}

impl Model for NamedText {
    ghost Value = { List ℕ × List ℕ };

    ghost view = { λ t. (string_bytes t.name, t.text.items) };
}

impl NamedText {
    /// This text under this name.
    pub fn new(alloc: Global, name: &str, text: &[u8]) -> Result<Self, AllocError>
        ensures ok { IfOk result (λ t. t ≡ (name.now, text.now)) }
    {
        Ok(NamedText {
            name: String::from_str(alloc, name)?,
            text: Vec::from_slice(alloc, text)?,
        })
    }

    fn name(&self) -> &str
        ensures { result.now ≡ self.now.0 }
    {
        self.name.as_str()
    }

    fn text(&self) -> &[u8]
        ensures { result.now ≡ self.now.1 }
    {
        self.text.as_slice()
    }
}

/// Texts by their names; the first of a name counts.
#[derive(Drop)]
pub struct MemShelf {
    texts: Vec<NamedText>,
    calls: Calls,
}

impl Model for MemShelf {
    ghost Value = { ShelfState };

    ghost view = { λ s. record { texts = s.texts.items; calls = s.calls } };
}

impl MemShelf {
    /// A shelf with these texts. The calls of `failing`, counted from 1, fail.
    pub fn new(texts: Vec<NamedText>, failing: Vec<u64>) -> Self
        ensures value { result ≡ record { texts = texts.items; calls = no_calls failing.items } }
    {
        MemShelf {
            texts,
            calls: Calls::new(failing),
        }
    }

    /// How many calls of `load` were made.
    pub fn calls(&self) -> u64
        ensures value { result ≡ self.now.calls.made }
    {
        self.calls.made()
    }
}

impl Shelf for MemShelf {
    ghost content = { λ s name. Some (text_of s.texts name) };

    ghost faults = { λ s. s.calls.faults };

    fn load(&mut self, name: &str, max: usize, into: &mut Vec<u8>) -> Result<(), LoadFault>
        requires limit { max < 2 ^ 32 }
        ensures text { OnOk result (LoadsText (Some (text_of self.old.texts name.now)) max into.new.items) }
        ensures bound { length into.new.items ≤ max + 1 }
        ensures absent { IsErrOf result LoadFault.Absent → HasNoText (Some (text_of self.old.texts name.now)) }
        ensures empty { OnErr result (into.new.items ≡ []) }
        ensures keeps { (other : List ℕ) → Some (text_of self.new.texts other) ≡ Some (text_of self.old.texts other) }
        ensures grows { self.old.calls.faults ≤ self.new.calls.faults }
        ensures failed { IsErrOf result LoadFault.Failed → Rose self.old.calls.faults self.new.calls.faults }
        ensures calm { (result ≡ Err LoadFault.Failed → ⊥) → self.new.calls.faults ≡ self.old.calls.faults }
        ensures fails { IsErrOf result LoadFault.Failed ↔ IsToFail self.old.calls }
        ensures texts { self.new.texts ≡ self.old.texts }
        ensures counted { (result ≡ Err LoadFault.Failed → ⊥) → self.new.calls ≡ passed self.old.calls }
        ensures counted_fault { IsErrOf result LoadFault.Failed → self.new.calls ≡ failed self.old.calls }
    {
        into.clear();
        if self.calls.begin().is_err() {
            return Err(LoadFault::Failed);
        }
        match find_text(&self.texts, name) {
            None => Err(LoadFault::Absent),
            Some(text) => copy_text(text, max, into),
        }
    }
}

fn find_text<'a>(texts: &'a [NamedText], name: &str) -> Option<&'a [u8]>
    ensures { option_map (λ t. t.now) result ≡ text_of texts.now name.now }
{
    let found = texts.iter().find(|named| named.name() == name)?;
    Some(found.text())
}
