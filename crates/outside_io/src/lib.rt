//! What a program reads from and writes to: sources of bytes, sinks for bytes, and a shelf of texts by their names.
//!
//! Each trait says what an object tells of its bytes, which may be nothing, and keeps a count of faults. `read_all` takes a
//! source to its end, unless more bytes come than a limit; `write_all` and `send` put a text behind what a sink holds, and
//! where that breaks off by a fault, some first part of the text is there; `load_text` gives the whole text of a name. A
//! fault is answered only where the count of faults of the object that was called rose.
//!
//! `memory` has forms whose calls fail by a list, for tests; `calm` forms that never fail; `system` the real input, output
//! and files, of which nothing is told: whatever bytes and errors they give, each call here is safe and ends.
#![tactic(auto)]

ghost use Rattle.std.specs.Prelude.{◌≡◌, ℕ, ◌+◌, ◌-◌, ◌^◌, ◌<◌, ◌≤◌, List, [], Bool, true, false, length, IfOk, IfErr, OnOk, OnErr, IsErrOf, take, min, vec_len};
ghost use Rattle.std.specs.declared.option.Option.{Option};
ghost use Rattle.std.specs.Io.{ReadsAtMost};
ghost use Rattle.std.specs.Io.KnownBytes.{ReadConsumes};
ghost use Rattle.outside_io.specs.Causes.{HasCause, Rose, one_more};
ghost use Rattle.outside_io.specs.Bytes.{Gains, GainsPrefix, IsLongerThan, Stays, TakesAll, TakesOneMore};
ghost use Rattle.outside_io.specs.Shelf.{HasNoText, IsTextCause, LoadsText, TellsText};

use std::alloc::Global;
use thiserror::Error;

pub mod calm;
pub mod memory;
pub mod system;

pub use calm::{CalmShelf, CalmSink, CalmSource};
pub use memory::{MemShelf, MemSink, MemSource, NamedText};
pub use system::{DirShelf, StdSink, StdSource};

/// A read, a write or a flush failed, and the object's count of faults rose.
#[derive(Clone, Copy, Debug, PartialEq, Eq, Error)]
#[error("the device failed")]
pub struct Failed;

/// Where bytes come from.
pub trait Source {
    // the bytes that are left, where the source tells them
    ghost left: { Self → Option (List ℕ) };

    ghost faults: { Self → ℕ };

    /// Takes the next bytes; 0 for a piece that is not empty is the end. After `Failed` nothing was taken.
    fn read(&mut self, piece: &mut [u8]) -> Result<usize, Failed>
        ensures bound { ReadsAtMost result piece.new }
        ensures bytes { ReadConsumes (left self.old) (left self.new) result piece.new }
        ensures cause { HasCause (faults self.old) (faults self.new) result };
}

/// Where bytes go.
pub trait Sink {
    // the bytes that came so far, where the sink tells them
    ghost held: { Self → Option (List ℕ) };

    // all that was written is through
    ghost flushed: { Self → Bool };

    ghost faults: { Self → ℕ };

    /// Takes some first bytes of the piece, at least one if it has any. After `Failed` nothing was taken.
    fn write(&mut self, piece: &[u8]) -> Result<usize, Failed>
        ensures bound { IfOk result (λ n. n ≤ length piece.now) }
        ensures progress { IfOk result (λ n. 0 < length piece.now → 0 < n) }
        ensures gains { IfOk result (λ n. Gains (held self.old) (held self.new) (take n piece.now)) }
        ensures stays { OnErr result (Stays (held self.old) (held self.new)) }
        ensures unflushed { OnOk result (0 < length piece.now → flushed self.new ≡ false) }
        ensures cause { HasCause (faults self.old) (faults self.new) result };

    /// Sends on what the sink keeps back.
    fn flush(&mut self) -> Result<(), Failed>
        ensures stays { Stays (held self.old) (held self.new) }
        ensures flushed { OnOk result (flushed self.new ≡ true) }
        ensures cause { HasCause (faults self.old) (faults self.new) result };
}

/// Why a shelf gives no text.
#[derive(Clone, Copy, Debug, PartialEq, Eq, Error)]
pub enum LoadFault {
    /// The shelf failed, and its count of faults rose.
    #[error("the shelf failed")]
    Failed,
    /// No text has this name.
    #[error("no text has this name")]
    Absent,
    /// Memory ran out.
    #[error("out of memory")]
    NoMemory,
}

/// Texts by their names.
pub trait Shelf {
    // what stands under a name, where the shelf tells it: a text, or none
    ghost content: { Self → List ℕ → Option (Option (List ℕ)) };

    ghost faults: { Self → ℕ };

    /// Loads the text of this name, or its first `max + 1` bytes if it is longer than `max`. `into` is overwritten, and
    /// empty after any error.
    fn load(&mut self, name: &str, max: usize, into: &mut Vec<u8>) -> Result<(), LoadFault>
        requires limit { max < 2 ^ 32 }
        ensures text { OnOk result (LoadsText (content self.old name.now) max into.new.items) }
        ensures bound { length into.new.items ≤ max + 1 }
        ensures absent { IsErrOf result LoadFault.Absent → HasNoText (content self.old name.now) }
        ensures empty { OnErr result (into.new.items ≡ []) }
        ensures keeps { (other : List ℕ) → content self.new other ≡ content self.old other }
        ensures grows { faults self.old ≤ faults self.new }
        ensures failed { IsErrOf result LoadFault.Failed → Rose (faults self.old) (faults self.new) }
        ensures calm { (result ≡ Err LoadFault.Failed → ⊥) → faults self.new ≡ faults self.old };
}

/// Why an input was not read to its end.
#[derive(Clone, Copy, Debug, PartialEq, Eq, Error)]
pub enum InputFault {
    /// A read failed, and the source's count of faults rose.
    #[error("the input failed")]
    Failed,
    /// One byte more than the limit came.
    #[error("the input is too long")]
    TooLong,
    /// Memory ran out.
    #[error("out of memory")]
    NoMemory,
}

/// The most bytes that one call reads.
const PIECE: usize = 65_536;

/// Reads to the end, or to one byte past the limit.
///
/// Takes time in proportion to the bytes and the calls, and memory for at most about twice the bytes.
pub fn read_all<S: Source>(alloc: Global, source: &mut S, max: usize) -> Result<Vec<u8>, InputFault>
    requires limit { max < 2 ^ 32 }
    ensures all { IfOk result (λ v. TakesAll (S.left source.old) (S.left source.new) v.items) }
    ensures fits { IfOk result (λ v. vec_len v ≤ max) }
    ensures too_long { IsErrOf result InputFault.TooLong → IsLongerThan (S.left source.old) max }
    ensures one_more { IsErrOf result InputFault.TooLong → TakesOneMore (S.left source.old) (S.left source.new) max }
    ensures grows { S.faults source.old ≤ S.faults source.new }
    ensures failed { IsErrOf result InputFault.Failed → Rose (S.faults source.old) (S.faults source.new) }
    ensures calm { (result ≡ Err InputFault.Failed → ⊥) → S.faults source.new ≡ S.faults source.old }
{
    let mut bytes = Vec::new(alloc);
    match read_into(source, max, &mut bytes) {
        Ok(()) => Ok(bytes),
        Err(fault) => Err(fault),
    }
}

// Reads into an empty Vec; after TooLong it has one byte past the limit.
fn read_into<S: Source>(source: &mut S, max: usize, into: &mut Vec<u8>) -> Result<(), InputFault>
    requires small { max < 2 ^ 32 }
    requires empty { into.old.items ≡ [] }
    ensures all { OnOk result (TakesAll (S.left source.old) (S.left source.new) into.new.items) }
    ensures fits { OnOk result (vec_len into.new ≤ max) }
    ensures bound { vec_len into.new ≤ max + 1 }
    ensures too_long { IsErrOf result InputFault.TooLong → IsLongerThan (S.left source.old) max }
    ensures one_more { IsErrOf result InputFault.TooLong → TakesOneMore (S.left source.old) (S.left source.new) max }
    ensures grows { S.faults source.old ≤ S.faults source.new }
    ensures failed { IsErrOf result InputFault.Failed → Rose (S.faults source.old) (S.faults source.new) }
    ensures calm { (result ≡ Err InputFault.Failed → ⊥) → S.faults source.new ≡ S.faults source.old }
{
    let mut piece = [0; PIECE];
    'turns: while into.len() <= max {
        let room = PIECE.min(max + 1 - into.len());
        let count = match source.read(&mut piece[..room]) {
            Ok(count) => count,
            Err(Failed) => return Err(InputFault::Failed),
        };
        if count == 0 {
            return Ok(());
        }
        if into.extend_from_slice(&piece[..count]).is_err() {
            return Err(InputFault::NoMemory);
        }
    }
    Err(InputFault::TooLong)
}

/// Writes all the bytes; after `Failed` a prefix of them was written.
#[tactic(auto, using(crate::proofs::Known::write_steps))]
pub fn write_all<K: Sink>(sink: &mut K, bytes: &[u8]) -> Result<(), Failed>
    ensures ok { OnOk result (Gains (K.held sink.old) (K.held sink.new) bytes.now) }
    ensures err { OnErr result (GainsPrefix (K.held sink.old) (K.held sink.new) bytes.now) }
    ensures cause { HasCause (K.faults sink.old) (K.faults sink.new) result }
{
    let mut sent = 0;
    'turns: while sent < bytes.len() {
        sent += sink.write(&bytes[sent..])?;
    }
    Ok(())
}

/// Writes all the bytes, and flushes; after `Failed` a prefix of them was written, maybe all.
#[tactic(auto, using(crate::proofs::Known::send_steps))]
pub fn send<K: Sink>(sink: &mut K, bytes: &[u8]) -> Result<(), Failed>
    ensures ok { OnOk result (Gains (K.held sink.old) (K.held sink.new) bytes.now) }
    ensures flushed { OnOk result (K.flushed sink.new ≡ true) }
    ensures err { OnErr result (GainsPrefix (K.held sink.old) (K.held sink.new) bytes.now) }
    ensures cause { HasCause (K.faults sink.old) (K.faults sink.new) result }
{
    write_all(sink, bytes)?;
    sink.flush()
}

/// Why the text of a name is not had.
#[derive(Clone, Copy, Debug, PartialEq, Eq, Error)]
pub enum TextFault {
    /// The shelf failed, and its count of faults rose.
    #[error("the shelf failed")]
    Failed,
    /// No text has this name.
    #[error("no text has this name")]
    Absent,
    /// The text has more bytes than the limit.
    #[error("the text is too long")]
    TooLong,
    /// Memory ran out.
    #[error("out of memory")]
    NoMemory,
}

/// The whole text of this name, if it has at most `max` bytes.
#[tactic(auto, using(crate::proofs::Texts::texts))]
pub fn load_text<F: Shelf>(
    alloc: Global,
    shelf: &mut F,
    name: &str,
    max: usize,
) -> Result<Vec<u8>, TextFault>
    requires limit { max < 2 ^ 32 }
    ensures ok { IfOk result (λ t. TellsText (F.content shelf.old name.now) t.items) }
    ensures fits { IfOk result (λ t. vec_len t ≤ max) }
    ensures err { IfErr result (IsTextCause (F.content shelf.old name.now) max (F.faults shelf.old) (F.faults shelf.new)) }
    ensures keeps { (other : List ℕ) → F.content shelf.new other ≡ F.content shelf.old other }
    ensures grows { F.faults shelf.old ≤ F.faults shelf.new }
    ensures calm { (result ≡ Err TextFault.Failed → ⊥) → F.faults shelf.new ≡ F.faults shelf.old }
{
    let mut text = Vec::new(alloc);
    match shelf.load(name, max, &mut text) {
        Err(LoadFault::Failed) => Err(TextFault::Failed),
        Err(LoadFault::Absent) => Err(TextFault::Absent),
        Err(LoadFault::NoMemory) => Err(TextFault::NoMemory),
        Ok(()) => {
            if text.len() > max {
                return Err(TextFault::TooLong);
            }
            Ok(text)
        }
    }
}

// One more fault.
pub(crate) fn fail(faults: &mut u64) -> Failed
    ensures counted { faults.new ≡ one_more faults.old }
    ensures grows { faults.old ≤ faults.new }
{
    *faults = faults.saturating_add(1);
    Failed
}

// Copies as many first bytes as there are, fit, and may move at once.
pub(crate) fn copy_some(from: &[u8], into: &mut [u8], most: usize) -> usize
    requires positive { 0 < most }
    ensures count { result ≡ min (min (length into.old) (length from.now)) most }
    ensures there { result ≤ length from.now }
    ensures fits { result ≤ length into.new }
    ensures copied { take result into.new ≡ take result from.now }
    ensures end { result ≡ 0 → 0 < length into.new → from.now ≡ [] }
{
    let count = into.len().min(from.len()).min(most);
    into[..count].copy_from_slice(&from[..count]);
    count
}

// Copies the text, or its first `max + 1` bytes if it is longer than `max`.
pub(crate) fn copy_text(text: &[u8], max: usize, into: &mut Vec<u8>) -> Result<(), LoadFault>
    requires small { max < 2 ^ 32 }
    requires empty { into.old.items ≡ [] }
    ensures ok { OnOk result (into.new.items ≡ take (max + 1) text.now) }
    ensures bound { length into.new.items ≤ max + 1 }
    ensures err { IfErr result (λ e. (e ≡ LoadFault.NoMemory) × (into.new.items ≡ [])) }
{
    let count = text.len().min(max + 1);
    match into.extend_from_slice(&text[..count]) {
        Ok(()) => Ok(()),
        Err(_) => Err(LoadFault::NoMemory),
    }
}
