//! Ends in memory, call by call.

use outside_io::{
    CalmShelf, CalmSink, CalmSource, InputFault, LoadFault, MemShelf, MemSink, MemSource,
    NamedText, Shelf, Sink, TextFault, load_text, read_all, send,
};
use std::alloc::{AllocError, Global};
use std::test::Fail;
use test_rows::{Wrong, each_row, number, word};

/// The name of a fault of the input.
fn input_fault(fault: &InputFault) -> &'static str {
    match fault {
        InputFault::Failed => "Failed",
        InputFault::TooLong => "TooLong",
        InputFault::NoMemory => "NoMemory",
    }
}

/// Whether an answer is `=` and these bytes, or this fault.
fn is_read(answer: &Result<Vec<u8>, InputFault>, want: &str) -> bool {
    match (answer, want.strip_prefix('=')) {
        (Ok(read), Some(text)) => read.as_slice() == text.as_bytes(),
        (Err(fault), None) => input_fault(fault) == want,
        _ => false,
    }
}

/// The source of a row.
fn source_of(alloc: Global, row: &str) -> Result<MemSource, AllocError> {
    let bytes = Vec::from_slice(alloc, word(row, 0).as_bytes())?;
    let failing = Vec::from_slice(alloc, &[number(row, 2)])?;
    Ok(MemSource::new(bytes, (number(row, 1) as usize).max(1), failing))
}

/// Whether the source of a row is read as the row says, and left so.
fn reads(alloc: Global, row: &str) -> Result<bool, AllocError> {
    let mut source = source_of(alloc, row)?;
    let answer = read_all(alloc, &mut source, (number(row, 3) as usize).min(100));
    let is_answer = is_read(&answer, word(row, 4));
    Ok(
        is_answer
            && source.calls() == number(row, 5)
            && source.rest().len() as u64 == number(row, 6),
    )
}

/// Text, most bytes a call, failing call, limit, answer, calls, bytes left.
const READS: &str = "\
abc 1 0 3 =abc 4 0
abc 3 0 3 =abc 2 0
abc 100 0 9 =abc 2 0
- 1 0 0 = 1 0
a 1 0 0 TooLong 1 0
abc 1 0 2 TooLong 3 0
abcdef 100 0 2 TooLong 1 3
abc 1 1 9 Failed 1 3
abc 1 2 9 Failed 2 2
abc 1 4 9 Failed 4 0
abc 1 5 9 =abc 4 0";

#[test]
fn reads_all_or_says_why(rt: HostRuntime) -> Result<(), Wrong> {
    each_row(rt.alloc(), READS, "\n", reads)
}

#[test]
fn reads_a_long_text(rt: HostRuntime) -> Result<(), Fail> {
    let long = vec![in rt.alloc(); 7u8; 200_000]?;
    let mut source = CalmSource::new(Vec::from_slice(rt.alloc(), &long)?);
    let read = read_all(rt.alloc(), &mut source, 200_000)?;
    assert!(rt; read.as_slice() == long.as_slice() && source.rest().is_empty());
    Ok(())
}

/// The sink of a row.
fn sink_of(alloc: Global, row: &str) -> Result<MemSink, AllocError> {
    let failing = Vec::from_slice(alloc, &[number(row, 2)])?;
    let room = number(row, 0) as usize;
    MemSink::new(alloc, room, (number(row, 1) as usize).max(1), failing)
}

/// Whether a sink takes all of five bytes.
fn sends_to(sink: &mut MemSink) -> bool {
    send(sink, b"abcde".as_slice()).is_ok()
}

/// Whether a sink holds what its row says, was called as often, and is flushed only if it took all.
fn is_held(sink: &MemSink, row: &str) -> bool {
    sink.as_slice() == word(row, 4).as_bytes()
        && sink.calls() == number(row, 5)
        && sink.is_flushed() == (word(row, 3) == "sent")
}

/// Whether the sink of a row takes what the row says.
fn sends(alloc: Global, row: &str) -> Result<bool, AllocError> {
    let mut sink = sink_of(alloc, row)?;
    let is_sent = sends_to(&mut sink);
    Ok(is_sent == (word(row, 3) == "sent") && is_held(&sink, row))
}

/// Room, most bytes a call, failing call, whether all was sent, what is held, calls.
const SENDS: &str = "\
5 1 0 sent abcde 6
5 2 0 sent abcde 4
99 99 0 sent abcde 2
5 2 5 sent abcde 4
4 1 0 fails abcd 5
4 2 0 fails abcd 3
4 99 0 fails - 1
5 99 1 fails - 1
5 2 2 fails ab 2
5 2 4 fails abcde 4
5 99 2 fails abcde 2";

#[test]
fn sends_all_or_a_prefix(rt: HostRuntime) -> Result<(), Wrong> {
    each_row(rt.alloc(), SENDS, "\n", sends)
}

/// Whether a sink tells these bytes, and whether it is flushed.
fn is_told(sink: &CalmSink, told: Option<&[u8]>, is_flushed: bool) -> bool {
    sink.told() == told && sink.is_flushed() == is_flushed
}

#[test]
fn tells_what_came_until_the_room_ends(rt: HostRuntime) -> Result<(), Fail> {
    let mut sink = CalmSink::new(rt.alloc(), 6)?;
    send(&mut sink, b"abcde".as_slice())?;
    assert!(rt; is_told(&sink, Some(b"abcde".as_slice()), true));
    assert!(rt; sink.write(b"fg".as_slice())? == 2);
    assert!(rt; is_told(&sink, None, false));
    Ok(())
}

/// The name of a fault of a text.
fn text_fault(fault: &TextFault) -> &'static str {
    match fault {
        TextFault::Failed => "Failed",
        TextFault::Absent => "Absent",
        TextFault::TooLong => "TooLong",
        TextFault::NoMemory => "NoMemory",
    }
}

/// Whether an answer is `=` and these bytes, or this fault.
fn is_text(answer: &Result<Vec<u8>, TextFault>, want: &str) -> bool {
    match (answer, want.strip_prefix('=')) {
        (Ok(read), Some(text)) => read.as_slice() == text.as_bytes(),
        (Err(fault), None) => text_fault(fault) == want,
        _ => false,
    }
}

/// A shelf with two texts of one name and an empty one.
fn shelf_of(alloc: Global, fails: u64) -> Result<MemShelf, AllocError> {
    let mut texts = Vec::new(alloc);
    texts.push(NamedText::new(alloc, "a", b"first".as_slice())?)?;
    texts.push(NamedText::new(alloc, "a", b"second".as_slice())?)?;
    texts.push(NamedText::new(alloc, "b", b"".as_slice())?)?;
    Ok(MemShelf::new(texts, Vec::from_slice(alloc, &[fails])?))
}

/// Whether the text of a row is loaded as the row says, by one call.
fn loads(alloc: Global, row: &str) -> Result<bool, AllocError> {
    let mut shelf = shelf_of(alloc, number(row, 2))?;
    let max = (number(row, 1) as usize).min(100);
    let answer = load_text(alloc, &mut shelf, word(row, 0), max);
    Ok(is_text(&answer, word(row, 3)) && shelf.calls() == 1)
}

/// Name, limit, failing call, answer.
const LOADS: &str = "\
a 5 0 =first
b 0 0 =
a 5 2 =first
a 5 1 Failed
c 5 1 Failed
c 5 0 Absent
- 5 0 Absent
a 4 0 TooLong";

#[test]
fn loads_a_text_or_says_why(rt: HostRuntime) -> Result<(), Wrong> {
    each_row(rt.alloc(), LOADS, "\n", loads)
}

#[test]
fn loads_one_text_under_any_name(rt: HostRuntime) -> Result<(), Fail> {
    let mut shelf = CalmShelf::new(Vec::from_slice(rt.alloc(), b"text".as_slice())?);
    let text = load_text(rt.alloc(), &mut shelf, "any", 4)?;
    assert!(rt; text.as_slice() == b"text".as_slice());
    let mut into = Vec::new(rt.alloc());
    shelf.load("any", 2, &mut into)?;
    assert!(rt; into.as_slice() == b"tex".as_slice());
    Ok(())
}

#[test]
fn loads_none_from_an_empty_shelf(rt: HostRuntime) -> Result<(), Fail> {
    let mut into = Vec::from_slice(rt.alloc(), b"tex".as_slice())?;
    let absent = CalmShelf::empty().load("any", 2, &mut into);
    assert!(rt; absent == Err(LoadFault::Absent) && into.is_empty());
    Ok(())
}
