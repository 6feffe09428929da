//! The program `qroute`: the real input, files and output, and the top call over them.
//!
//! The words of the command line and standard input go in; the written program comes out on standard output, and the report
//! line, or the line of a fault, on standard error. The status is the top call's answer. What the words, the input, the
//! files and the outputs really hold is the trusted edge: no contract speaks of it.
#![tactic(auto)]

use outside_io::{DirShelf, StdSink, StdSource};
use std::alloc::AllocError;
use std::env;
use std::io::ErrorKind;
use std::process::ExitCode;

/// Memory is wanting before the top call.
const NO_MEMORY: u8 = 7;

fn main(rt: HostRuntime) -> ExitCode {
    ExitCode::from(perform(&rt).unwrap_or(NO_MEMORY))
}

/// The status of the run.
fn perform(rt: &HostRuntime) -> Result<u8, AllocError> {
    let texts = read_words(rt)?;
    let mut words = Vec::new(rt.alloc());
    for text in &texts {
        words.push(text.as_str())?;
    }
    let mut input = StdSource::new(rt.reader());
    let mut shelf = DirShelf::new(rt);
    let mut out = StdSink::new(rt.stdout());
    let mut report = StdSink::new(rt.stderr());
    Ok(qroute_top::run(
        rt.alloc(),
        words.as_slice(),
        &mut input,
        &mut shelf,
        &mut out,
        &mut report,
    ))
}

/// The words of the command line; none, and so no command, where one of them isn't text.
fn read_words(rt: &HostRuntime) -> Result<Vec<String>, AllocError> {
    match env::args(rt) {
        Ok(words) => words.collect(rt.alloc()),
        Err(error) => {
            if error.kind() == ErrorKind::OutOfMemory {
                return Err(AllocError);
            }
            Ok(Vec::new(rt.alloc()))
        }
    }
}
