//! The bench as a program: it hands the words of its command line, its standard input and its standard output to the top
//! call of `adsc_bench`, and ends with the number of the status.
#![tactic(auto)]

use adsc_bench::{Free, Status, top};
use adsc_io::{StdSink, StdSource};
use std::alloc::AllocGlobal;
use std::env::{self, Env};
use std::io::ErrorKind;
use std::process::ExitCode;

fn main(rt: HostRuntime) -> ExitCode {
    let words = match words_of(&rt) {
        Ok(words) => words,
        Err(status) => return ExitCode::from(status.number()),
    };
    let mut source = StdSource::new(rt.stdin());
    let mut sink = StdSink::new(rt.stdout());
    let status = top(
        &rt,
        rt.alloc(),
        words.as_slice(),
        &mut source,
        &mut sink,
        &Free,
    );
    ExitCode::from(status.number())
}

/// The words behind the program's name. Words that can't be had as text are none of a listed form.
fn words_of(rt: &(impl Env + AllocGlobal)) -> Result<Vec<String>, Status> {
    let words = match env::args(rt) {
        Ok(words) => words,
        Err(fault) if fault.kind() == ErrorKind::OutOfMemory => return Err(Status::NoMemory),
        Err(_) => return Err(Status::Words),
    };
    match words.skip(1).collect(rt.alloc()) {
        Ok(words) => Ok(words),
        Err(_) => Err(Status::NoMemory),
    }
}
