//! The program `wblog`: the words of the command line, standard input and output, two image files and the threads of the
//! system, handed to the top call.
#![tactic(auto)]

use std::alloc::AllocError;
use std::env;
use std::io::ErrorKind;
use std::process::ExitCode;
use std::rt::Env;
use wb_device::{FileDevice, StdinSource, StdoutSink};
use wb_front::Open;
use wb_tool::run;

fn main(rt: HostRuntime) -> ExitCode {
    let alloc = rt.alloc();
    let Ok(words) = words_of(&rt) else {
        return ExitCode::from(1);
    };
    let log = FileDevice::open(&rt, word(&words, 1));
    let backing = FileDevice::open(&rt, word(&words, 2));
    let mut source = StdinSource::new(rt.stdin());
    let mut sink = StdoutSink::new(rt.stdout());
    let outcome = run(
        &rt,
        alloc,
        &words,
        &mut source,
        &mut sink,
        log,
        backing,
        &Open,
    );
    ExitCode::from(outcome.status)
}

/// The words after the program's name. Where they aren't text there are none, which is no form of a command line.
fn words_of<R: Env + AllocGlobal>(rt: &R) -> Result<Vec<String>, AllocError> {
    match env::args(rt) {
        Ok(words) => words.skip(1).collect(rt.alloc()),
        Err(error) if error.kind() == ErrorKind::OutOfMemory => Err(AllocError),
        Err(_) => Ok(Vec::new(rt.alloc())),
    }
}

/// The word of this number, or nothing where it is missing.
fn word(words: &[String], number: usize) -> &str {
    words.get(number).map_or("", |word| word.as_str())
}
