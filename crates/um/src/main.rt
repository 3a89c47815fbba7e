//! The program `um`: calls `run` with the command-line words and the standard streams, and exits with the number of the status.
#![tactic(auto)]

use std::env;
use std::io::ErrorKind;
use std::process::ExitCode;
use um_cli::{PlainRadio, ReadSource, Words, WriteSink, run};

/// The exit status if there is too little memory to read the command-line words; after any other failure to read them, it is
/// `UNREADABLE_ARGUMENTS_STATUS`.
const NO_MEMORY_STATUS: u8 = 6;

const UNREADABLE_ARGUMENTS_STATUS: u8 = 8;

fn main(rt: HostRuntime) -> ExitCode {
    let arguments = match env::args(&rt) {
        Ok(arguments) => arguments,
        Err(error) if error.kind() == ErrorKind::OutOfMemory => return ExitCode::from(
            NO_MEMORY_STATUS,
        ),
        Err(_) => return ExitCode::from(UNREADABLE_ARGUMENTS_STATUS),
    };
    let mut words = Words::new();
    for word in arguments.skip(1) {
        words.add(word.as_str());
    }
    let mut input = ReadSource::new(rt.stdin());
    let mut output = WriteSink::new(rt.stdout());
    let mut radio = PlainRadio::new();
    let status = run(rt.alloc(), &words, &mut input, &mut output, &mut radio);
    ExitCode::from(status.number())
}
