//! Runs scripts of sends and pulls, and traces from producers on threads, over queues and pull schedulers.
#![tactic(auto)]

use clk_command::{Heard, Recalled, command, fault_line};
use clk_packet::{Fault, FromRead, Sink, ToWrite, write_all};
use std::process::ExitCode;
use std::rt::{Env, Files, Runtime};
use std::sync::Wait;
use std::thread::Threads;
use std::{env, fs, io};

fn main(rt: HostRuntime) -> ExitCode {
    // Standard input, output or error may be closed. These take their places, so that no file of a task does.
    let _places = (null(&rt), null(&rt), null(&rt));
    let mut errors = ToWrite::new(rt.stderr());
    match run_words(&rt, &mut errors) {
        Ok(status) => ExitCode::from(status),
        Err(fault) => {
            let _ = fault_line(fault, &mut errors);
            ExitCode::FAILURE
        }
    }
}

/// The null device, opened to read, if there is one.
fn null<H: Files>(rt: &H) -> Option<H::File> {
    fs::open(rt, "/dev/null").ok()
}

/// Does what the words of the program ask for. Returns the status that it ends with.
fn run_words<H: Runtime + AllocGlobal + Threads + Wait + Sync, E: Sink>(
    rt: &H,
    errors: &mut E,
) -> Result<u8, Fault> {
    let Some(words) = words_given(rt)? else {
        write_all(errors, b"error: a word is not UTF-8\n")?;
        return Ok(2);
    };
    let heard = Heard::nothing(rt.alloc());
    let mut reader = Recalled::new(FromRead::new(rt.reader()), &heard);
    let mut writer = ToWrite::new(io::writer(rt));
    command(rt, rt, words, &mut reader, &mut writer, errors)
}

/// The words after the program's name, or `None` if a word isn't UTF-8. Fault 1 if an allocation fails.
fn words_given<H: Env + AllocGlobal>(rt: &H) -> Result<Option<Vec<String>>, Fault> {
    match env::args(rt) {
        Ok(words) => Ok(Some(words.skip(1).collect(rt.alloc())?)),
        Err(error) if error.kind() == io::ErrorKind::OutOfMemory => Err(Fault::Memory),
        Err(_) => Ok(None),
    }
}
