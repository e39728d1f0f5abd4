//! What the program returns and writes for words, over memory in place of standard input, output and error.

ghost use Rattle.std.specs.Prelude.{◌≡◌, [], None, true};

use clk_command::{Heard, Recalled, command};
use clk_packet::{FailingSink, FailingSource, Fault};
use clk_rows::PRIO_TWO_QUEUES;
use std::alloc::{AllocError, Global};
use std::rt::Files;
use std::sync::Wait;
use std::thread::Threads;

/// How many bytes a writer takes that isn't meant to fail.
pub const AMPLE: usize = 4096;

/// The script on standard input.
pub fn input() -> &'static [u8] {
    PRIO_TWO_QUEUES.script.as_bytes()
}

/// What words return, and what they write to standard output and to standard error.
#[derive(Drop)]
pub struct Answered {
    pub outcome: Result<u8, Fault>,
    pub written: Vec<u8>,
    pub told: Vec<u8>,
}

/// How what words did differs from what they were meant to do.
#[derive(Clone, Copy, Debug, PartialEq, Eq)]
pub enum Difference {
    /// They returned this.
    Returned(Result<u8, Fault>),
    /// They wrote another text to standard output. This is the first byte that differs.
    Wrote { byte: usize },
    /// They wrote so many bytes to standard error, and were to write none.
    Told { bytes: usize },
    /// This file has other contents. Or it is missing, or was to be missing.
    Left(&'static str),
}

impl Answered {
    /// How it differs from this outcome and this text on standard output, with nothing on standard error.
    pub fn difference_from(&self, outcome: Result<u8, Fault>, text: &[u8]) -> Option<Difference>
        ensures outcome { result ≡ None → self.now.outcome ≡ outcome }
        ensures written { result ≡ None → self.now.written.items ≡ text.now }
        ensures told { result ≡ None → self.now.told.items ≡ [] }
    {
        if !is_same(self.outcome, outcome) {
            return Some(Difference::Returned(self.outcome));
        }
        if self.written.as_slice() != text {
            let byte = first_other(&self.written, text);
            return Some(Difference::Wrote { byte });
        }
        if !self.told.is_empty() {
            let bytes = self.told.len();
            return Some(Difference::Told { bytes });
        }
        None
    }
}

/// Whether two outcomes are the same.
fn is_same(one: Result<u8, Fault>, other: Result<u8, Fault>) -> bool
    ensures { result ≡ true → one ≡ other }
{
    match (one, other) {
        (Ok(one), Ok(other)) => one == other,
        (Err(one), Err(other)) => one == other,
        _ => false,
    }
}

/// The first byte at which a text differs from another, or its length if there is none.
fn first_other(text: &[u8], other: &[u8]) -> usize {
    for byte in 0..text.len() {
        if text.get(byte) != other.get(byte) {
            return byte;
        }
    }
    text.len()
}

/// What words, with a space between them, return and write for a script on standard input, if standard output takes `room` bytes and
/// standard error `errors_room` before they fail. Fault 1 if an allocation fails.
pub fn answer(
    rt: &(impl Files + AllocGlobal + Threads + Wait + Sync),
    words: &str,
    script: &[u8],
    room: usize,
    errors_room: usize,
) -> Result<Answered, Fault> {
    let alloc = rt.alloc();
    let heard = Heard::nothing(alloc);
    let source = FailingSource::new(script.to_vec(alloc)?, usize::MAX);
    let mut reader = Recalled::new(source, &heard);
    let mut writer = FailingSink::new(vec![in alloc; 0; room]?);
    let mut errors = FailingSink::new(vec![in alloc; 0; errors_room]?);
    let words = words_of(alloc, words)?;
    let outcome = command(rt, rt, words, &mut reader, &mut writer, &mut errors);
    Ok(Answered {
        outcome,
        written: writer.taken().to_vec(alloc)?,
        told: errors.taken().to_vec(alloc)?,
    })
}

fn words_of(alloc: Global, words: &str) -> Result<Vec<String>, AllocError> {
    let mut list = Vec::new(alloc);
    for word in words.split_ascii_whitespace() {
        list.push(String::from_str(alloc, word)?)?;
    }
    Ok(list)
}

/// How what words did for a script on standard input differs from this outcome and this text on standard output, with nothing on standard
/// error. Fault 1 if an allocation fails.
pub fn compare(
    rt: &(impl Files + AllocGlobal + Threads + Wait + Sync),
    words: &str,
    script: &[u8],
    outcome: Result<u8, Fault>,
    text: &[u8],
) -> Result<Option<Difference>, Fault> {
    let answered = answer(rt, words, script, AMPLE, AMPLE)?;
    Ok(answered.difference_from(outcome, text))
}
