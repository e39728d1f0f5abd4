//! Explanations of faults.

ghost use Rattle.std.specs.Prelude.{◌≡◌, ◌≤◌, ◌<◌, ◌+◌, ◌++◌, Some, length, map, replicate};
ghost use Rattle.arrayvec.specs.ArrayVec.{array_vec_len};
ghost use Rattle.clk_explain.specs.Position.{line_at, column_at, shown_before, shown_after};
ghost use Rattle.clk_explain.specs.Explanation.{Explains, wrong_at, heading, source, line_of, shown, filled, place_of};

use crate::limits::{MAX_EXPLANATION, MAX_WORDS};
use crate::position::{position_of, shown_at};
use crate::wording::{expected, sentence};
use crate::words::Words;
use arrayvec::ArrayVec;
use clk_packet::Fault;
use itoa::Buffer;
use std::marker::Model;

/// The explanation of a fault of a tree text: lines of ASCII, each with a line feed.
#[derive(Drop)]
pub struct Explanation {
    bytes: ArrayVec<u8, MAX_EXPLANATION>,
}

impl Model for Explanation {
    ghost use Rattle.std.specs.Prelude.{List, ℕ};

    ghost Value = { List ℕ };

    ghost view = { λ explanation. explanation.bytes.items };
}

impl Explanation {
    ghost use Rattle.std.specs.Prelude.{◌≡◌, ◌≤◌, length};
    ghost use Rattle.clk_explain.specs.Explanation.{filled};

    /// Its bytes.
    pub fn as_slice(&self) -> &[u8]
        ensures bytes { result.now ≡ self.now }
        ensures within { length result.now ≤ MAX_EXPLANATION }
    {
        self.bytes.as_slice()
    }

    /// Writes as many of its bytes as there is room for to the front of a buffer, and returns how many bytes it has in all.
    pub fn fill(&self, buffer: &mut [u8]) -> usize
        ensures filled { buffer.new ≡ filled self.now buffer.old }
        ensures needed { result ≡ length self.now }
        ensures few { result ≤ MAX_EXPLANATION }
    {
        let bytes = self.bytes.as_slice();
        let fitting = bytes.len().min(buffer.len());
        let (front, _) = bytes.split_at(fitting);
        buffer[..fitting].copy_from_slice(front);
        self.bytes.len()
    }
}

/// Explains a fault of a tree text: where it is, the line with a caret below the place, what is wrong, and what was expected. A fault that
/// is at no byte of the text has a sentence on what is wrong and one on what was expected.
pub fn explain(text: &[u8], fault: Fault) -> Explanation
    ensures { Explains text.now fault result }
{
    let (wrong, wanted) = (sentence(text, fault), expected(text, fault));
    match place_of(fault) {
        Some(offset) => point_out(text, offset as usize, &wrong, &wanted),
        None => tell(&wrong, &wanted),
    }
}

/// Explains what is wrong at an offset of any text: where it is, the line with a caret below the place, what is wrong, and what was
/// expected. An offset beyond the text counts as its end.
pub fn point_out(text: &[u8], offset: usize, wrong: &Words, expected: &Words) -> Explanation
    ensures { result ≡ wrong_at text.now (Some offset) wrong.now ++ line_of expected.now }
{
    let mut page = ArrayVec::new();
    add_heading(&mut page, text, offset, wrong.as_slice());
    add_source(&mut page, text, offset);
    add_line(&mut page, expected.as_slice());
    Explanation { bytes: page }
}

/// Explains what is wrong at no place of a text: what is wrong, and what was expected.
pub fn tell(wrong: &Words, expected: &Words) -> Explanation
    ensures { result ≡ line_of wrong.now ++ line_of expected.now }
{
    let mut page = ArrayVec::new();
    add_line(&mut page, wrong.as_slice());
    add_line(&mut page, expected.as_slice());
    Explanation { bytes: page }
}

/// At which byte of a tree text a fault is, if it is at one.
fn place_of(fault: Fault) -> Option<u32>
    ensures { result ≡ place_of fault }
{
    match fault {
        Fault::BadText { offset }
        | Fault::UnknownClass { offset }
        | Fault::BadArgument { offset }
        | Fault::NameTwice { offset }
        | Fault::UnknownName { offset }
        | Fault::BadPort { offset }
        | Fault::PortTwice { offset }
        | Fault::PortMissing { offset }
        | Fault::WrongKind { offset }
        | Fault::ManyDevices { offset }
        | Fault::NotATree { offset } => Some(offset),
        _ => None,
    }
}

/// An explanation as far as it is written.
type Page = ArrayVec<u8, MAX_EXPLANATION>;

/// Adds a line with the position of an offset and a sentence.
fn add_heading(page: &mut Page, text: &[u8], offset: usize, sentence: &[u8])
    requires few { length sentence.now ≤ MAX_WORDS }
    requires room { array_vec_len page.old ≡ 0 }
    ensures heading { page.new.items ≡ page.old.items ++ heading text.now offset sentence.now }
    ensures room { array_vec_len page.new ≤ MAX_WORDS + 84 }
{
    let position = position_of(text, offset);
    let mut number = Buffer::new();
    add(page, number.format(position.line).as_bytes());
    add(page, b":");
    add(page, number.format(position.column).as_bytes());
    add(page, b": ");
    add_line(page, sentence);
}

/// Adds the line of an offset, and a line with a caret below the offset.
fn add_source(page: &mut Page, text: &[u8], offset: usize)
    requires room { array_vec_len page.old ≤ MAX_WORDS + 84 }
    ensures source { page.new.items ≡ page.old.items ++ source text.now offset }
    ensures room { array_vec_len page.new ≤ MAX_WORDS + 300 }
{
    let (before, after) = shown_at(text, offset);
    add(page, b"    ");
    add_shown(page, before);
    add_line(page, after);
    add(page, b"    ");
    add_spaces(page, before.len());
    add(page, b"^\n");
}

/// Adds bytes as they are shown, as a line.
fn add_line(page: &mut Page, words: &[u8])
    requires { array_vec_len page.old + length words.now < MAX_EXPLANATION }
    ensures line { page.new.items ≡ page.old.items ++ line_of words.now }
    ensures len { array_vec_len page.new ≡ array_vec_len page.old + length words.now + 1 }
{
    add_shown(page, words);
    page.push(b'\n');
}

/// Adds bytes as they are shown.
fn add_shown(page: &mut Page, bytes: &[u8])
    requires { array_vec_len page.old + length bytes.now ≤ MAX_EXPLANATION }
    ensures bytes { page.new.items ≡ page.old.items ++ map shown bytes.now }
    ensures len { array_vec_len page.new ≡ array_vec_len page.old + length bytes.now }
{
    for byte in bytes {
        page.push(shown(*byte));
    }
}

/// Adds so many spaces.
fn add_spaces(page: &mut Page, count: usize)
    requires { array_vec_len page.old + count ≤ MAX_EXPLANATION }
    ensures spaces { page.new.items ≡ page.old.items ++ replicate count 32 }
    ensures len { array_vec_len page.new ≡ array_vec_len page.old + count }
{
    for _ in 0..count {
        page.push(b' ');
    }
}

/// Adds bytes as they are.
fn add(page: &mut Page, bytes: &[u8])
    requires { array_vec_len page.old + length bytes.now ≤ MAX_EXPLANATION }
    ensures bytes { page.new.items ≡ page.old.items ++ bytes.now }
    ensures len { array_vec_len page.new ≡ array_vec_len page.old + length bytes.now }
{
    match page.try_extend_from_slice(bytes) {
        Ok(()) => {}
        Err(_) => unreachable!(),
    }
}

/// How a byte is shown: a blank as a space, another printable character of ASCII as itself, and what is neither as a question mark.
fn shown(byte: u8) -> u8
    ensures { result ≡ shown byte }
{
    match byte {
        b' ' | b'\t' | b'\n' | b'\r' => b' ',
        b'!'..=b'~' => byte,
        _ => b'?',
    }
}
