//! A line of words that is put together without an allocation.

use crate::limits::{MAX_QUOTED, MAX_WORDS};
use crate::position::{parts_at, position_of};
use arrayvec::ArrayVec;
use itoa::Buffer;
use std::marker::Model;

/// A line of words, of at most `MAX_WORDS` bytes. What is added to a full line is dropped.
#[derive(Drop)]
pub struct Words {
    bytes: ArrayVec<u8, MAX_WORDS>,
}

impl Model for Words {
    ghost use Rattle.std.specs.Prelude.{List, ℕ};

    ghost Value = { List ℕ };

    ghost view = { λ words. words.bytes.items };
}

impl Words {
    ghost use Rattle.std.specs.Prelude.{◌≡◌, ◌≤◌, ◌++◌, length, take, decimal};
    ghost use Rattle.clk_explain.specs.Position.{line_and_column};
    ghost use Rattle.clk_explain.specs.Words.{quoted};

    /// A line of these words.
    pub fn of(text: &str) -> Words
        ensures { result ≡ take MAX_WORDS text.now }
    {
        Words {
            bytes: ArrayVec::new(),
        }
        .and(text)
    }

    /// The bytes of the line.
    pub fn as_slice(&self) -> &[u8]
        ensures bytes { result.now ≡ self.now }
        ensures few { length result.now ≤ MAX_WORDS }
    {
        self.bytes.as_slice()
    }

    /// The line, and these words behind it.
    pub fn and(self, text: &str) -> Words
        ensures { result ≡ take MAX_WORDS (self ++ text.now) }
    {
        self.and_bytes(text.as_bytes())
    }

    /// The line, and a number behind it.
    pub fn and_number(self, number: usize) -> Words
        ensures { result ≡ take MAX_WORDS (self ++ decimal number) }
    {
        let mut room = Buffer::new();
        self.and_bytes(room.format(number).as_bytes())
    }

    /// The line, and a word of a text in quotes behind it. Of a long word the front is quoted.
    pub fn and_quoted(self, word: &[u8]) -> Words
        ensures { result ≡ take MAX_WORDS (self ++ quoted word.now) }
    {
        let (front, _) = parts_at(word, MAX_QUOTED);
        let line = self.and("'").and_bytes(front);
        if word.len() <= MAX_QUOTED {
            line.and("'")
        } else {
            line.and("..'")
        }
    }

    /// The line, and the position of an offset of a text behind it, as LINE:COLUMN.
    pub fn and_position(self, text: &[u8], offset: usize) -> Words
        ensures { result ≡ take MAX_WORDS (self ++ line_and_column text.now offset) }
    {
        let position = position_of(text, offset);
        self.and_number(position.line)
            .and(":")
            .and_number(position.column)
    }

    /// The line, and as many bytes behind it as it has room for.
    fn and_bytes(mut self, bytes: &[u8]) -> Words
        ensures { result ≡ take MAX_WORDS (self ++ bytes.now) }
    {
        let (fitting, _) = parts_at(bytes, self.bytes.remaining_capacity());
        match self.bytes.try_extend_from_slice(fitting) {
            Ok(()) => {}
            Err(_) => unreachable!(),
        }
        self
    }
}
