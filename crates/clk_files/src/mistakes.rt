//! What is wrong with a line of a script or a record of a trace, for a person.

use clk_explain::{Explanation, Words, point_out};
use clk_packet::{MAX_LENGTH, MAX_RECORDS, MAX_SENDER, number_in};
use clk_script::{MAX_DEVICE, MAX_MOMENT};

/// What is wrong at a place of a line.
#[derive(Drop)]
struct Mistake {
    place: usize,
    wrong: Words,
    expected: Words,
}

/// A word of a line, and where it begins.
#[derive(Clone, Copy)]
struct LineWord<'a> {
    start: usize,
    letters: &'a [u8],
}

/// A number that a line may have.
#[derive(Clone, Copy)]
struct Field {
    name: &'static str,
    least: u64,
    most: u64,
    is_optional: bool,
}

const SENDER: Field = Field {
    name: "sender",
    least: 0,
    most: MAX_SENDER,
    is_optional: false,
};

const LENGTH: Field = Field {
    name: "length",
    least: 1,
    most: MAX_LENGTH,
    is_optional: false,
};

const MOMENT: Field = Field {
    name: "moment",
    least: 0,
    most: MAX_MOMENT,
    is_optional: false,
};

const DEVICE: Field = Field {
    name: "device",
    least: 0,
    most: MAX_DEVICE,
    is_optional: true,
};

const COMMANDS: &str =
    "expected 'send SENDER LENGTH', 'pull MOMENT', 'pull MOMENT DEVICE' or, at the end, 'drain MOMENT'";

const BYTE_ORDER_MARK: &[u8] = b"\xef\xbb\xbf";

/// Explains why a line of a script, counted from 1, is no command.
pub fn explain_line(text: &[u8], line: u32) -> Explanation {
    let start = line_start(text, line);
    let (before, rest) = text.split_at(start.min(text.len()));
    explain_mistake(
        text,
        start,
        &mistake_in_line(line_of(rest), has_drain(before)),
    )
}

/// Explains why a record of a trace, counted from 1, is no sender and length. `None` if there are quotes up to its end, since a record may
/// go over several lines then.
pub fn explain_record(text: &[u8], record: u32) -> Option<Explanation> {
    let start = record_start(text, record);
    let (before, rest) = text.split_at(start.min(text.len()));
    let row = row_of(rest);
    if before.contains(&b'"') || row.contains(&b'"') {
        return None;
    }
    Some(explain_mistake(text, start, &mistake_in_record(row)))
}

/// Explains which command sends a packet of a sender that the tree doesn't have. `None` if none is found.
pub fn explain_sent(text: &[u8], sender: u16) -> Option<Explanation> {
    let mut start: usize = 0;
    for row in text.split(|byte| *byte == b'\n') {
        let command = word_from(row, 0);
        let word = word_from(row, end_of(command));
        if command.letters == b"send".as_slice() && is_sender(word, sender) {
            return Some(explain_mistake(text, start, &no_sender(word)));
        }
        start = start.saturating_add(row.len()).saturating_add(1);
    }
    None
}

/// Explains which record is of a sender that the tree doesn't have. `None` if none is found.
pub fn explain_recorded(text: &[u8], sender: u16) -> Option<Explanation> {
    let mut start: usize = 0;
    for row in text.split(|byte| *byte == b'\n') {
        let field = field_from(row, 0);
        if is_sender(field, sender) {
            return Some(explain_mistake(text, start, &no_sender(field)));
        }
        start = start.saturating_add(row.len()).saturating_add(1);
    }
    None
}

/// Whether a text has more records than a trace may have.
pub fn has_too_many_records(text: &[u8]) -> bool {
    record_start(text, MAX_RECORDS + 1) < text.len()
}

/// Explains a mistake in the line that begins at an offset of a text.
fn explain_mistake(text: &[u8], start: usize, mistake: &Mistake) -> Explanation {
    point_out(
        text,
        start.saturating_add(mistake.place),
        &mistake.wrong,
        &mistake.expected,
    )
}

/// Where a line of a text begins, counted from 1, or where the text ends if it has fewer lines.
fn line_start(text: &[u8], line: u32) -> usize {
    let mut left = line;
    for (place, byte) in text.iter().enumerate() {
        if left <= 1 {
            return place;
        }
        if *byte == b'\n' {
            left -= 1;
        }
    }
    text.len()
}

/// Where a record of a text begins, counted from 1, or where the text ends if it has fewer records. Empty lines and a byte order mark at
/// the front are skipped.
fn record_start(text: &[u8], record: u32) -> usize {
    let mark = if text.starts_with(BYTE_ORDER_MARK) {
        3
    } else {
        0
    };
    let (mut left, mut is_inside) = (record, false);
    for (place, byte) in text.iter().enumerate() {
        let is_skipped = place < mark || ends_row(*byte);
        if !is_skipped && !is_inside {
            if left <= 1 {
                return place;
            }
            left -= 1;
        }
        is_inside = !is_skipped;
    }
    text.len()
}

/// Whether a byte ends a line.
fn ends_row(byte: u8) -> bool {
    byte == b'\n' || byte == b'\r'
}

/// The first line of a text, without its end: a line feed, and the carriage return before it.
fn line_of(text: &[u8]) -> &[u8] {
    let Some(len) = text.iter().position(|byte| *byte == b'\n') else {
        return text;
    };
    match text.get(..len).unwrap_or(text) {
        [line @ .., b'\r'] => line,
        line => line,
    }
}

/// What stands at the front of a trace up to the end of its first record, if that has no quotes.
fn row_of(text: &[u8]) -> &[u8] {
    front(text, text.iter().position(|byte| ends_row(*byte)))
}

/// So many bytes at the front of a text, or all of it.
fn front(text: &[u8], len: Option<usize>) -> &[u8] {
    match len {
        Some(len) => text.get(..len).unwrap_or(text),
        None => text,
    }
}

/// The word that begins at a place of a line, or behind it after blanks. It is empty at the end of the line.
fn word_from(row: &[u8], place: usize) -> LineWord<'_> {
    let rest = row.get(place..).unwrap_or(&[]);
    let gap = front(rest, rest.iter().position(|byte| !is_blank(*byte))).len();
    let rest = rest.get(gap..).unwrap_or(&[]);
    LineWord {
        start: place.saturating_add(gap),
        letters: front(rest, rest.iter().position(|byte| is_blank(*byte))),
    }
}

/// Whether a byte separates words.
fn is_blank(byte: u8) -> bool {
    byte == b' ' || byte == b'\t'
}

/// Whether a line of a text drains.
fn has_drain(text: &[u8]) -> bool {
    text.split(|byte| *byte == b'\n')
        .any(|row| word_from(row, 0).letters == b"drain".as_slice())
}

/// What is wrong with a line of a script.
fn mistake_in_line(row: &[u8], is_drained: bool) -> Mistake {
    if let Some(place) = row.iter().position(|byte| *byte == b'\r') {
        return Mistake {
            place,
            wrong: Words::of("a carriage return stands without a line feed"),
            expected: Words::of("expected a line feed at the end of each line"),
        };
    }
    let command = word_from(row, 0);
    if is_drained {
        return at(
            command,
            Words::of("a drain ends a script"),
            Words::of("expected only blank lines after it"),
        );
    }
    match command.letters {
        b"send" => mistake_in_numbers(row, command, &[SENDER, LENGTH]),
        b"pull" => mistake_in_numbers(row, command, &[MOMENT, DEVICE]),
        b"drain" => mistake_in_numbers(row, command, &[MOMENT]),
        letters if letters.starts_with(b"#") || letters.starts_with(b"//") => {
            at(
                command,
                Words::of("a script has no comments"),
                Words::of(COMMANDS),
            )
        }
        letters if letters.starts_with(BYTE_ORDER_MARK) => {
            at(
                command,
                Words::of("a script has no byte order mark"),
                Words::of(COMMANDS),
            )
        }
        letters => at(
            command,
            Words::of("").and_quoted(letters).and(" isn't a command"),
            Words::of(COMMANDS),
        ),
    }
}

/// What is wrong with the numbers behind a command.
fn mistake_in_numbers(row: &[u8], command: LineWord<'_>, fields: &[Field]) -> Mistake {
    let mut last = command;
    for field in fields {
        let word = word_from(row, end_of(last));
        if word.letters.is_empty() && !field.is_optional {
            return at(
                word,
                Words::of("")
                    .and_quoted(command.letters)
                    .and(" lacks its ")
                    .and(field.name),
                range_of(*field),
            );
        }
        if word.letters.is_empty() {
            break;
        }
        if !is_in(word, *field) {
            return no_number(word, *field);
        }
        last = word;
    }
    let extra = word_from(row, end_of(last));
    if !extra.letters.is_empty() {
        return at(
            extra,
            Words::of("unexpected ").and_quoted(extra.letters),
            Words::of("expected the end of the line"),
        );
    }
    at(
        last,
        Words::of("the tree has no device ").and_quoted(last.letters),
        range_of(DEVICE),
    )
}

/// What is wrong with a record of a trace.
fn mistake_in_record(row: &[u8]) -> Mistake {
    let sender = field_from(row, 0);
    if !is_in(sender, SENDER) {
        return no_number(sender, SENDER);
    }
    let comma = end_of(sender);
    if comma >= row.len() {
        let end = LineWord {
            start: comma,
            letters: &[],
        };
        return at(
            end,
            Words::of("the record lacks its length"),
            range_of(LENGTH),
        );
    }
    let length = field_from(row, comma.saturating_add(1));
    if !is_in(length, LENGTH) {
        return no_number(length, LENGTH);
    }
    let end = LineWord {
        start: end_of(length),
        letters: &[],
    };
    at(
        end,
        Words::of("the record has more than two fields"),
        Words::of("expected the end of the line"),
    )
}

/// The field of a record that begins at a place of its line.
fn field_from(row: &[u8], place: usize) -> LineWord<'_> {
    let rest = row.get(place..).unwrap_or(&[]);
    LineWord {
        start: place,
        letters: front(rest, rest.iter().position(|byte| *byte == b',')),
    }
}

/// Where a word ends.
fn end_of(word: LineWord<'_>) -> usize {
    word.start.saturating_add(word.letters.len())
}

/// A mistake at a word.
fn at(word: LineWord<'_>, wrong: Words, expected: Words) -> Mistake {
    Mistake {
        place: word.start,
        wrong,
        expected,
    }
}

/// Whether a word is a number that a field may have. No field may have more than the last moment.
fn is_in(word: LineWord<'_>, field: Field) -> bool {
    number_in(word.letters, field.least, field.most.min(MAX_MOMENT)).is_some()
}

/// A word is not the number that stands there.
fn no_number(word: LineWord<'_>, field: Field) -> Mistake {
    at(
        word,
        Words::of("")
            .and_quoted(word.letters)
            .and(" isn't a ")
            .and(field.name),
        range_of(field),
    )
}

/// Whether a word is the number of a sender.
fn is_sender(word: LineWord<'_>, sender: u16) -> bool {
    number_in(word.letters, 0, MAX_SENDER) == Some(u64::from(sender))
}

/// A word is the number of a sender that the tree doesn't have.
fn no_sender(word: LineWord<'_>) -> Mistake {
    at(
        word,
        Words::of("the tree has no sender ").and_quoted(word.letters),
        Words::of("expected the number of a Sender of the tree"),
    )
}

/// What a field may have.
fn range_of(field: Field) -> Words {
    if field.is_optional {
        return Words::of("expected the number of a device, from 0 in order of declaration");
    }
    Words::of("expected a ")
        .and(field.name)
        .and(" from ")
        .and_number(field.least as usize)
        .and(" to ")
        .and_number(field.most as usize)
}
