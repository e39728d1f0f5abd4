//! Lines, fields and numbers in the bytes of a script.

ghost use Rattle.std.specs.Prelude.{◌≡◌, ℕ, ◌<◌, ◌≤◌, ◌==◌, ◌^◌, ◌∷◌, length, drop, not, None, Some, MatchOption};
ghost use Rattle.std.specs.List.{position_or_len, prefix_len, after_first};
ghost use Rattle.std.specs.Str.Lines.{lines, strip_carriage_return};
ghost use Rattle.clk_packet.specs.Numbers.{number_in};
ghost use Rattle.clk_script.specs.Script.{is_blank, fields};
ghost use Rattle.clk_script.specs.inside.Fields.{field_at};

use memchr::memchr;

/// Whether a byte separates fields.
fn is_blank(byte: u8) -> bool
    ensures { result ≡ is_blank byte }
{
    byte == b' ' || byte == b'\t'
}

/// How many blanks a text begins with.
fn blanks_len(text: &[u8]) -> usize
    ensures blanks { result ≡ prefix_len is_blank text.now }
    ensures within { result ≤ length text.now }
{
    text.iter().take_while(|byte| is_blank(**byte)).count()
}

/// How many bytes that are no blanks a text begins with.
fn field_len(text: &[u8]) -> usize
    ensures place { result ≡ position_or_len is_blank text.now }
    ensures within { result ≤ length text.now }
{
    text.iter().take_while(|byte| !is_blank(**byte)).count()
}

/// The first field of a text, and what follows it. The field is empty if the text has none.
pub fn first_field(text: &[u8]) -> (&[u8], &[u8])
    ensures field { result.0.now ≡ field_at (fields text.now) 0 }
    ensures rest { fields result.1.now ≡ drop 1 (fields text.now) }
{
    let (_, text) = text.split_at(blanks_len(text));
    text.split_at(field_len(text))
}

/// Where the first line of a text ends: at its line feed, or at the end of the text.
fn line_len(text: &[u8]) -> usize
    ensures place { result ≡ position_or_len (λ byte. byte == 10) text.now }
    ensures within { result ≤ length text.now }
{
    match memchr(b'\n', text) {
        Some(place) => place,
        None => text.len(),
    }
}

/// A line without the carriage return at its end, if it has one.
fn without_return(line: &[u8]) -> &[u8]
    ensures { result.now ≡ strip_carriage_return line.now }
{
    match line {
        [line @ .., b'\r'] => line,
        _ => line,
    }
}

/// The first line of a text that isn't empty, without its end, and what follows it.
pub fn first_line(text: &[u8]) -> (&[u8], &[u8])
    requires { 0 < length text.now }
    ensures line { lines text.now ≡ result.0.now ∷ lines result.1.now }
    ensures rest { length result.1.now < length text.now }
    ensures after { result.1.now ≡ after_first (λ byte. byte == 10) text.now }
{
    let (line, rest) = text.split_at(line_len(text));
    match rest {
        [] => (line, rest),
        [_, rest @ ..] => (without_return(line), rest),
    }
}

/// The number in the first field of a text, and what follows the field. `None` unless that field is a number from `least` to `most`.
pub fn first_number(text: &[u8], least: u64, most: u64) -> Option<(u64, &[u8])>
    requires { most < 2 ^ 60 }
    ensures { MatchOption result (number_in least most (field_at (fields text.now) 0) ≡ None)
        (λ r. (number_in least most (field_at (fields text.now) 0) ≡ Some r.0) × (fields r.1.now ≡ drop 1 (fields text.now))) }
{
    let (_, field) = text.split_at(blanks_len(text));
    if field.is_empty() {
        return None;
    }
    let mut number = 0;
    let mut len = 0;
    for byte in field {
        if !byte.is_ascii_digit() {
            if !is_blank(*byte) {
                return None;
            }
            break;
        }
        number = number * 10 + u64::from(*byte - b'0');
        if number > most {
            return None;
        }
        len += 1;
    }
    if number < least {
        return None;
    }
    let (_, rest) = field.split_at(len);
    Some((number, rest))
}
