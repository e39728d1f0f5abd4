//! The lines of a script.

use crate::fields::{first_field, first_line, first_number};
use crate::limits::{MAX_DEVICE, MAX_MOMENT};
use clk_packet::{MAX_LENGTH, MAX_SENDER, number_before};

/// A command in a line of a script.
#[derive(Clone, Copy, Debug, PartialEq, Eq)]
pub enum Command {
    /// The sender offers its next packet, of this length in bytes, to its queue.
    Send { sender: u16, length: u16 },
    /// One pull of a device, at this moment in ticks.
    Pull { device: u16, moment: u64 },
}

/// What a line of a script says.
#[derive(Clone, Copy, Debug, PartialEq, Eq)]
pub enum ScriptLine {
    /// It has no fields.
    Blank,
    /// It isn't a line of a script.
    Malformed,
    Command(Command),
    /// Drains all devices, from this moment on in ticks, and then reports. Only blank lines may follow.
    Drain { moment: u64 },
}

impl ScriptLine {
    ghost use Rattle.std.specs.Prelude.{◌≡◌, ◌<◌, ◌==◌, ◌∷◌, ◌++◌, codes, length, IfSome};
    ghost use Rattle.std.specs.List.{after_first};
    ghost use Rattle.clk_script.specs.Script.{fields, line_of, lines_of, line_of_fields, only_moment};

    /// Reads the first line of a text that isn't empty. Returns it, and the text that follows its line feed.
    #[inline(always)]
    pub fn next(text: &[u8]) -> (ScriptLine, &[u8])
        requires { 0 < length text.now }
        ensures line { lines_of text.now ≡ result.0 ∷ lines_of result.1.now }
        ensures rest { length result.1.now < length text.now }
        ensures after { result.1.now ≡ after_first (λ byte. byte == 10) text.now }
    {
        // Most lines are plain: one space between fields, and a line feed right after the last field. These are read number by number.
        if let [b'p', b'u', b'l', b'l', b' ', rest @ ..] = text {
            if let Some((line, rest)) = ScriptLine::plain_pull(rest) {
                return (line, rest);
            }
        }
        if let [b's', b'e', b'n', b'd', b' ', rest @ ..] = text {
            if let Some((line, rest)) = ScriptLine::plain_send(rest) {
                return (line, rest);
            }
        }
        let (line, rest) = first_line(text);
        (ScriptLine::read(line), rest)
    }

    /// Reads the rest of the line `pull M`, after its word and a space. Returns the line, and the text that follows it; or `None` if
    /// anything else than a line feed follows the number.
    #[inline(always)]
    fn plain_pull(text: &[u8]) -> Option<(ScriptLine, &[u8])>
        ensures { IfSome result (λ r. (lines_of (codes "pull " ++ text.now) ≡ r.0 ∷ lines_of r.1.now) × (length r.1.now < length text.now)
            × (r.1.now ≡ after_first (λ byte. byte == 10) (codes "pull " ++ text.now))) }
    {
        let (moment, rest) = number_before(text, b'\n', 0, MAX_MOMENT)?;
        Some((
            ScriptLine::Command(Command::Pull { device: 0, moment }),
            rest,
        ))
    }

    /// Reads the rest of the line `send S L`, after its word and a space. Returns the line, and the text that follows it; or `None` if
    /// anything else than one space and a line feed follows the numbers.
    #[inline(always)]
    fn plain_send(text: &[u8]) -> Option<(ScriptLine, &[u8])>
        ensures { IfSome result (λ r. (lines_of (codes "send " ++ text.now) ≡ r.0 ∷ lines_of r.1.now) × (length r.1.now < length text.now)
            × (r.1.now ≡ after_first (λ byte. byte == 10) (codes "send " ++ text.now))) }
    {
        let (sender, rest) = number_before(text, b' ', 0, MAX_SENDER)?;
        let (length, rest) = number_before(rest, b'\n', 1, MAX_LENGTH)?;
        let line = ScriptLine::Command(Command::Send {
            sender: sender as u16,
            length: length as u16,
        });
        Some((line, rest))
    }

    /// Reads a line, without its end.
    fn read(text: &[u8]) -> ScriptLine
        ensures { result ≡ line_of text.now }
    {
        let (word, rest) = first_field(text);
        if word.is_empty() {
            return ScriptLine::Blank;
        }
        if word == b"pull".as_slice() {
            return ScriptLine::pull(rest);
        }
        if word == b"send".as_slice() {
            return ScriptLine::send(rest);
        }
        if word == b"drain".as_slice() {
            return ScriptLine::drain(rest);
        }
        ScriptLine::Malformed
    }

    /// Reads the rest of the line `pull M` or `pull M D`, after its word.
    fn pull(text: &[u8]) -> ScriptLine
        ensures { result ≡ line_of_fields (codes "pull" ∷ fields text.now) }
    {
        let Some((moment, rest)) = first_number(text, 0, MAX_MOMENT) else {
            return ScriptLine::Malformed;
        };
        let (device, _) = first_field(rest);
        if device.is_empty() {
            return ScriptLine::Command(Command::Pull { device: 0, moment });
        }
        let Some((device, rest)) = first_number(rest, 0, MAX_DEVICE) else {
            return ScriptLine::Malformed;
        };
        let (more, _) = first_field(rest);
        if !more.is_empty() {
            return ScriptLine::Malformed;
        }
        ScriptLine::Command(Command::Pull {
            device: device as u16,
            moment,
        })
    }

    /// Reads the rest of the line `drain M`, after its word.
    fn drain(text: &[u8]) -> ScriptLine
        ensures { result ≡ line_of_fields (codes "drain" ∷ fields text.now) }
    {
        match ScriptLine::only_moment(text) {
            Some(moment) => ScriptLine::Drain { moment },
            None => ScriptLine::Malformed,
        }
    }

    /// The moment that is the only field of a text, if it is one.
    fn only_moment(text: &[u8]) -> Option<u64>
        ensures { result ≡ only_moment (fields text.now) }
    {
        let (moment, rest) = first_number(text, 0, MAX_MOMENT)?;
        let (more, _) = first_field(rest);
        if more.is_empty() { Some(moment) } else { None }
    }

    /// Reads the rest of the line `send S L`, after its word.
    fn send(text: &[u8]) -> ScriptLine
        ensures { result ≡ line_of_fields (codes "send" ∷ fields text.now) }
    {
        let Some((sender, rest)) = first_number(text, 0, MAX_SENDER) else {
            return ScriptLine::Malformed;
        };
        let Some((length, rest)) = first_number(rest, 1, MAX_LENGTH) else {
            return ScriptLine::Malformed;
        };
        let (more, _) = first_field(rest);
        if !more.is_empty() {
            return ScriptLine::Malformed;
        }
        ScriptLine::Command(Command::Send {
            sender: sender as u16,
            length: length as u16,
        })
    }
}
