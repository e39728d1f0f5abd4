//! Lines that are written many at a time.

ghost use Rattle.std.specs.Prelude.{◌≡◌, ◌+◌, ◌≤◌, ◌++◌, [], length, OnOk};
ghost use Rattle.clk_script.specs.declared.lines.TheConstants.{ROOM};
ghost use Rattle.clk_packet.specs.Bytes.{Wrote};
ghost use Rattle.clk_script.specs.inside.Lines.{PassesOn};

use clk_packet::{Fault, Sink, write_all};
use std::marker::Model;

/// How many bytes are held at most.
const ROOM: usize = 16_384;

/// Lines that are held until there are enough to be written at once. Doesn't allocate.
// A list of arrayvec sets all its room to zeros whenever it is emptied.
#[derive(Drop)]
pub struct LineBuffer {
    bytes: [u8; ROOM],
    len: usize,
}

impl Model for LineBuffer {
    ghost use Rattle.std.specs.Prelude.{ℕ, ◌≤◌, List, take, length};

    ghost Value = { List ℕ };

    ghost view = { λ lines. take lines.len lines.bytes };

    ghost invariant = { λ lines. lines.len ≤ length lines.bytes };
}

impl LineBuffer {
    /// Holds no line.
    pub fn new() -> LineBuffer
        ensures { result ≡ [] }
    {
        LineBuffer {
            bytes: [0; ROOM],
            len: 0,
        }
    }

    /// Adds a line. If there is no room for it, writes what is held, and then the line. Fault 20 if the sink fails; it has then taken a
    /// front of the two.
    #[inline(always)]
    pub fn add<W: Sink>(&mut self, line: &[u8], writer: &mut W) -> Result<(), Fault>
        ensures { PassesOn (W.Sink.taken writer.old) (W.Sink.taken writer.new)
            (W.Sink.failures writer.old) (W.Sink.failures writer.new) result self.old line.now self.new }
    {
        if line.len() <= ROOM - self.len {
            self.hold(line);
            return Ok(());
        }
        self.write(writer)?;
        write_all(writer, line)
    }

    /// Holds a line for which there is room.
    #[inline(always)]
    fn hold(&mut self, line: &[u8])
        requires { length self.old + length line.now ≤ ROOM }
        ensures { self.new ≡ self.old ++ line.now }
    {
        let end = self.len + line.len();
        self.bytes[self.len..end].copy_from_slice(line);
        self.len = end;
    }

    /// Writes what is held. Fault 20 if the sink fails; it has then taken a front of it.
    #[inline(never)]
    pub fn write<W: Sink>(&mut self, writer: &mut W) -> Result<(), Fault>
        ensures wrote { Wrote (W.Sink.taken writer.old) (W.Sink.taken writer.new)
            (W.Sink.failures writer.old) (W.Sink.failures writer.new) result self.old }
        ensures empty { OnOk result (self.new ≡ []) }
    {
        write_all(writer, &self.bytes[..self.len])?;
        self.len = 0;
        Ok(())
    }
}
