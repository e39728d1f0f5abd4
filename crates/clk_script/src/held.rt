//! Commands that are held until their lines are written.

ghost use Rattle.std.specs.Prelude.{◌≡◌, ◌≤◌, ◌++◌, [], drop, length};
ghost use Rattle.std.specs.List.{flat_map};
ghost use Rattle.clk_script.specs.declared.held.TheConstants.{MOST, ROOM};
ghost use Rattle.clk_packet.specs.Bytes.{Wrote};
ghost use Rattle.clk_script.specs.Record.{command_text};
ghost use Rattle.clk_script.specs.inside.Lines.{PassesOn};

use crate::script::Command;
use crate::text::{COMMAND_ROOM, put_command};
use clk_packet::{Fault, Sink, write_all};
use std::marker::Model;

/// How many commands are held at most.
const MOST: usize = 1024;

/// How many bytes their lines have at most.
const ROOM: usize = MOST * COMMAND_ROOM;

/// Commands that are held until there are enough to write their lines at once. Contracts see the lines. Doesn't allocate.
#[derive(Drop)]
pub struct HeldCommands {
    commands: [Command; MOST],
    len: usize,
    // Room for the lines, which is filled from its end.
    room: [u8; ROOM],
}

impl Model for HeldCommands {
    ghost use Rattle.std.specs.Prelude.{ℕ, ◌≤◌, List, take, length};
    ghost use Rattle.std.specs.List.{flat_map};
    ghost use Rattle.clk_script.specs.Record.{command_text};

    ghost Value = { List ℕ };

    ghost view = { λ held. flat_map command_text (take held.len held.commands) };

    ghost invariant = { λ held. held.len ≤ length held.commands };
}

impl HeldCommands {
    /// Holds no command.
    pub fn new() -> HeldCommands
        ensures { result ≡ [] }
    {
        HeldCommands {
            commands: [Command::Send {
                sender: 0,
                length: 0,
            }; MOST],
            len: 0,
            room: [0; ROOM],
        }
    }

    /// Adds a command. If no more can be held, the lines of those that are held are written first. Fault 20 if the sink fails, which has
    /// then taken a front of these lines.
    #[inline(always)]
    pub fn add<W: Sink>(&mut self, command: Command, writer: &mut W) -> Result<(), Fault>
        ensures { PassesOn (W.Sink.taken writer.old) (W.Sink.taken writer.new)
            (W.Sink.failures writer.old) (W.Sink.failures writer.new) result self.old (command_text command) self.new }
    {
        if self.len < MOST {
            self.commands[self.len] = command;
            self.len += 1;
            return Ok(());
        }
        self.write(writer)?;
        self.commands[0] = command;
        self.len = 1;
        Ok(())
    }

    /// Writes the lines of what is held, which are held still. Fault 20 if the sink fails; it has then taken a front of them.
    #[inline(never)]
    pub fn write<W: Sink>(&mut self, writer: &mut W) -> Result<(), Fault>
        ensures wrote { Wrote (W.Sink.taken writer.old) (W.Sink.taken writer.new)
            (W.Sink.failures writer.old) (W.Sink.failures writer.new) result self.old }
        ensures unchanged { self.new ≡ self.old }
    {
        let start = put_lines(&mut self.room, &self.commands[..self.len]);
        write_all(writer, &self.room[start..])
    }

    /// Writes the lines of what is held, and then this line. Fault 20 if the sink fails; it has then taken a front of them.
    pub fn write_with<W: Sink>(&mut self, line: &[u8], writer: &mut W) -> Result<(), Fault>
        ensures { Wrote (W.Sink.taken writer.old) (W.Sink.taken writer.new)
            (W.Sink.failures writer.old) (W.Sink.failures writer.new) result (self.old ++ line.now) }
    {
        self.write(writer)?;
        write_all(writer, line)
    }
}

/// Puts the lines of these commands at the end of the room, from the last to the first, so that none is copied. Returns where they start.
fn put_lines(room: &mut [u8; ROOM], commands: &[Command]) -> usize
    requires few { length commands.now ≤ MOST }
    ensures within { result ≤ ROOM }
    ensures lines { drop result room.new ≡ flat_map command_text commands.now }
{
    let mut start = ROOM;
    let mut left = commands.len();
    while left > 0 {
        left -= 1;
        start = put_command(room, commands[left], start);
    }
    start
}
