//! The record of what happens, written as it happens.

ghost use Rattle.std.specs.Prelude.{◌≡◌, ◌∷◌, [], ◌++◌, Option, List, ℕ, Some, None, true, false, OnOk, IfErr, IsErrOf, IsOkUnless};
ghost use Rattle.std.specs.Io.KnownBytes.{Appends};
ghost use Rattle.clk_packet.specs.declared.fault.Fault.TheVariants.{TooLarge, Write};
ghost use Rattle.clk_packet.specs.Bytes.{AppendsFront, write_failures};
ghost use Rattle.clk_script.specs.declared.script.Command.{Command};
ghost use Rattle.clk_script.specs.Record.{record_text, handed_in, HasRoom};
ghost use Rattle.clk_script.specs.Records.{Records};

use crate::held::HeldCommands;
use crate::limits::{MAX_LINES, MAX_MOMENT};
use crate::script::Command;
use crate::text::{COMMAND_ROOM, drain_line};
use clk_packet::{Fault, Sink};

/// Writes the record of a router: the script of the commands that were carried out, line by line.
///
/// Commands are held until there are 1,024 of them, and their lines are then written at once. `finish` writes those that are left. If the
/// sink fails, the record has ended: every later call returns fault 20 and writes nothing. No call allocates.
#[derive(Drop)]
pub struct ScriptWriter {
    held: HeldCommands,
    /// How many lines the record has.
    lines: u32,
    /// Whether the sink has failed. It has a front of the record, and nothing more is written.
    ended: bool,
}

impl ScriptWriter {
    /// A record without a line.
    pub fn new() -> ScriptWriter
        ensures { (start : Option (List ℕ)) → Records start start [] result }
    {
        ScriptWriter {
            held: HeldCommands::new(),
            lines: 0,
            ended: false,
        }
    }

    /// Adds the line of a command.
    ///
    /// # Errors
    ///
    /// Fault 18 if the record has as many lines as a script may have, or if the moment of a pull is 2^40 or later. Nothing changes then.
    /// Fault 20 if the sink fails. It has then taken a front of the record, which has ended. Fault 20 also if the record had ended before;
    /// nothing is written then.
    pub fn record<W: Sink>(&mut self, command: Command, sink: &mut W) -> Result<(), Fault>
        ensures records { OnOk result ((start : Option (List ℕ)) (commands : List Command) → Records start (W.Sink.taken sink.old) commands self.old
            → Records start (W.Sink.taken sink.new) (commands ++ command ∷ []) self.new) }
        ensures front { IsErrOf result Write → (start : Option (List ℕ)) (commands : List Command) → Records start (W.Sink.taken sink.old) commands self.old
            → AppendsFront start (W.Sink.taken sink.new) (record_text (commands ++ command ∷ []) None) }
        ensures too_large { IsErrOf result TooLarge → (self.new ≡ self.old) × (sink.new ≡ sink.old) }
        ensures has_room { HasRoom self.old.lines (handed_in command) → IsOkUnless result Write }
        ensures has_none { self.old.ended ≡ false → (HasRoom self.old.lines (handed_in command) → ⊥) → IsErrOf result TooLarge }
        ensures failures { self.old.ended ≡ false → W.Sink.failures sink.new ≡ write_failures result (W.Sink.failures sink.old) }
        ensures ended { IsErrOf result Write → self.new.ended ≡ true }
        ensures refuses { self.old.ended ≡ true → IsErrOf result Write × (self.new ≡ self.old) × (sink.new ≡ sink.old) }
    {
        if self.ended {
            return Err(Fault::Write);
        }
        if !self.has_room(handed_in(command)) {
            return Err(Fault::TooLarge);
        }
        if let Err(fault) = self.held.add(command, sink) {
            self.ended = true;
            return Err(fault);
        }
        self.lines += 1;
        Ok(())
    }

    /// Whether the record may go on with a line of this moment, in ticks, or of no moment.
    fn has_room(&self, moment: Option<u64>) -> bool
        ensures yes { result ≡ true → HasRoom self.now.lines moment }
        ensures no { result ≡ false → HasRoom self.now.lines moment → ⊥ }
    {
        let is_early = match moment {
            Some(moment) => moment <= MAX_MOMENT,
            None => true,
        };
        is_early && self.lines < MAX_LINES
    }

    /// Whether the record has a line left for a drain from this moment on, in ticks, and the moment is below 2^40. `finish_by_drain` then
    /// returns no fault 18.
    pub fn can_drain(&self, moment: u64) -> bool
        ensures yes { result ≡ true → HasRoom self.now.lines (Some moment) }
        ensures no { result ≡ false → HasRoom self.now.lines (Some moment) → ⊥ }
    {
        self.has_room(Some(moment))
    }

    /// Ends the record without a drain, and writes what is held.
    ///
    /// # Errors
    ///
    /// Fault 20 if the sink fails. It has then taken a front of the record. Fault 20 also if the record had ended before; nothing is
    /// written then.
    pub fn finish<W: Sink>(self, sink: &mut W) -> Result<(), Fault>
        ensures whole { OnOk result ((start : Option (List ℕ)) (commands : List Command) → Records start (W.Sink.taken sink.old) commands self
            → Appends start (W.Sink.taken sink.new) (record_text commands None)) }
        ensures front { IsErrOf result Write → (start : Option (List ℕ)) (commands : List Command) → Records start (W.Sink.taken sink.old) commands self
            → AppendsFront start (W.Sink.taken sink.new) (record_text commands None) }
        ensures fault { IsOkUnless result Write }
        ensures failures { self.ended ≡ false → W.Sink.failures sink.new ≡ write_failures result (W.Sink.failures sink.old) }
        ensures refuses { self.ended ≡ true → IsErrOf result Write × (sink.new ≡ sink.old) }
    {
        if self.ended {
            return Err(Fault::Write);
        }
        let mut held = self.held;
        held.write(sink)
    }

    /// Ends the record with the drain of all devices from this moment on, in ticks: adds its line, and writes what is held.
    ///
    /// # Errors
    ///
    /// Fault 18 as for `record`. Nothing is written then, and the lines that are held are lost: ask `can_drain` before, and if it returns
    /// false call `finish`. Fault 20 if the sink fails. It has then taken a front of the record. Fault 20 also if the record had ended
    /// before; nothing is written then.
    pub fn finish_by_drain<W: Sink>(self, moment: u64, sink: &mut W) -> Result<(), Fault>
        ensures whole { OnOk result ((start : Option (List ℕ)) (commands : List Command) → Records start (W.Sink.taken sink.old) commands self
            → Appends start (W.Sink.taken sink.new) (record_text commands (Some moment))) }
        ensures front { IsErrOf result Write → (start : Option (List ℕ)) (commands : List Command) → Records start (W.Sink.taken sink.old) commands self
            → AppendsFront start (W.Sink.taken sink.new) (record_text commands (Some moment)) }
        ensures too_large { IsErrOf result TooLarge → sink.new ≡ sink.old }
        ensures has_room { HasRoom self.lines (Some moment) → IsOkUnless result Write }
        ensures has_none { self.ended ≡ false → (HasRoom self.lines (Some moment) → ⊥) → IsErrOf result TooLarge }
        ensures failures { self.ended ≡ false → W.Sink.failures sink.new ≡ write_failures result (W.Sink.failures sink.old) }
        ensures refuses { self.ended ≡ true → IsErrOf result Write × (sink.new ≡ sink.old) }
    {
        if self.ended {
            return Err(Fault::Write);
        }
        if !self.can_drain(moment) {
            return Err(Fault::TooLarge);
        }
        let mut held = self.held;
        let mut room = [0; COMMAND_ROOM];
        held.write_with(drain_line(&mut room, moment), sink)
    }
}

/// The moment that a command hands in, in ticks.
fn handed_in(command: Command) -> Option<u64>
    ensures { result ≡ handed_in command }
{
    match command {
        Command::Send { .. } => None,
        Command::Pull { moment, .. } => Some(moment),
    }
}
