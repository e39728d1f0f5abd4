//! Reading a script, as its bytes come.

ghost use Rattle.std.specs.Prelude.{◌≡◌, ◌≤◌, ◌+◌, ◌++◌, ◌∷◌, [], false, None, Some, List, ℕ, MatchResult, OnOk, IsOkUnless};
ghost use Rattle.std.specs.List.{AllByRecursion};
ghost use Rattle.clk_packet.specs.Bytes.{Takes, read_failures};
ghost use Rattle.clk_packet.specs.Lists.{AreRising};
ghost use Rattle.clk_script.specs.Script.{lines_of, command_fault, fault_at};
ghost use Rattle.clk_script.specs.declared.limits.TheConstants.{MAX_LINES, MAX_SCRIPT_BYTES};
ghost use Rattle.clk_script.specs.inside.ScriptRouter.{named_by, IsReadable, IsReadableLine};
ghost use Rattle.clk_script.specs.inside.Rows.{command_asked, asked_by, asked_in, rows_of, IsToDo};
ghost use Rattle.clk_script.specs.inside.Reading.{AreRead, ReadsOn, HasCome, EndsAs, IsScriptOf, IsNotRead};
ghost use Rattle.clk_script.specs.declared.script.ScriptLine.{ScriptLine};

use crate::limits::{MAX_LINES, MAX_SCRIPT_BYTES};
use crate::moment::Moment;
use crate::rows::{Fate, ScriptRow};
use crate::script::{Command, ScriptLine};
use clk_packet::{Fault, Packet, Source};
use clk_router::place_of;
use memchr::{memchr, memrchr};
use std::alloc::Global;

/// How many bytes are read at a time.
const CHUNK: usize = 65_536;

/// A script that was read.
#[derive(Drop)]
pub struct Script {
    /// Its commands, in order.
    pub rows: Vec<ScriptRow>,
    /// The moment of its drain in ticks, if it has one.
    pub closing: Option<u64>,
}

/// A script that is being read.
#[derive(Drop)]
pub struct Reading {
    /// What its lines so far hold.
    pub script: Script,
    /// How many lines were read.
    pub lines: u32,
    /// The fault of the first line that has one.
    pub fault: Option<Fault>,
}

/// Reads a script to its end. It may name senders with these numbers, and the first `devices` devices. Holds no more of it than its longest
/// line and a chunk.
///
/// # Errors
///
/// Fault 1 if an allocation fails. Fault 19 if the reader fails. Fault 18 for more than 33,554,432 bytes. Otherwise the fault of the first
/// line that has one.
pub fn read_script<R: Source>(
    alloc: Global,
    reader: &mut R,
    numbers: &[u16],
    devices: usize,
) -> Result<Script, Fault>
    requires rising { AreRising numbers.now }
    ensures read { MatchResult result (IsScriptOf (named_by numbers.now devices) (R.Source.remaining reader.old))
        (IsNotRead (named_by numbers.now devices) (R.Source.remaining reader.old)) }
    ensures failures { R.Source.failures reader.new ≡ read_failures result (R.Source.failures reader.old) }
    ensures limit { Takes (MAX_SCRIPT_BYTES + 1) (R.Source.remaining reader.old) (R.Source.remaining reader.new) }
{
    let mut reading = Reading::new(alloc);
    let mut held = Vec::new(alloc);
    let mut size = 0;
    let mut chunk = [0; CHUNK];
    while size <= MAX_SCRIPT_BYTES {
        let room = (MAX_SCRIPT_BYTES + 1 - size).min(CHUNK);
        let Ok(count) = reader.read(&mut chunk[..room]) else {
            return Err(Fault::Read);
        };
        if count == 0 {
            return reading.end(numbers, devices, &held);
        }
        size += count;
        reading.go_on(numbers, devices, &mut held, &chunk[..count])?;
    }
    Err(Fault::TooLarge)
}

impl Reading {
    ghost use Rattle.clk_script.specs.Script.{Names};

    /// A script before its first line.
    fn new(alloc: Global) -> Reading
        ensures { (names : Names) → HasCome names [] result [] }
    {
        Reading {
            script: Script {
                rows: Vec::new(alloc),
                closing: None,
            },
            lines: 0,
            fault: None,
        }
    }

    /// Reads the whole lines of what is held and a piece that follows it, and holds the rest. Fault 1 if an allocation fails.
    fn go_on(
        &mut self,
        numbers: &[u16],
        devices: usize,
        held: &mut Vec<u8>,
        piece: &[u8],
    ) -> Result<(), Fault>
        requires rising { AreRising numbers.now }
        requires come { (text : List ℕ) × HasCome (named_by numbers.now devices) text self.old held.old.items }
        ensures come { OnOk result ((text : List ℕ) → HasCome (named_by numbers.now devices) text self.old held.old.items
            → HasCome (named_by numbers.now devices) (text ++ piece.now) self.new held.new.items) }
        ensures fault { IsOkUnless result Fault.Memory }
    {
        // Once a line has a fault, nothing more is read.
        if self.fault.is_some() {
            return Ok(());
        }
        let Some(first) = memchr(b'\n', piece) else {
            held.extend_from_slice(piece)?;
            return Ok(());
        };
        let (line, rest) = piece.split_at(first + 1);
        held.extend_from_slice(line)?;
        self.read_lines(numbers, devices, held)?;
        held.clear();
        self.go_on_from_line(numbers, devices, held, rest)?;
        Ok(())
    }

    /// Reads the whole lines of a piece that begins with a line, in place, and holds the rest. Fault 1 if an allocation fails.
    fn go_on_from_line(
        &mut self,
        numbers: &[u16],
        devices: usize,
        held: &mut Vec<u8>,
        piece: &[u8],
    ) -> Result<(), Fault>
        requires rising { AreRising numbers.now }
        requires none { held.old.items ≡ [] }
        requires come { (text : List ℕ) × HasCome (named_by numbers.now devices) text self.old [] }
        ensures come { OnOk result ((text : List ℕ) → HasCome (named_by numbers.now devices) text self.old []
            → HasCome (named_by numbers.now devices) (text ++ piece.now) self.new held.new.items) }
        ensures fault { IsOkUnless result Fault.Memory }
    {
        if self.fault.is_some() {
            return Ok(());
        }
        let Some(last) = memrchr(b'\n', piece) else {
            held.extend_from_slice(piece)?;
            return Ok(());
        };
        let (whole, rest) = piece.split_at(last + 1);
        self.read_lines(numbers, devices, whole)?;
        held.extend_from_slice(rest)?;
        Ok(())
    }

    /// Returns the script, after this text as its last line, if it isn't empty.
    ///
    /// # Errors
    ///
    /// The fault of the first line that has one. Fault 1 if an allocation fails.
    fn end(self, numbers: &[u16], devices: usize, last: &[u8]) -> Result<Script, Fault>
        requires rising { AreRising numbers.now }
        requires come { (text : List ℕ) × HasCome (named_by numbers.now devices) text self last.now }
        ensures { (text : List ℕ) → HasCome (named_by numbers.now devices) text self last.now
            → EndsAs (named_by numbers.now devices) text result }
    {
        if let Some(fault) = self.fault {
            return Err(fault);
        }
        let mut reading = self;
        reading.read_lines(numbers, devices, last)?;
        match reading.fault {
            Some(fault) => Err(fault),
            None => Ok(reading.script),
        }
    }

    /// Reads the lines of a text, up to the first that has a fault. Fault 1 if an allocation fails.
    fn read_lines(&mut self, numbers: &[u16], devices: usize, text: &[u8]) -> Result<(), Fault>
        requires rising { AreRising numbers.now }
        requires none { self.old.fault ≡ None }
        requires read { (lines : List ScriptLine) × AreRead (named_by numbers.now devices) lines self.old }
        ensures read { OnOk result (ReadsOn (named_by numbers.now devices) self.old self.new (lines_of text.now)) }
        ensures fault { IsOkUnless result Fault.Memory }
    {
        let mut rest = text;
        while !rest.is_empty() {
            let (line, after) = ScriptLine::next(rest);
            self.read_line(numbers, devices, line)?;
            if self.fault.is_some() {
                return Ok(());
            }
            rest = after;
        }
        Ok(())
    }

    /// Reads the next line. Fault 1 if an allocation fails.
    #[inline(always)]
    fn read_line(&mut self, numbers: &[u16], devices: usize, line: ScriptLine) -> Result<(), Fault>
        requires rising { AreRising numbers.now }
        requires readable { IsReadableLine line }
        requires none { self.old.fault ≡ None }
        requires read { (lines : List ScriptLine) × AreRead (named_by numbers.now devices) lines self.old }
        ensures read { OnOk result (ReadsOn (named_by numbers.now devices) self.old self.new (line ∷ [])) }
        ensures fault { IsOkUnless result Fault.Memory }
    {
        self.lines += 1;
        match row_in(
            numbers,
            devices,
            self.lines,
            self.script.closing.is_some(),
            line,
        ) {
            Ok(Some(row)) => {
                self.script.rows.push(row)?;
                Ok(())
            }
            Ok(None) => {
                if let ScriptLine::Drain { moment } = line {
                    self.script.closing = Some(moment);
                }
                Ok(())
            }
            Err(fault) => {
                self.fault = Some(fault);
                Ok(())
            }
        }
    }
}

/// The row of the line with this number, counted from 1, or `None` if the line holds no command. `drained` says whether a drain came
/// before.
///
/// # Errors
///
/// Fault 18 if the line is not one of the first 1,000,000. Fault 16 if it is no line of a script, names an unknown device, or follows a
/// drain and isn't blank. Fault 15 if it names an unknown sender.
#[inline(always)]
fn row_in(
    numbers: &[u16],
    devices: usize,
    number: u32,
    drained: bool,
    line: ScriptLine,
) -> Result<Option<ScriptRow>, Fault>
    requires rising { AreRising numbers.now }
    requires readable { IsReadableLine line }
    ensures { MatchResult result
        (λ row. (fault_at (named_by numbers.now devices) drained number line ≡ None) × (asked_by (rows_of row) ≡ asked_in line)
        × AllByRecursion (IsToDo (named_by numbers.now devices)) (rows_of row) × (number ≤ MAX_LINES))
        (λ fault. fault_at (named_by numbers.now devices) drained number line ≡ Some fault) }
{
    if number > MAX_LINES {
        return Err(Fault::TooLarge);
    }
    match line {
        ScriptLine::Blank => Ok(None),
        ScriptLine::Malformed => Err(Fault::BadScript { line: number }),
        _ if drained => Err(Fault::BadScript { line: number }),
        ScriptLine::Drain { .. } => Ok(None),
        ScriptLine::Command(command) => Ok(Some(row_asked(numbers, devices, number, command)?)),
    }
}

/// The row of the command in a line, not carried out yet. Fault 15 if its sender has none of these numbers, and fault 16 if its device is
/// none of the first `devices`.
fn row_asked(
    numbers: &[u16],
    devices: usize,
    number: u32,
    command: Command,
) -> Result<ScriptRow, Fault>
    requires rising { AreRising numbers.now }
    requires readable { IsReadable command }
    ensures { MatchResult result
        (λ row. (command_fault (named_by numbers.now devices) number command ≡ None)
        × (command_asked row ≡ command) × IsToDo (named_by numbers.now devices) row)
        (λ fault. command_fault (named_by numbers.now devices) number command ≡ Some fault) }
{
    match command {
        Command::Pull { device, moment } if usize::from(device) < devices => Ok(ScriptRow::Pull {
            gave: false,
            device,
            moment: Moment::at(moment),
        }),
        Command::Pull { .. } => Err(Fault::BadScript { line: number }),
        Command::Send { sender, length } => match place_of(numbers, sender) {
            Some(place) => Ok(ScriptRow::Send {
                fate: Fate::Refused,
                place,
                packet: Packet {
                    number: 0,
                    sender,
                    length,
                },
            }),
            None => Err(Fault::UnknownSender { sender }),
        },
    }
}
