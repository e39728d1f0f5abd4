//! The record of a run, which ends at the first fault of its sink.

use clk_packet::{Fault, Sink};
use clk_script::{Command, ScriptWriter, records_grow};
use std::marker::Model;

/// The record of a run as it goes on, and the sink that it is written to.
#[derive(Drop)]
pub struct Recording<R: Sink + Drop> {
    pub writer: ScriptWriter,
    pub state: RecordState,
    pub sink: R,
}

/// How far a record has come.
#[derive(Clone, Copy)]
pub enum RecordState {
    /// No record is kept.
    Off,
    /// Every command so far is recorded.
    Going,
    /// The sink failed. It has a front of the record.
    Failed,
    /// The record has as many lines as a script may have.
    Full,
}

impl<R: Sink + Drop> Model for Recording<R> {
    ghost use Rattle.clk_live_run.specs.inside.Recording.{RecordAt};

    ghost Value = { RecordAt };

    ghost view = { λ r. record { sink = record { taken = R.Sink.taken r.sink; failures = R.Sink.failures r.sink }; state = r.state; writer = r.writer } };
}

impl<R: Sink + Drop> Recording<R> {
    ghost use Rattle.std.specs.Prelude.{◌≡◌, ◌≤◌, ◌++◌, ◌∷◌, [], List, IfSome};
    ghost use Rattle.clk_script.specs.declared.script.Command.{Command};
    ghost use Rattle.clk_script.specs.Record.{handed_in};
    ghost use Rattle.clk_script.specs.declared.limits.TheConstants.{MAX_MOMENT};
    ghost use Rattle.clk_live_run.specs.inside.Recording.{SinkAt, IsRecordOf, IsEnded, LeadsOn};

    /// A record without a line, or none if the run is not to be recorded.
    pub fn new(recording: bool, sink: R) -> Recording<R>
        ensures begun { IsRecordOf recording (record { taken = R.Sink.taken sink; failures = R.Sink.failures sink }) result [] }
    {
        let state = if recording {
            RecordState::Going
        } else {
            RecordState::Off
        };
        Recording {
            writer: ScriptWriter::new(),
            state,
            sink,
        }
    }

    /// Adds the line of a command, unless the record has ended.
    #[inline(always)]
    pub fn note(&mut self, command: Command)
        requires early { IfSome (handed_in command) (λ moment. moment ≤ MAX_MOMENT) }
        ensures noted { (commands : List Command) → LeadsOn self.old self.new commands (commands ++ command ∷ []) }
    {
        // A record grows line by line, by this law, which does nothing.
        records_grow();
        let RecordState::Going = self.state else {
            return;
        };
        match self.writer.record(command, &mut self.sink) {
            Ok(()) => {}
            Err(Fault::Write) => self.state = RecordState::Failed,
            Err(_) => self.state = RecordState::Full,
        }
    }

    /// Ends the record with the drain from moment 0 on. Returns the sink, and whether it failed.
    pub fn finish(self) -> (R, bool)
        ensures ended { (recording : _) (start : SinkAt) (commands : List Command) → IsRecordOf recording start self commands → IsEnded recording result.1 start (record { taken = R.Sink.taken result.0; failures = R.Sink.failures result.0 }) commands }
    {
        // A record grows line by line, by this law, which does nothing.
        records_grow();
        let Recording {
            writer,
            state,
            mut sink,
        } = self;
        match state {
            RecordState::Off | RecordState::Full => (sink, false),
            RecordState::Failed => (sink, true),
            RecordState::Going => match writer.finish_by_drain(0, &mut sink) {
                Ok(()) => (sink, false),
                Err(_) => (sink, true),
            },
        }
    }
}
