//! Records of what happened, as a `ScriptWriter` writes them.

ghost use Rattle.std.specs.Prelude.{Some, OnOk};
ghost use Rattle.std.specs.Io.KnownBytes.{Appends};
ghost use Rattle.clk_script.specs.Record.{record_text};

use crate::row::assert_ends;
use clk_packet::{Failed, FailingSink, Failures, Fault, Sink};
use clk_rows::trees::PRIO_OVER_ROOM_FOR_TWO;
use clk_script::{Command, ScriptWriter};

/// Writes the record of these commands, and of the drain from this moment on, in ticks.
fn write_record<W: Sink>(commands: &[Command], drain: u64, sink: &mut W) -> Result<(), Fault>
    ensures whole { OnOk result (Appends (W.Sink.taken sink.old) (W.Sink.taken sink.new) (record_text commands.now (Some drain))) }
{
    let mut writer = ScriptWriter::new();
    for command in commands {
        writer.record(*command, sink)?;
    }
    writer.finish_by_drain(drain, sink)
}

const fn send(sender: u16, length: u16) -> Command {
    Command::Send { sender, length }
}

const fn pull(device: u16, moment: u64) -> Command {
    Command::Pull { device, moment }
}

/// A record without a command, then commands of each kind with the least and the greatest numbers.
#[test]
fn each_command_has_its_line(rt: HostRuntime) -> Result<(), Fault> {
    let last = (1 << 40) - 1;
    let commands = [
        send(0, 1),
        send(65_535, 65_535),
        pull(0, 0),
        pull(65_535, last),
    ];
    let mut sink = FailingSink::new(vec![in rt.alloc(); 0; 1024]?);
    write_record(&[], 0, &mut sink)?;
    write_record(&commands, last, &mut sink)?;
    assert_eq!(rt;
        sink.taken(),
        b"drain 0\nsend 0 1\nsend 65535 65535\npull 0\npull 1099511627775 65535\ndrain 1099511627775\n".as_slice()
    );
    Ok(())
}

/// Records what a router did, and runs the record again: a refusal, a packet that was emitted, an empty pull, and the drain.
#[test]
fn a_record_is_run_again(rt: HostRuntime) -> Result<(), Fault> {
    let commands = [
        send(1, 20),
        send(1, 30),
        send(1, 40),
        pull(0, 5),
        pull(0, 5),
        pull(0, 6),
    ];
    let mut sink = FailingSink::new(vec![in rt.alloc(); 0; 1024]?);
    write_record(&commands, 9, &mut sink)?;
    assert_ends(
        &rt,
        rt.alloc(),
        PRIO_OVER_ROOM_FOR_TWO,
        sink.taken(),
        Ok(()),
        b"1#0 20 accepted\n1#1 30 accepted\n1#2 40 refused\npull 5: 1#0 20\npull 5: 1#1 30\npull 6: none\n\
            sender 0: sent 0 0, accepted 0 0, refused 0 0, evicted 0 0, emitted 0 0\n\
            sender 1: sent 3 90, accepted 2 50, refused 1 40, evicted 0 0, emitted 2 50\n",
    );
    Ok(())
}

/// A moment that no script can name is not recorded, and leaves the record unchanged.
#[test]
fn a_late_moment_is_not_recorded(rt: HostRuntime) -> Result<(), Fault> {
    let mut sink = FailingSink::new(vec![in rt.alloc(); 0; 1024]?);
    let mut writer = ScriptWriter::new();
    writer.record(send(3, 9), &mut sink)?;
    assert_eq!(rt;
        writer.record(pull(1, 1 << 40), &mut sink),
        Err(Fault::TooLarge)
    );
    writer.record(pull(1, 7), &mut sink)?;
    assert!(rt; writer.can_drain((1 << 40) - 1));
    assert!(rt; !writer.can_drain(1 << 40));
    writer.finish(&mut sink)?;
    assert_eq!(rt; sink.taken(), b"send 3 9\npull 7 1\n".as_slice());
    let late = ScriptWriter::new().finish_by_drain(1 << 40, &mut sink);
    assert_eq!(rt; late, Err(Fault::TooLarge));
    assert_eq!(rt; sink.taken(), b"send 3 9\npull 7 1\n".as_slice());
    Ok(())
}

/// A record has as many lines as a script may have, with that of the drain.
#[test]
fn a_record_has_a_million_lines_at_most(rt: HostRuntime) -> Result<(), Fault> {
    let mut sink = FailingSink::new(vec![in rt.alloc(); 0; 16_000_000]?);
    let mut writer = ScriptWriter::new();
    for _ in 0..999_999 {
        writer.record(pull(0, 1), &mut sink)?;
    }
    assert!(rt; writer.can_drain(1));
    writer.record(send(0, 1), &mut sink)?;
    assert!(rt; !writer.can_drain(1));
    assert_eq!(rt; writer.record(send(0, 1), &mut sink), Err(Fault::TooLarge));
    assert_eq!(rt; writer.finish_by_drain(1, &mut sink), Err(Fault::TooLarge));
    Ok(())
}

/// If the sink fails, it has taken a front of the record, and the fault is returned at once or at the end.
#[test]
fn a_sink_that_fails_has_a_front(rt: HostRuntime) -> Result<(), Fault> {
    for room in [0, 1, 12] {
        let mut sink = FailingSink::new(vec![in rt.alloc(); 0; room]?);
        assert_eq!(rt;
            write_record(&[send(0, 1)], 2, &mut sink),
            Err(Fault::Write)
        );
        let whole = b"send 0 1\ndrain 2\n";
        assert_eq!(rt; sink.taken(), &whole[..room]);
    }
    Ok(())
}

/// Lines beyond those that are held are written before the end.
#[test]
fn a_long_record_is_written_as_it_grows(rt: HostRuntime) -> Result<(), Fault> {
    let mut sink = FailingSink::new(vec![in rt.alloc(); 0; 40_000]?);
    let mut writer = ScriptWriter::new();
    for _ in 0..4_000 {
        writer.record(send(0, 1), &mut sink)?;
    }
    assert!(rt; sink.taken().len() > 16_000);
    writer.finish(&mut sink)?;
    assert_eq!(rt; sink.taken().len(), 36_000);
    assert!(rt;
        sink.taken()
            .chunks(9)
            .all(|line| line == b"send 0 1\n".as_slice())
    );
    Ok(())
}

// A sink that fails once, at the end of `before`, and then takes bytes into `after`.
#[derive(Drop)]
struct Recovers {
    before: FailingSink,
    after: FailingSink,
    failed: bool,
    failures: Failures,
}

impl Sink for Recovers {
    ghost use Rattle.std.specs.Prelude.{None};

    ghost taken = { λ s. None };

    ghost failures = { λ s. s.failures.count };

    fn write(&mut self, bytes: &[u8]) -> Result<usize, Failed> {
        let written = if self.failed {
            self.after.write(bytes)
        } else {
            self.before.write(bytes)
        };
        if written.is_err() {
            self.failed = true;
            self.failures.add_one();
        }
        written
    }
}

/// If the sink fails as held lines are written, the record has ended: later calls fail and write nothing, even if the sink recovers.
#[test]
fn a_record_has_ended_once_its_sink_failed(rt: HostRuntime) -> Result<(), Fault> {
    for by_drain in [false, true] {
        let mut sink = Recovers {
            before: FailingSink::new(vec![in rt.alloc(); 0; 100]?),
            after: FailingSink::new(vec![in rt.alloc(); 0; 40_000]?),
            failed: false,
            failures: Failures::none(),
        };
        let mut writer = ScriptWriter::new();
        for _ in 0..1_024 {
            writer.record(send(0, 1), &mut sink)?;
        }
        for moment in [7, 8, 1 << 40] {
            assert_eq!(rt;
                writer.record(pull(0, moment), &mut sink),
                Err(Fault::Write)
            );
        }
        let ended = if by_drain {
            writer.finish_by_drain(1 << 40, &mut sink)
        } else {
            writer.finish(&mut sink)
        };
        assert_eq!(rt; ended, Err(Fault::Write));
        assert_eq!(rt; sink.before.taken().len(), 100);
        assert!(rt; sink.after.taken().is_empty());
    }
    Ok(())
}
