//! The whole program, over values that stand for standard input, output and error.

ghost use Rattle.std.specs.Prelude.{◌≡◌, ◌≢◌, ◌+◌, ◌≤◌, ◌⊎◌, [], Ok, Err, None, Some, true, false, map, IfOk, IfErr, IsErr, OnOk};
ghost use Rattle.std.specs.String.{string_bytes};
ghost use Rattle.std.specs.Io.KnownBytes.{Appends, Keeps};
ghost use Rattle.clap.specs.Faults.{fault_of};
ghost use Rattle.clap.specs.Values.{kind_of};
ghost use Rattle.clap.specs.declared.error.kind.ErrorKind.TheVariants.{OutOfMemory, DisplayHelp, DisplayVersion};
ghost use Rattle.clk_packet.specs.declared.fault.Fault.TheVariants.{Memory, Write};
ghost use Rattle.clk_packet.specs.Bytes.{Takes, read_failures, write_failures};
ghost use Rattle.clk_command.specs.Tasks.{Does, ExplainsTask, IsQuestion, IsMistake};
ghost use Rattle.clk_command.specs.InputLimits.{most_of_input};
ghost use Rattle.clk_words.specs.Words.{answers_alone, builtin, is_explained, program_words, reads_input, task, task_in, AreApart, MayClash};

use crate::apart::{Clash, clash_of};
use crate::jobs::{do_job, script_builtin};
use crate::linting::lint_tree;
use crate::over::check_tree;
use clap::Error;
use clap::error::ErrorKind;
use clk_files::{Heard, Opener, Recalls, TaskInputs, explain_fault, input_of, tree_of};
use clk_packet::{Fault, Sink, Source, write_all};
use clk_words::{Asked, asked_by, is_standard};
use std::alloc::Global;
use std::cell::Cell;
use std::rt::Files;
use std::sync::Wait;
use std::thread::Threads;

/// Does what the words after the program's name ask for. Returns the status that the program ends with: 0 if that is done, or 2 if the
/// words are wrong, or if no task can have the files that they name. With 2 it writes why to `errors`, and no file is changed. It writes
/// help and the version to `writer`.
///
/// - No words: runs the script on `reader` over the built-in tree.
/// - `check TREE`: writes the canonical text of the tree in the file TREE to `writer`.
/// - `lint TREE [TRACE]`: writes a line to `writer` for each warning of the tree in the file TREE, and of the trace in the file TRACE if
///   one is named. The tree is read and checked before TRACE is opened.
/// - `script TREE SCRIPT [--visits FILE]`: runs the script in the file SCRIPT over the tree in the file TREE. The tree is read and checked
///   before SCRIPT is opened. After the answer its visits are written to FILE, as CSV, if a FILE is named.
/// - `run TREE TRACE [--step N] [--limit N] [--visits FILE]`: runs the trace in the file TRACE over the tree in the file TREE, and writes
///   the report to `writer`. Each sender has a thread. The tree is read and checked before TRACE is opened. While senders send, each device
///   is pulled once each `--step` ticks, at most `--limit` times. The visits go to FILE as those of a script do.
///
/// - `live TREE TRACE [--step N] [--limit N] [--record FILE] [--visits FILE]`: runs a trace as `run` does, but through inlets. Each sender
///   offers to an inlet of its own, and one consumer takes packets from all inlets and pulls the devices. The FILE of `--record` gets the
///   record of the run, as a script that ends in the same report. The FILE of `--visits` gets the visits of that script.
///
/// One of TREE, SCRIPT and TRACE may be `-`, which stands for `reader`. The FILE of `--visits` may be `-`: the visits are then written to
/// `writer`, after the answer or the report. No other FILE can be another of the files that the words name, or a file that standard input
/// or output leads to. The contract says this of paths alone.
///
/// With `--explain` a fault is explained on `errors`: in which file and where in it, the line with a caret, what is wrong, and what was
/// expected. If `errors` fails then, the fault is returned as ever. A line of a text on `reader` is shown only if `reader` keeps what it
/// gave (`Recalls`).
///
/// `rt` has the files and starts the threads, and `wait` waits for queues.
///
/// # Errors
///
/// Fault 1 if an allocation fails or a thread can't be started. Fault 19 if a file can't be opened, or if it or `reader` can't be read.
/// Fault 20 if `writer` fails, or `errors` with status 2, or if, after the whole answer, FILE can't be created or written. Otherwise the
/// faults of the tree, and then those of the script, or of the trace and its run or its senders. With `live`, the FILE of `--record` may
/// have a front of the record at any fault.
pub fn command<
    H: Files + AllocGlobal + Threads + Wait,
    P: Wait + Sync,
    R: Source + Recalls,
    W: Sink,
    E: Sink,
>(
    rt: &H,
    wait: &P,
    words: Vec<String>,
    reader: &mut R,
    writer: &mut W,
    errors: &mut E,
) -> Result<u8, Fault>
    ensures status { IfOk result (λ status. (status ≡ 0) ⊎ (status ≡ 2)) }
    // With status 0, help or the version was asked for, or what the words ask for was done.
    ensures done { result ≡ Ok 0 → IsQuestion (fault_of program_words (map string_bytes words.items))
        ⊎ ((fault_of program_words (map string_bytes words.items) ≡ []) × AreApart (task_in (map string_bytes words.items))
        × Does (task_in (map string_bytes words.items)) (R.Source.remaining reader.old) (λ text. Appends (W.Sink.taken writer.old) (W.Sink.taken writer.new) text)) }
    // With status 2, the words are wrong, or name one file for two purposes, one of which is to write it, or standard input for two inputs.
    ensures mistaken { result ≡ Ok 2 → IsMistake (fault_of program_words (map string_bytes words.items))
        ⊎ ((fault_of program_words (map string_bytes words.items) ≡ []) × MayClash (task_in (map string_bytes words.items))) }
    // With status 0, nothing is written to `errors`.
    ensures silent { result ≡ Ok 0 → errors.new ≡ errors.old }
    // With status 2, nothing is read, and nothing is written to `writer`.
    ensures refused { result ≡ Ok 2 → (reader.new ≡ reader.old) × (writer.new ≡ writer.old) }
    // At a fault nothing is written to `writer`, unless a write failed.
    ensures nothing { IfErr result (λ fault. fault ≢ Write → Keeps (W.Sink.taken writer.old) (W.Sink.taken writer.new)) }
    // At a fault other than 1 and 20 the words are right, and what they ask for has the fault.
    ensures fault { IfErr result (λ fault. fault ≢ Write → fault ≢ Memory → (fault_of program_words (map string_bytes words.items) ≡ [])
        × AreApart (task_in (map string_bytes words.items)) × ExplainsTask (task_in (map string_bytes words.items)) (R.Source.remaining reader.old) fault) }
    // Without `--explain` nothing is written to `errors` at a fault, unless a write failed.
    ensures unexplained { is_explained (map string_bytes words.items) ≡ false → IfErr result (λ fault. fault ≢ Write → errors.new ≡ errors.old) }
    // If `writer` or `errors` failed, the fault is 20, unless `errors` failed once while a fault was explained.
    ensures write_failures { ((W.Sink.failures writer.new + E.Sink.failures errors.new ≡ W.Sink.failures writer.old + E.Sink.failures errors.old)
        ⊎ (W.Sink.failures writer.new + E.Sink.failures errors.new ≡ write_failures result (W.Sink.failures writer.old + E.Sink.failures errors.old)))
        ⊎ ((is_explained (map string_bytes words.items) ≡ true) × IsErr result × (E.Sink.failures errors.new ≡ E.Sink.failures errors.old + 1)
        × ((W.Sink.failures writer.new ≡ W.Sink.failures writer.old) ⊎ (W.Sink.failures writer.new ≡ write_failures result (W.Sink.failures writer.old)))) }
    // If the words are wrong or ask for help or the version, the fault is 20 exactly if `writer` or `errors` failed.
    ensures told { (fault_of program_words (map string_bytes words.items) ≡ [] → ⊥)
        → W.Sink.failures writer.new + E.Sink.failures errors.new ≡ write_failures result (W.Sink.failures writer.old + E.Sink.failures errors.old) }
    // If the words are right and all that is written goes to `writer`, the fault is 20 exactly if `writer` failed, whatever `errors` does.
    ensures alone { fault_of program_words (map string_bytes words.items) ≡ [] → answers_alone (task_in (map string_bytes words.items)) ≡ true
        → (MayClash (task_in (map string_bytes words.items)) → ⊥) → W.Sink.failures writer.new ≡ write_failures result (W.Sink.failures writer.old) }
    // If `reader` failed, the fault is 19. If there are no words, it failed exactly if the fault is 19. If it is no input, it is unchanged.
    ensures read { (reader.new ≡ reader.old) ⊎ (R.Source.failures reader.new ≤ read_failures result (R.Source.failures reader.old)) }
    ensures read_failures { task_in (map string_bytes words.items) ≡ builtin → R.Source.failures reader.new ≡ read_failures result (R.Source.failures reader.old) }
    ensures unread { (reads_input (task_in (map string_bytes words.items)) ≡ true) ⊎ (reader.new ≡ reader.old) }
    // At most one byte past its limit is read from `reader`.
    ensures limit { Takes (most_of_input (task_in (map string_bytes words.items)) + 1) (R.Source.remaining reader.old) (R.Source.remaining reader.new) }
{
    match asked_by(rt.alloc(), &words) {
        Ok((asked, explained)) => {
            if let Some(clash) = clash_of(rt, asked) {
                return refuse(clash, errors);
            }
            let (failure, tree, input) = (
                Cell::new(None),
                Heard::nothing(rt.alloc()),
                Heard::nothing(rt.alloc()),
            );
            if explained {
                keep_all(&tree, &input, reader.heard());
            }
            let opener = Opener {
                rt,
                failure: &failure,
                tree: &tree,
                input: &input,
            };
            let Err(fault) = perform(&opener, wait, asked, reader, writer) else {
                return Ok(0);
            };
            if explained {
                let path = input_of(asked).unwrap_or("");
                let inputs = TaskInputs {
                    tree: heard_at(tree_of(asked), reader.heard(), &tree),
                    input: heard_at(path, reader.heard(), &input),
                };
                // A failed write changes nothing about the fault.
                let _ = explain_fault(rt.alloc(), asked, inputs, failure.get(), fault, errors);
            }
            Err(fault)
        }
        Err(error) => tell(rt.alloc(), &error, writer, errors),
    }
}

/// Keeps what is read from now on.
fn keep_all(tree: &Heard, input: &Heard, reader: Option<&Heard>) {
    tree.keep();
    input.keep();
    if let Some(heard) = reader {
        heard.keep();
    }
}

/// What was read of the input at a path: of `reader` if the path stands for standard input, otherwise of a file.
fn heard_at<'a>(path: &str, reader: Option<&'a Heard>, file: &'a Heard) -> Option<&'a Heard> {
    if is_standard(path) {
        reader
    } else {
        Some(file)
    }
}

/// Says why no task can have the files that the words name. Returns the status that the program ends with.
fn refuse<E: Sink>(clash: Clash<'_>, errors: &mut E) -> Result<u8, Fault>
    ensures status { IfOk result (λ status. status ≡ 2) }
    ensures fault { IfErr result (λ fault. fault ≡ Write) }
    ensures write_failures { E.Sink.failures errors.new ≡ write_failures result (E.Sink.failures errors.old) }
{
    match clash {
        Clash::TwoInputs => {
            write_all(
                errors,
                b"error: '-' stands for standard input, which can't be two inputs\n",
            )?;
        }
        Clash::RecordOut => {
            write_all(
                errors,
                b"error: a record can't be written to standard output\n",
            )?;
        }
        Clash::Overwritten(path) => {
            write_all(
                errors,
                b"error: what is read, or written for something else, can't be written to: ",
            )?;
            write_all(errors, path.as_bytes())?;
            write_all(errors, b"\n")?;
        }
    }
    Ok(2)
}

/// Does what the words ask for. Opens a file when it is first read or written.
fn perform<'a, H: Files + AllocGlobal + Threads + Wait, P: Wait + Sync, R: Source, W: Sink>(
    opener: &Opener<'a, H>,
    wait: &P,
    asked: Asked<'a>,
    reader: &mut R,
    writer: &mut W,
) -> Result<(), Fault>
    requires apart { AreApart (task asked) }
    ensures done { OnOk result (Does (task asked.entry) (R.Source.remaining reader.old) (λ text. Appends (W.Sink.taken writer.old) (W.Sink.taken writer.new) text)) }
    ensures nothing { IfErr result (λ fault. fault ≢ Write → Keeps (W.Sink.taken writer.old) (W.Sink.taken writer.new)) }
    ensures fault { IfErr result (ExplainsTask (task asked.entry) (R.Source.remaining reader.old)) }
    ensures write_failures { (W.Sink.failures writer.new ≡ W.Sink.failures writer.old)
        ⊎ (W.Sink.failures writer.new ≡ write_failures result (W.Sink.failures writer.old)) }
    ensures alone { answers_alone (task asked.entry) ≡ true → W.Sink.failures writer.new ≡ write_failures result (W.Sink.failures writer.old) }
    ensures read_failures { task asked.entry ≡ builtin → R.Source.failures reader.new ≡ read_failures result (R.Source.failures reader.old) }
    ensures read { (reader.new ≡ reader.old) ⊎ (R.Source.failures reader.new ≤ read_failures result (R.Source.failures reader.old)) }
    ensures unread { (reads_input (task asked.entry) ≡ true) ⊎ (reader.new ≡ reader.old) }
    ensures limit { Takes (most_of_input (task asked.entry) + 1) (R.Source.remaining reader.old) (R.Source.remaining reader.new) }
{
    let alloc = opener.rt.alloc();
    match asked {
        Asked::Builtin => script_builtin(alloc, reader, writer),
        Asked::Check { tree } => {
            if is_standard(tree) {
                return check_tree(alloc, reader, writer);
            }
            check_tree(alloc, &mut opener.tree_at(tree), writer)
        }
        Asked::Lint { tree } => {
            if is_standard(tree) {
                return lint_tree(alloc, reader, writer);
            }
            lint_tree(alloc, &mut opener.tree_at(tree), writer)
        }
        Asked::Over { tree, input, job } => {
            if is_standard(tree) {
                let mut text = opener.input_at(input);
                return do_job(opener, wait, job, reader, &mut text, writer);
            }
            let mut first = opener.tree_at(tree);
            if is_standard(input) {
                return do_job(opener, wait, job, &mut first, reader, writer);
            }
            let mut second = opener.input_at(input);
            do_job(opener, wait, job, &mut first, &mut second, writer)
        }
    }
}

/// Writes why the words are wrong to `errors`, or help or the version to `writer`. Returns the status that the program ends with.
fn tell<W: Sink, E: Sink>(
    alloc: Global,
    error: &Error,
    writer: &mut W,
    errors: &mut E,
) -> Result<u8, Fault>
    ensures status { IfOk result (λ status. (status ≡ 0) ⊎ (status ≡ 2)) }
    ensures question { result ≡ Ok 0 → (kind_of error.now ≡ DisplayHelp) ⊎ (kind_of error.now ≡ DisplayVersion) }
    ensures memory { kind_of error.now ≡ OutOfMemory → (result ≡ Err Memory) × (writer.new ≡ writer.old) }
    ensures mistake { result ≡ Ok 2 → (kind_of error.now ≢ OutOfMemory) × (kind_of error.now ≢ DisplayHelp) × (kind_of error.now ≢ DisplayVersion) }
    ensures silent { result ≡ Ok 0 → errors.new ≡ errors.old }
    ensures refused { result ≡ Ok 2 → writer.new ≡ writer.old }
    ensures nothing { IfErr result (λ fault. fault ≢ Write → Keeps (W.Sink.taken writer.old) (W.Sink.taken writer.new)) }
    ensures untold { IfErr result (λ fault. fault ≢ Write → errors.new ≡ errors.old) }
    ensures fault { IfErr result (λ fault. (fault ≡ Memory) ⊎ (fault ≡ Write)) }
    ensures write_failures { W.Sink.failures writer.new + E.Sink.failures errors.new ≡ write_failures result (W.Sink.failures writer.old + E.Sink.failures errors.old) }
{
    if error.kind() == ErrorKind::OutOfMemory {
        return Err(Fault::Memory);
    }
    let text = format!(in alloc; "{error}")?;
    if error.use_stderr() {
        write_all(errors, text.as_bytes())?;
        return Ok(2);
    }
    write_all(writer, text.as_bytes())?;
    Ok(0)
}
