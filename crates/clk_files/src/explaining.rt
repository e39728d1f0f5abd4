//! What explains the fault of a task, for a person.

ghost use Rattle.std.specs.Prelude.{◌≡◌, IfErr};
ghost use Rattle.clk_packet.specs.Bytes.{write_failures};
ghost use Rattle.clk_packet.specs.declared.fault.Fault.TheVariants.{Write};

use crate::files::{Failure, Purpose};
use crate::heard::Heard;
use crate::mistakes::{
    explain_line, explain_record, explain_recorded, explain_sent, has_too_many_records,
};
use clk_explain::{Explanation, Words, explain, tell};
use clk_packet::{Fault, MAX_RECORDS, MAX_TRACE_BYTES, Sink, write_all};
use clk_script::{MAX_LINES, MAX_SCRIPT_BYTES};
use clk_words::{Asked, Job, is_standard};
use std::alloc::Global;

/// What was read of the tree of a task, and of its script or trace. `None` if it can't be kept.
#[derive(Clone, Copy)]
pub struct TaskInputs<'a> {
    pub tree: Option<&'a Heard>,
    pub input: Option<&'a Heard>,
}

/// Writes what explains the fault of a task: what is wrong and, where that is known, in which file and where in it, the line with a
/// caret, and what was expected. The fault of a file has the system's reason. If a script or a trace wasn't kept in memory, no line of it
/// is shown; if a tree wasn't, nothing is written of its fault. Fault 20 if the sink fails.
pub fn explain_fault<E: Sink>(
    alloc: Global,
    asked: Asked<'_>,
    inputs: TaskInputs<'_>,
    failure: Option<Failure>,
    fault: Fault,
    errors: &mut E,
) -> Result<(), Fault>
    ensures fault { IfErr result (λ fault. fault ≡ Write) }
    ensures write_failures { E.Sink.failures errors.new ≡ write_failures result (E.Sink.failures errors.old) }
{
    match fault {
        Fault::Read => {
            write_failure(
                alloc,
                asked,
                failure,
                "standard input: can't be read",
                errors,
            )
        }
        Fault::Write => {
            write_failure(
                alloc,
                asked,
                failure,
                "standard output: can't be written",
                errors,
            )
        }
        Fault::Memory => {
            let page = tell(
                &Words::of("an allocation failed, or a thread couldn't be started"),
                &Words::of("expected more memory, or room for another thread"),
            );
            write_all(errors, page.as_slice())
        }
        Fault::TooManyPulls { .. } | Fault::Unsettled { .. } => {
            write_all(errors, explain(&[], fault).as_slice())
        }
        _ => match input_of(asked) {
            Some(path) if is_of_input(fault, inputs.input) => {
                explain_input(asked, path, inputs.input, fault, errors)
            }
            _ => explain_tree(asked, inputs.tree, fault, errors),
        },
    }
}

/// Whether a fault is that of a second input, and not of the tree. An input that can't be kept may have been read.
fn is_of_input(fault: Fault, input: Option<&Heard>) -> bool {
    match fault {
        Fault::BadScript { .. } | Fault::BadTrace { .. } | Fault::UnknownSender { .. } => true,
        Fault::TooLarge => match input {
            Some(heard) => heard.is_read(),
            None => true,
        },
        _ => false,
    }
}

/// Explains the fault of a tree, if its text was kept.
fn explain_tree<E: Sink>(
    asked: Asked<'_>,
    tree: Option<&Heard>,
    fault: Fault,
    errors: &mut E,
) -> Result<(), Fault>
    ensures fault { IfErr result (λ fault. fault ≡ Write) }
    ensures write_failures { E.Sink.failures errors.new ≡ write_failures result (E.Sink.failures errors.old) }
{
    let Some(heard) = tree else {
        return Ok(());
    };
    let Some(text) = heard.text() else {
        return Ok(());
    };
    let mark = match fault {
        Fault::NoDevice | Fault::TooLarge => ": ",
        _ => ":",
    };
    write_at(tree_of(asked), mark, &explain(&text, fault), errors)
}

/// Explains the fault of a script or a trace. If its text wasn't kept, no line of it is shown.
fn explain_input<E: Sink>(
    asked: Asked<'_>,
    path: &str,
    input: Option<&Heard>,
    fault: Fault,
    errors: &mut E,
) -> Result<(), Fault>
    ensures fault { IfErr result (λ fault. fault ≡ Write) }
    ensures write_failures { E.Sink.failures errors.new ≡ write_failures result (E.Sink.failures errors.old) }
{
    if let Some(heard) = input {
        if let Some(text) = heard.text() {
            return explain_text(asked, path, &text, fault, errors);
        }
    }
    // Without what was read of it, the tree may be what is too large, unless that is the built-in one.
    let is_its_own = input.is_some() || matches!(asked, Asked::Builtin);
    match fault {
        Fault::TooLarge if is_its_own => {
            let page = beyond_limits(asked, Words::of(""));
            write_at(path, ": ", &page, errors)
        }
        Fault::TooLarge => {
            let page = beyond_limits(asked, Words::of("the tree is too large, or "));
            write_all(errors, page.as_slice())
        }
        _ => write_at(path, ": ", &explain(&[], fault), errors),
    }
}

/// Explains the fault of the text of a script or a trace.
fn explain_text<E: Sink>(
    asked: Asked<'_>,
    path: &str,
    text: &[u8],
    fault: Fault,
    errors: &mut E,
) -> Result<(), Fault>
    ensures fault { IfErr result (λ fault. fault ≡ Write) }
    ensures write_failures { E.Sink.failures errors.new ≡ write_failures result (E.Sink.failures errors.old) }
{
    let placed = match fault {
        Fault::BadScript { line } => Some(explain_line(text, line)),
        Fault::BadTrace { row } => explain_record(text, row),
        Fault::UnknownSender { sender } if has_script(asked) => explain_sent(text, sender),
        Fault::UnknownSender { sender } => explain_recorded(text, sender),
        _ => None,
    };
    match (placed, fault) {
        (Some(page), _) => write_at(path, ":", &page, errors),
        (None, Fault::TooLarge) if is_record(asked, text) => {
            let page = tell(
                &Words::of("the record of this run could have more than ")
                    .and_number(MAX_LINES as usize)
                    .and(" lines"),
                &Words::of(
                    "expected fewer packets, or a lower --limit: a record has a line for each packet, --limit lines for each device, and the drain",
                ),
            );
            write_all(errors, page.as_slice())
        }
        (None, Fault::TooLarge) => write_at(path, ": ", &too_large(asked, text), errors),
        (None, _) => write_at(path, ": ", &explain(&[], fault), errors),
    }
}

/// Whether the second input of a task is a script, and not a trace.
fn has_script(asked: Asked<'_>) -> bool {
    matches!(
        asked,
        Asked::Builtin
            | Asked::Over {
                job: Job::Script { .. },
                ..
            }
    )
}

/// Whether the record of a run is what is too large, and not its trace.
fn is_record(asked: Asked<'_>, trace: &[u8]) -> bool {
    may_record(asked) && trace.len() <= MAX_TRACE_BYTES && !has_too_many_records(trace)
}

/// Whether a task records a run.
fn may_record(asked: Asked<'_>) -> bool {
    match asked {
        Asked::Over {
            job: Job::Live { record, visits, .. },
            ..
        } => record.is_some() || visits.is_some(),
        _ => false,
    }
}

/// The path of the tree of a task.
pub fn tree_of<'a>(asked: Asked<'a>) -> &'a str {
    match asked {
        Asked::Builtin => "the built-in tree",
        Asked::Check { tree } | Asked::Lint { tree } | Asked::Over { tree, .. } => tree,
    }
}

/// The path of the second input of a task, if it has one.
pub fn input_of<'a>(asked: Asked<'a>) -> Option<&'a str> {
    match asked {
        Asked::Builtin => Some("-"),
        Asked::Over { input, .. } => Some(input),
        _ => None,
    }
}

/// The path of a file of a task.
fn path_of<'a>(asked: Asked<'a>, purpose: Purpose) -> &'a str {
    let written = match (purpose, asked) {
        (Purpose::Tree, _) => Some(tree_of(asked)),
        (Purpose::Input, _) => input_of(asked),
        (
            Purpose::Record,
            Asked::Over {
                job: Job::Live { record, .. },
                ..
            },
        ) => record,
        (
            Purpose::Visits,
            Asked::Over {
                job: Job::Script { visits } | Job::Run { visits, .. } | Job::Live { visits, .. },
                ..
            },
        ) => visits,
        _ => None,
    };
    written.unwrap_or("-")
}

/// Writes an explanation behind the path of a text.
fn write_at<E: Sink>(
    path: &str,
    mark: &str,
    page: &Explanation,
    errors: &mut E,
) -> Result<(), Fault>
    ensures fault { IfErr result (λ fault. fault ≡ Write) }
    ensures write_failures { E.Sink.failures errors.new ≡ write_failures result (E.Sink.failures errors.old) }
{
    let name = if is_standard(path) {
        "standard input"
    } else {
        path
    };
    write_all(errors, name.as_bytes())?;
    write_all(errors, mark.as_bytes())?;
    write_all(errors, page.as_slice())
}

/// Writes which file failed and why, or else what else failed. Without memory the reason is left out.
fn write_failure<E: Sink>(
    alloc: Global,
    asked: Asked<'_>,
    failure: Option<Failure>,
    otherwise: &str,
    errors: &mut E,
) -> Result<(), Fault>
    ensures fault { IfErr result (λ fault. fault ≡ Write) }
    ensures write_failures { E.Sink.failures errors.new ≡ write_failures result (E.Sink.failures errors.old) }
{
    let Some(failure) = failure else {
        write_all(errors, otherwise.as_bytes())?;
        return write_all(errors, b"\n");
    };
    write_all(errors, path_of(asked, failure.purpose).as_bytes())?;
    let error = failure.error;
    match format!(in alloc; ": {error}") {
        Ok(reason) => write_all(errors, reason.as_bytes())?,
        Err(_) => write_all(errors, b": it failed")?,
    }
    write_all(errors, b"\n")
}

/// What a script or a trace may have at most: its name in a sentence, bytes, and lines or records, with the word for these.
fn limits_of(asked: Asked<'_>) -> (&'static str, usize, usize, &'static str) {
    if has_script(asked) {
        (
            "the script has more than ",
            MAX_SCRIPT_BYTES,
            MAX_LINES as usize,
            " lines",
        )
    } else {
        (
            "the trace has more than ",
            MAX_TRACE_BYTES,
            MAX_RECORDS as usize,
            " records",
        )
    }
}

/// What is too large about a script or a trace, and the limit.
fn too_large(asked: Asked<'_>, text: &[u8]) -> Explanation {
    let (name, bytes, rows, of_rows) = limits_of(asked);
    let (most, unit) = if text.len() > bytes {
        (bytes, " bytes")
    } else {
        (rows, of_rows)
    };
    tell(
        &Words::of(name).and_number(most).and(unit),
        &Words::of("expected no more than that"),
    )
}

/// What may be too large about a script or a trace that wasn't kept, and the limits. `wrong` has the words before.
fn beyond_limits(asked: Asked<'_>, wrong: Words) -> Explanation {
    let (name, bytes, rows, of_rows) = limits_of(asked);
    let wrong = wrong
        .and(name)
        .and_number(bytes)
        .and(" bytes, or more than ")
        .and_number(rows)
        .and(of_rows);
    let wrong = if may_record(asked) {
        wrong
            .and(", or the record of its run could have more than ")
            .and_number(MAX_LINES as usize)
            .and(" lines")
    } else {
        wrong
    };
    tell(&wrong, &Words::of("expected no more than that"))
}
