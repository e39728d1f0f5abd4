//! The words of the program: its commands, what they ask for, and the help.

ghost use Rattle.std.specs.Prelude.{◌≡◌, ◌≤◌, ◌||◌, codes, map, option_map, IfOk};
ghost use Rattle.std.specs.String.{string_bytes};
ghost use Rattle.clap.specs.Faults.{fault_of};
ghost use Rattle.clap.specs.Kinds.{FailsBy};
ghost use Rattle.clap.specs.Matches.{found_of};
ghost use Rattle.clap.specs.Simple.{subcommand_rows_of, new_rule};
ghost use Rattle.clap.specs.Walk.{first_of, rows_of};
ghost use Rattle.clk_gate.specs.declared.limits.TheConstants.{MAX_STEP, MAX_LIMIT};
ghost use Rattle.clk_words.specs.Words.{file_word, file_option, flag_option, number_option, titled_words, explains, is_explained, top_words, check_words, lint_task, lint_words, script_words, traced_words, run_words, live_words, program_words, number_of, path_of, within_one_and, task, text_of, task_in, Reads, IsWord};
ghost use Rattle.clk_words.specs.inside.Found.{task_of, explains_below};

use crate::pace::Pace;
use clap::{Arg, ArgAction, ArgMatches, Command, Error, value_parser};
use clk_gate::{MAX_LIMIT, MAX_STEP};
use std::alloc::{AllocError, Global};

/// What the words ask for. A file is named by its path, and `-` stands for standard input, or for standard output as the path of visits.
#[derive(Clone, Copy)]
pub enum Asked<'a> {
    /// The script on standard input, over the built-in tree.
    Builtin,
    /// The canonical text of a tree.
    Check {
        /// The file of the tree.
        tree: &'a str,
    },
    /// The warnings of a tree.
    Lint {
        /// The file of the tree.
        tree: &'a str,
    },
    /// What is done over a tree and a second input.
    Over {
        /// The file of the tree.
        tree: &'a str,
        /// The file of the script or the trace.
        input: &'a str,
        /// What is done.
        job: Job<'a>,
    },
}

/// What is done over a tree and a second input.
#[derive(Clone, Copy)]
pub enum Job<'a> {
    /// The warnings of the tree and the trace are written.
    LintTrace,
    /// The script is run.
    Script {
        /// The file that its visits are written to, if they are asked for.
        visits: Option<&'a str>,
    },
    /// The trace is run.
    Run {
        /// How devices are pulled while the producers run.
        pace: Pace,
        /// The file that its visits are written to, if they are asked for.
        visits: Option<&'a str>,
    },
    /// The trace is run through inlets.
    Live {
        /// How devices are pulled while the senders send.
        pace: Pace,
        /// The file that the record of the run is written to, if one is named.
        record: Option<&'a str>,
        /// The file that its visits are written to, if they are asked for.
        visits: Option<&'a str>,
    },
}

/// What the words after the program's name ask for, and whether a fault is to be explained.
///
/// # Errors
///
/// The error that clap returns: the words are wrong, help or the version is asked for, or an allocation failed.
pub fn asked_by<'a>(alloc: Global, words: &'a [String]) -> Result<(Asked<'a>, bool), Error>
    ensures asked { IfOk result (λ asked. task asked.0 ≡ task_in (map string_bytes words.now)) }
    ensures explained { IfOk result (λ asked. asked.1 ≡ is_explained (map string_bytes words.now)) }
    ensures refused { FailsBy (fault_of program_words (map string_bytes words.now)) result }
{
    let matches = program(alloc)?.try_get_matches_from(words)?;
    Ok((asked_of(&matches), is_explained(&matches)))
}

/// Whether a fault is to be explained, by the words of the program or of its command.
fn is_explained(matches: &ArgMatches<'_>) -> bool
    ensures { result ≡ (explains (rows_of (found_of matches.now)) || explains_below (subcommand_rows_of matches.now)) }
{
    match matches.subcommand() {
        Some((_, found)) => explains(matches) || explains(found),
        None => explains(matches),
    }
}

/// Whether a flag asks for an explanation.
fn explains(matches: &ArgMatches<'_>) -> bool
    ensures { result ≡ explains (rows_of (found_of matches.now)) }
{
    match option_of(matches, EXPLAIN) {
        Some(value) => value == "true",
        None => false,
    }
}

fn asked_of<'a>(matches: &ArgMatches<'a>) -> Asked<'a>
    ensures { task result ≡ task_of (subcommand_rows_of matches.now) }
{
    match matches.subcommand() {
        Some(("check", found)) => Asked::Check {
            tree: path_of(found, TREE),
        },
        Some(("lint", found)) => lint_of(path_of(found, TREE), option_of(found, TRACE)),
        Some(("script", found)) => Asked::Over {
            tree: path_of(found, TREE),
            input: path_of(found, SCRIPT),
            job: Job::Script {
                visits: option_of(found, VISITS),
            },
        },
        Some(("run", found)) => Asked::Over {
            tree: path_of(found, TREE),
            input: path_of(found, TRACE),
            job: Job::Run {
                pace: pace_of(found),
                visits: option_of(found, VISITS),
            },
        },
        Some(("live", found)) => Asked::Over {
            tree: path_of(found, TREE),
            input: path_of(found, TRACE),
            job: Job::Live {
                pace: pace_of(found),
                record: option_of(found, RECORD),
                visits: option_of(found, VISITS),
            },
        },
        _ => Asked::Builtin,
    }
}

/// What `lint` asks for, by its words.
fn lint_of<'a>(tree: &'a str, trace: Option<&'a str>) -> Asked<'a>
    ensures { task result ≡ lint_task tree.now (option_map text_of trace.entry) }
{
    match trace {
        None => Asked::Lint { tree },
        Some(input) => Asked::Over {
            tree,
            input,
            job: Job::LintTrace,
        },
    }
}

/// The path that a required word has.
fn path_of<'a>(matches: &ArgMatches<'a>, name: &str) -> &'a str
    ensures { result.now ≡ path_of (rows_of (found_of matches.now)) name.now }
{
    match matches.get_str(name) {
        Some(path) => path,
        None => "",
    }
}

/// The path that an option or a word has, if it is there.
fn option_of<'a>(matches: &ArgMatches<'a>, name: &str) -> Option<&'a str>
    ensures { option_map text_of result ≡ first_of name.now (rows_of (found_of matches.now)) }
{
    matches.get_str(name)
}

/// The pace that two options have.
fn pace_of(matches: &ArgMatches<'_>) -> Pace
    ensures step { result.step ≡ number_of (rows_of (found_of matches.now)) (codes "step") MAX_STEP }
    ensures limit { result.limit ≡ number_of (rows_of (found_of matches.now)) (codes "limit") MAX_LIMIT }
{
    Pace {
        step: number_of(matches, STEP, MAX_STEP),
        limit: number_of(matches, LIMIT, MAX_LIMIT),
    }
}

/// The number from 1 to `most` that an option has, or its default. clap accepts no other number.
fn number_of(matches: &ArgMatches<'_>, name: &str, most: u32) -> u32
    requires { 1 ≤ most }
    ensures some { 1 ≤ result }
    ensures within { result ≤ most }
    ensures number { result ≡ number_of (rows_of (found_of matches.now)) name.now most }
{
    clamped(matches.get_one(name).unwrap_or(1), most)
}

/// The nearest number from 1 to `most`.
fn clamped(number: u32, most: u32) -> u32
    requires { 1 ≤ most }
    ensures some { 1 ≤ result }
    ensures within { result ≤ most }
    ensures nearest { result ≡ within_one_and most number }
{
    if number < 1 {
        1
    } else if most < number {
        most
    } else {
        number
    }
}

const EXPLAIN: &str = "explain";

const TREE: &str = "TREE";

const SCRIPT: &str = "SCRIPT";

const TRACE: &str = "TRACE";

const STEP: &str = "step";

const LIMIT: &str = "limit";

const RECORD: &str = "record";

const VISITS: &str = "visits";

const ABOUT: &str =
    "Runs packets through queues and pull schedulers, as a Click router's link pulls them";

const MORE: &str = "\
Without a command, the script on standard input runs over a built-in tree: senders 0 and 1, each with a
queue of two packets, and a PrioSched that asks the queue of sender 0 first.

One of the files to read may be '-', which is standard input. The file of --visits may be '-', which is standard
output: the visits follow the answer. A file of that name is './-'. A file whose name isn't UTF-8 can't be named:
standard input can be that file.

Examples:
  printf 'send 0 100\\npull 0\\n' | clickpull
  clickpull check uplink.click
  clickpull lint uplink.click
  clickpull script uplink.click morning.script
  clickpull run uplink.click morning.trace
  clickpull live --record morning.script uplink.click morning.trace

Exit status:
  0  done
  1  a fault: one line on standard error tells it, as 'fault 16: BadScript 2' of a script's second line
  2  the words after the program's name are wrong, or have a file overwritten that they name for something else
     too: standard error says how, and no file is changed

Where what takes the output is closed, as by 'head', the program ends with fault 20.";

/// The words of the whole program.
fn program<'a>(alloc: Global) -> Result<Command<'a>, AllocError>
    ensures { IfOk result (λ c. Reads c program_words) }
{
    top(alloc)?
        .subcommand(check(alloc)?)?
        .subcommand(lint(alloc)?)?
        .subcommand(script(alloc)?)?
        .subcommand(run(alloc)?)?
        .subcommand(live(alloc)?)
}

/// The program without its commands.
fn top<'a>(alloc: Global) -> Result<Command<'a>, AllocError>
    ensures { IfOk result (λ c. Reads c top_words) }
{
    titled(alloc, "clickpull", ABOUT, MORE)?
        .no_binary_name(true)
        .version("0.1.0")
        .bin_name("clickpull")
}

/// A command with this name, whose only word is `--explain`, and what help says of it.
fn titled<'a>(
    alloc: Global,
    name: &'a str,
    about: &'a str,
    more: &'a str,
) -> Result<Command<'a>, AllocError>
    ensures { IfOk result (λ c. Reads c (titled_words name.now)) }
{
    Command::new(alloc, name)
        .about(about)
        .after_help(more)
        .arg(flag(alloc, EXPLAIN, EXPLAIN_MEANS))
}

const EXPLAIN_MEANS: &str = "Explains a fault: where it is, what is wrong, and what was expected";

/// An option without a value.
fn flag<'a>(alloc: Global, name: &'a str, help: &'a str) -> Arg<'a>
    ensures { IsWord result (flag_option name.now) }
{
    Arg::new(alloc, name)
        .long(name)
        .action(ArgAction::SetTrue)
        .help(help)
}

const TREE_MEANS: &str =
    "A file with a tree in Click's language: elements, as 'q :: Queue(10);', and connections, as 's -> q -> d;'";

const CHECK_DOES: &str = "Checks a tree, and prints its canonical text";

const CHECK_MORE: &str = "\
The canonical text has a line for each element, with all its arguments, and then a line for each connection.
Of a tree that is wrong, the fault tells what is wrong first, in the order of checks,
by its offset in bytes if it is at one.

Example:
  clickpull check uplink.click > uplink.canonical.click";

fn check<'a>(alloc: Global) -> Result<Command<'a>, AllocError>
    ensures { IfOk result (λ c. Reads c check_words) }
{
    titled(alloc, "check", CHECK_DOES, CHECK_MORE)?.arg(file(alloc, TREE, TREE_MEANS))
}

const LINT_DOES: &str = "Warns of what a tree, or a tree and a trace, may say by mistake";

const LINT_MORE: &str = "\
A line for each warning, by its element:
  a quantum of a DRRSched below the longest packet that reaches the input by TRACE, or 1500 bytes without TRACE;
    below a PrioSched that prefers it to another input, the DRRSched may lose its priority, since it may return
    nothing while it saves up
  a burst of a Shaper below its rate
  a queue that nobody sends to
  different tickets of a StrideSched with the same stride, 65536 divided by the tickets and rounded down
  a scheduler with one input
  a queue that holds fewer packets than one of its senders has in TRACE

The status is 0 with warnings too. A tree that is wrong has a fault, as 'check' tells it, and so has a TRACE that is
wrong or names a sender that the tree doesn't have, as 'run' tells it.

Examples:
  clickpull lint uplink.click
  clickpull lint uplink.click morning.trace";

fn lint<'a>(alloc: Global) -> Result<Command<'a>, AllocError>
    ensures { IfOk result (λ c. Reads c lint_words) }
{
    titled(alloc, "lint", LINT_DOES, LINT_MORE)?
        .arg(file(alloc, TREE, TREE_MEANS))?
        .arg(optional_file(alloc, TRACE, TRACE_MEANS))
}

const SCRIPT_MEANS: &str =
    "A file with a command a line: 'send S L', 'pull M' or 'pull M D', or at the end 'drain M'";

const SCRIPT_DOES: &str = "Runs a script over a tree, and prints what becomes of each packet";

const SCRIPT_MORE: &str = "\
Commands of a script:
  send S L  sender S offers its next packet, of L bytes (1 to 65535), to its queue
  pull M    the link pulls at moment M, in ticks (0 to 1099511627775)
  pull M D  pulls device D (from 0, in order of declaration) at moment M; 'pull M' pulls device 0
  drain M   the link pulls one tick apart until every packet is out, first one tick after M, or after the moment so
            far where that is later; then each sender is accounted for

Blank lines are skipped, and there are no comments.

Of a tree with several devices the line of a pull names the device, as 'pull 3 1: none', and a drain empties them
one after the other, each first one tick after M, or after its own moment so far where that is later.

The tree is read and checked before the script is opened, and the whole script before anything is printed.
With --visits FILE the log of its pulls is written to FILE after the answer, as CSV with a row for each visit
that a scheduler or the link made. A file that is there is overwritten. FILE can't be the tree or the script,
nor a file that standard input or output leads to.

Examples:
  clickpull script uplink.click morning.script
  clickpull script --visits morning.csv uplink.click morning.script";

const VISITS_MEANS: &str =
    "Writes the log of the visits to FILE, as CSV; '-' is standard output, after the answer";

fn script<'a>(alloc: Global) -> Result<Command<'a>, AllocError>
    ensures { IfOk result (λ c. Reads c script_words) }
{
    titled(alloc, "script", SCRIPT_DOES, SCRIPT_MORE)?
        .arg(file(alloc, TREE, TREE_MEANS))?
        .arg(file(alloc, SCRIPT, SCRIPT_MEANS))?
        .arg(file_option(alloc, VISITS, VISITS_MEANS))
}

const TRACE_MEANS: &str = "A file with a record a line, 'S,L': sender S sends a packet of L bytes";

const STEP_MEANS: &str = "Pulls each device once every N ticks while senders send: 1 to 1000";

const LIMIT_MEANS: &str = "Pulls each device N times at most while senders send: 1 to 1000000";

const RUN_DOES: &str = "Runs a trace over a tree, each sender on a thread, and accounts for each";

const RUN_MORE: &str = "\
Each sender has a thread of its own, and offers its packets of the trace in order, as fast as it can. Meanwhile
each device is pulled, first at moment N of --step, until all have sent what they send or it was pulled as often
as --limit lets it. Then the devices are emptied one after the other, each pulled one tick apart until every
packet is out, and each sender is accounted for. Most trees have one device, the link.

How the senders' packets mix, and which of them a full queue refuses or drops, may differ from run to run. Where
the queues have room for all that is sent, the report is the same in each.

A record of the trace has sender S (0 to 65535) send a packet of L bytes (1 to 65535). The tree is read and
checked before the trace is opened, and the whole trace before anything is sent. With --visits FILE the log of
the pulls is written to FILE after the report, as CSV with a row for each visit that a scheduler or a device
made. A file that is there is overwritten. FILE can't be the tree or the trace, nor a file that standard input or
output leads to.

Examples:
  clickpull run uplink.click morning.trace
  clickpull run --step 10 --limit 100000 --visits morning.csv uplink.click morning.trace";

fn run<'a>(alloc: Global) -> Result<Command<'a>, AllocError>
    ensures { IfOk result (λ c. Reads c run_words) }
{
    traced(alloc, "run", RUN_DOES, RUN_MORE)?.arg(file_option(alloc, VISITS, VISITS_MEANS))
}

const RECORD_MEANS: &str = "Writes the record of the run to FILE, as a script";

const LIVE_DOES: &str =
    "Runs a trace as 'run' does, but through inlets, so that it can be recorded";

const LIVE_MORE: &str = "\
Each sender has a thread of its own, and offers its packets of the trace in order, as fast as it can, to an inlet
of its own: a ring of 1024 packets. While that is full, the sender waits. One consumer takes the packets from
all inlets, puts them into the queues and pulls the devices. So all that happens has one order, and a run can be
recorded and replayed.

The consumer works in rounds. In each it takes at most 64 packets of each sender. Then it pulls each device once,
first at moment N of --step, until all have sent what they send or it was pulled as often as --limit lets it. Then
the devices are emptied one after the other, each pulled one tick apart until every packet is out, and each sender
is accounted for. 'run' and 'live' may differ in which packets a full queue refuses or drops.

With --record FILE all that happens while senders send is written to FILE, as a script that ends with 'drain 0'.
'clickpull script TREE FILE' then prints what became of each packet, and ends in the same report. With --visits
FILE the record is replayed, and the log of its visits is written to FILE after the report, as by 'clickpull
script --visits'. A file that is there is overwritten. No FILE can be the tree, the trace, the other FILE, or a
file that standard input or output leads to. A record can't go to '-'.

A record has at most as many lines as a script, 1000000. With --record or --visits a run ends with fault 18
before a thread starts if the packets of the trace and --limit pulls of each device are 1000000 or more together.

Examples:
  clickpull live uplink.click morning.trace
  clickpull live --record morning.script uplink.click morning.trace
  clickpull script uplink.click morning.script";

fn live<'a>(alloc: Global) -> Result<Command<'a>, AllocError>
    ensures { IfOk result (λ c. Reads c live_words) }
{
    traced(alloc, "live", LIVE_DOES, LIVE_MORE)?
        .arg(file_option(alloc, RECORD, RECORD_MEANS))?
        .arg(file_option(alloc, VISITS, VISITS_MEANS))
}

/// A command that runs a trace over a tree at a pace.
fn traced<'a>(
    alloc: Global,
    name: &'a str,
    about: &'a str,
    more: &'a str,
) -> Result<Command<'a>, AllocError>
    ensures { IfOk result (λ c. Reads c (traced_words name.now)) }
{
    titled(alloc, name, about, more)?
        .arg(file(alloc, TREE, TREE_MEANS))?
        .arg(file(alloc, TRACE, TRACE_MEANS))?
        .arg(number(alloc, STEP, MAX_STEP, "1", STEP_MEANS))?
        .arg(number(alloc, LIMIT, MAX_LIMIT, "1000", LIMIT_MEANS))
}

/// An option that names a file.
fn file_option<'a>(alloc: Global, name: &'a str, help: &'a str) -> Arg<'a>
    ensures { IsWord result (file_option name.now) }
{
    Arg::new(alloc, name)
        .long(name)
        .value_name("FILE")
        .help(help)
}

/// An option that is a number from 1 to `most`.
fn number<'a>(alloc: Global, name: &'a str, most: u32, default: &'a str, help: &'a str) -> Arg<'a>
    ensures { IsWord result (number_option name.now most default.now) }
{
    Arg::new(alloc, name)
        .long(name)
        .value_name("N")
        .value_parser(value_parser!(u32).range(1..=i64::from(most)))
        .default_value(default)
        .help(help)
}

/// A word that names a file.
fn file<'a>(alloc: Global, name: &'a str, help: &'a str) -> Arg<'a>
    ensures { IsWord result (file_word name.now) }
{
    Arg::new(alloc, name).required(true).help(help)
}

/// A word that names a file, and may be left out.
fn optional_file<'a>(alloc: Global, name: &'a str, help: &'a str) -> Arg<'a>
    ensures { IsWord result (new_rule name.now) }
{
    Arg::new(alloc, name).help(help)
}
