//! Which files a task may have: at most one input is standard input, and files that are written are others than those that are read. Visits
//! may go to standard output.

ghost use Rattle.std.specs.Prelude.{◌≡◌, ◌≢◌, ◌∷◌, [], None, Some, true, false, map, option_map, IsSome};
ghost use Rattle.clk_words.specs.Words.{go_to_file, task, work, text_of, writes_file, AreApart, GoApartFrom, IsApartFrom, MayClash, WritesApart};

use clk_words::{Asked, DASH, Job, is_standard};
use std::fs::{self, Metadata};
use std::os::unix::fs::MetadataExt;
use std::path::Path;
use std::rt::Files;

/// Why no task can have the files that the words name.
#[derive(Clone, Copy)]
pub enum Clash<'a> {
    /// Both inputs are standard input.
    TwoInputs,
    /// A record would go to standard output.
    RecordOut,
    /// The file at this path would be overwritten, though another of the words names it too, or standard input or output leads to it.
    Overwritten(&'a str),
}

/// Why a task can't have the files that the words name, if it can't.
pub fn clash_of<'a, H: Files>(rt: &H, asked: Asked<'a>) -> Option<Clash<'a>>
    ensures apart { result ≡ None → AreApart (task asked.entry) }
    ensures clashes { IsSome result → MayClash (task asked.entry) }
{
    let Asked::Over { tree, input, job } = asked else {
        return None;
    };
    if is_standard(tree) && is_standard(input) {
        return Some(Clash::TwoInputs);
    }
    match overwritten(rt, tree, input, job) {
        // Visits may go to standard output, so this is the path of a record.
        Some(path) if is_standard(path) => Some(Clash::RecordOut),
        Some(path) => Some(Clash::Overwritten(path)),
        None => None,
    }
}

/// The path of a file that would be overwritten, or that of a record which would go to standard output, if there is one.
fn overwritten<'a, H: Files>(rt: &H, tree: &str, input: &str, job: Job<'a>) -> Option<&'a str>
    ensures apart { result ≡ None → WritesApart (work job.entry) (tree.now ∷ input.now ∷ []) }
    ensures writes { IsSome result → writes_file (work job.entry) ≡ true }
{
    match job {
        Job::LintTrace => None,
        Job::Script { visits } => visits_among(rt, visits, &[tree, input]),
        Job::Run { visits, .. } => visits_among(rt, visits, &[tree, input]),
        Job::Live {
            record: None,
            visits,
            ..
        } => visits_among(rt, visits, &[tree, input]),
        Job::Live {
            record: Some(record),
            visits,
            ..
        } => {
            if is_among(rt, record, &[DASH, tree, input]) || is_redirected(rt, record) {
                return Some(record);
            }
            visits_among(rt, visits, &[record, tree, input])
        }
    }
}

/// The path of visits, if it is asked for and that of a file which is one of the files at other paths.
fn visits_among<'a, H: Files>(rt: &H, visits: Option<&'a str>, others: &[&str]) -> Option<&'a str>
    ensures apart { result ≡ None → GoApartFrom (option_map text_of visits.entry) (map text_of others.now) }
    ensures writes { IsSome result → go_to_file (option_map text_of visits.entry) ≡ true }
{
    let path = visits?;
    if !is_standard(path) && (is_among(rt, path, others) || is_redirected(rt, path)) {
        return Some(path);
    }
    None
}

/// Whether a path leads to a regular file from which standard input is read, or to which standard output is written.
fn is_redirected<H: Files>(rt: &H, path: &str) -> bool {
    leads_to_stream(rt, path, "/dev/stdin") || leads_to_stream(rt, path, "/dev/stdout")
}

/// Whether a path leads to the regular file to which a standard stream leads. Without `/proc` a stream's path leads nowhere.
fn leads_to_stream<H: Files>(rt: &H, path: &str, stream: &str) -> bool {
    fs::metadata(rt, stream).is_ok() && lead_to_one_file(rt, path, stream)
}

/// Whether a file is one of the files at other paths.
fn is_among<H: Files>(rt: &H, path: &str, others: &[&str]) -> bool
    ensures apart { result ≡ false → IsApartFrom path.now (map text_of others.now) }
{
    let [first, rest @ ..] = others else {
        return false;
    };
    is_one_file(rt, path, first) || is_among(rt, path, rest)
}

/// Whether two paths name one file: they are equal, or lead to one file. The other may be `-`, which leads to none.
fn is_one_file<H: Files>(rt: &H, path: &str, other: &str) -> bool
    ensures apart { result ≡ false → path.now ≢ other.now }
{
    path == other || (!is_standard(other) && lead_to_one_file(rt, path, other))
}

/// Whether there is a regular file to which both paths lead; or none yet, and both may lead to the same new one.
fn lead_to_one_file<H: Files>(rt: &H, path: &str, other: &str) -> bool {
    match (fs::metadata(rt, path), fs::metadata(rt, other)) {
        (Ok(one), Ok(two)) => one.is_file() && is_same(&one, &two),
        (Err(_), Err(_)) => {
            is_link(rt, path)
                || is_link(rt, other)
                || name_one_new_file(rt, Path::new(path), Path::new(other))
        }
        _ => false,
    }
}

/// Whether there is a link at a path that leads to no file. It may lead to any new one.
fn is_link<H: Files>(rt: &H, path: &str) -> bool {
    fs::symlink_metadata(rt, path).is_ok()
}

/// Whether two paths end in one name, in one folder.
fn name_one_new_file<H: Files>(rt: &H, path: Path<'_>, other: Path<'_>) -> bool {
    if path.file_name() != other.file_name() {
        return false;
    }
    match (folder_of(rt, path), folder_of(rt, other)) {
        (Some(one), Some(two)) => is_same(&one, &two),
        _ => false,
    }
}

/// The folder of a file at a path, if it is there.
fn folder_of<H: Files>(rt: &H, path: Path<'_>) -> Option<Metadata> {
    let folder = path.parent()?;
    let is_here = folder.as_os_str().is_empty();
    fs::metadata(rt, if is_here { Path::new(".") } else { folder }).ok()
}

/// Whether these are of one file, or of one folder.
fn is_same(one: &Metadata, two: &Metadata) -> bool {
    (one.dev(), one.ino()) == (two.dev(), two.ino())
}
