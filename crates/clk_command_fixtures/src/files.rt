//! Files of the tests, in a folder of built files, which isn't kept.

use crate::answers::Difference;
use std::fs;
use std::io::{self, AsBytes};
use std::rt::Files;

/// Writes a file below `out/`, a folder that doesn't exist where the gate runs the tests.
pub fn write<C: AsBytes + Drop>(rt: &impl Files, path: &str, contents: C) -> io::Result<()> {
    fs::create_dir_all(rt, "out")?;
    fs::write(rt, path, contents)
}

/// Writes files, each with its path and its contents.
pub fn write_all(rt: &impl Files, files: &[(&str, &str)]) -> io::Result<()> {
    for (path, text) in files {
        write(rt, path, *text)?;
    }
    Ok(())
}

/// Returns the first file that hasn't these contents, or that exists where it has `None`.
pub fn compare_files(
    rt: &(impl Files + AllocGlobal),
    files: &[(&'static str, Option<&str>)],
) -> Option<Difference> {
    for (path, text) in files {
        let found = fs::read(rt, path).ok();
        if found.as_deref() != text.map(str::as_bytes) {
            return Some(Difference::Left(path));
        }
    }
    None
}
