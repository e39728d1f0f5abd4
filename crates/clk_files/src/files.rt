//! Files that are opened when they are first read or written, so that a file is opened only after all before it was sound.

ghost use Rattle.std.specs.Prelude.{◌≡◌, ◌≤◌, length, IfOk};

use crate::heard::{Heard, Recalled};
use clk_packet::{FromRead, Source, ToWrite};
use std::cell::Cell;
use std::fs;
use std::io::{Error, Read, Result, Write};
use std::rt::Files;

/// What a task has a file for.
#[derive(Clone, Copy)]
pub enum Purpose {
    /// Its tree.
    Tree,
    /// Its script or trace.
    Input,
    /// The record of its run.
    Record,
    /// Its visits.
    Visits,
}

/// The last failure of a file.
#[derive(Clone, Copy)]
pub struct Failure {
    /// What the file is for.
    pub purpose: Purpose,
    /// Why it failed.
    pub error: Error,
}

/// Opens the files of a task by their paths. Keeps the last failure of one of them, and what the inputs give if that is to be kept.
#[derive(Drop)]
pub struct Opener<'a, H: Files> {
    pub rt: &'a H,
    pub failure: &'a Cell<Option<Failure>>,
    pub tree: &'a Heard,
    pub input: &'a Heard,
}

/// A file to read, as a source.
type Text<'a, H> = Recalled<'a, FromRead<FileToRead<'a, H>>>;

impl<'a, H: Files> Opener<'a, H> {
    /// A source of the tree at a path. It has not failed yet.
    pub fn tree_at(&self, path: &'a str) -> Text<'a, H>
        ensures { ⟦<Recalled<'a, FromRead<FileToRead<'a, H>>> as Source>⟧.failures result ≡ 0 }
    {
        Recalled::new(self.source(path, Purpose::Tree), self.tree)
    }

    /// A source of the script or the trace at a path. It has not failed yet.
    pub fn input_at(&self, path: &'a str) -> Text<'a, H>
        ensures { ⟦<Recalled<'a, FromRead<FileToRead<'a, H>>> as Source>⟧.failures result ≡ 0 }
    {
        Recalled::new(self.source(path, Purpose::Input), self.input)
    }

    /// A sink that writes the record of a run to the file at a path.
    pub fn record_at(&self, path: &'a str) -> ToWrite<FileToWrite<'a, H>> {
        self.sink(path, Purpose::Record)
    }

    /// A sink that writes visits to the file at a path.
    pub fn visits_at(&self, path: &'a str) -> ToWrite<FileToWrite<'a, H>> {
        self.sink(path, Purpose::Visits)
    }

    fn source(&self, path: &'a str, purpose: Purpose) -> FromRead<FileToRead<'a, H>>
        ensures { ⟦<FromRead<FileToRead<'a, H>> as Source>⟧.failures result ≡ 0 }
    {
        FromRead::new(FileToRead {
            rt: self.rt,
            notes: self.notes(purpose),
            path,
            file: None,
        })
    }

    fn sink(&self, path: &'a str, purpose: Purpose) -> ToWrite<FileToWrite<'a, H>> {
        ToWrite::new(FileToWrite {
            rt: self.rt,
            notes: self.notes(purpose),
            path,
            file: None,
        })
    }

    fn notes(&self, purpose: Purpose) -> Notes<'a> {
        Notes {
            purpose,
            failure: self.failure,
        }
    }
}

/// Where the failures of a file are kept.
#[derive(Clone, Copy)]
struct Notes<'a> {
    purpose: Purpose,
    failure: &'a Cell<Option<Failure>>,
}

impl<'a> Notes<'a> {
    /// Keeps why the file failed, if it did.
    fn noted<T>(self, done: Result<T>) -> Result<T>
        ensures { result ≡ done }
    {
        if let Err(error) = &done {
            self.failure.set(Some(Failure {
                purpose: self.purpose,
                error: *error,
            }));
        }
        done
    }
}

/// A file to read. Its first read opens it, and fails if it can't be opened.
#[derive(Drop)]
pub struct FileToRead<'a, H: Files> {
    rt: &'a H,
    notes: Notes<'a>,
    path: &'a str,
    file: Option<H::File>,
}

impl<'a, H: Files> FileToRead<'a, H> {
    /// Reads, and opens the file at the first read.
    fn read_file(&mut self, buf: &mut [u8]) -> Result<usize>
        ensures bound { IfOk result (λ n. n ≤ length buf.new) }
    {
        if let Some(file) = &mut self.file {
            return file.read(buf);
        }
        let mut file = fs::open(self.rt, self.path)?;
        let count = file.read(buf)?;
        self.file = Some(file);
        Ok(count)
    }
}

impl<'a, H: Files> Read for FileToRead<'a, H> {
    fn read(&mut self, buf: &mut [u8]) -> Result<usize> {
        let done = self.read_file(buf);
        self.notes.noted(done)
    }
}

/// A file to write. Its first write creates it, or overwrites it if it exists, and fails if it can't be created.
#[derive(Drop)]
pub struct FileToWrite<'a, H: Files> {
    rt: &'a H,
    notes: Notes<'a>,
    path: &'a str,
    file: Option<H::File>,
}

impl<'a, H: Files> FileToWrite<'a, H> {
    /// Writes, and creates the file at the first write.
    fn write_file(&mut self, buf: &[u8]) -> Result<usize>
        ensures bound { IfOk result (λ n. n ≤ length buf.now) }
    {
        if let Some(file) = &mut self.file {
            return file.write(buf);
        }
        let mut file = fs::create(self.rt, self.path)?;
        let count = file.write(buf)?;
        self.file = Some(file);
        Ok(count)
    }
}

impl<'a, H: Files> Write for FileToWrite<'a, H> {
    fn write(&mut self, buf: &[u8]) -> Result<usize> {
        let done = self.write_file(buf);
        self.notes.noted(done)
    }

    fn flush(&mut self) -> Result<()> {
        match &mut self.file {
            Some(file) => self.notes.noted(file.flush()),
            None => Ok(()),
        }
    }
}
