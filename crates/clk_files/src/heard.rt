//! What sources give, kept for an explanation.

ghost use Rattle.std.specs.Prelude.{◌≡◌};

use clk_packet::{Failed, FromRead, Source};
use std::alloc::Global;
use std::cell::{Cell, Ref, RefCell};

/// What a source gives, if it is to be kept.
#[derive(Drop)]
pub struct Heard {
    is_read: Cell<bool>,
    is_kept: Cell<bool>,
    text: RefCell<Vec<u8>>,
}

impl Heard {
    /// Nothing was read, and nothing is to be kept.
    pub fn nothing(alloc: Global) -> Heard {
        Heard {
            is_read: Cell::new(false),
            is_kept: Cell::new(false),
            text: RefCell::new(Vec::new(alloc)),
        }
    }

    /// Keeps what the source gives from now on, and forgets what it gave before.
    pub fn keep(&self) {
        self.is_read.set(false);
        let is_empty = match self.text.try_borrow_mut() {
            Ok(mut text) => {
                text.clear();
                true
            }
            Err(_) => false,
        };
        self.is_kept.set(is_empty);
    }

    /// Whether the source was read since then.
    pub fn is_read(&self) -> bool {
        self.is_read.get()
    }

    /// All that the source has given, if it was kept.
    pub fn text(&self) -> Option<Ref<'_, Vec<u8>>> {
        if !self.is_kept.get() {
            return None;
        }
        self.text.try_borrow().ok()
    }

    /// Keeps what the source gave, if it is to be kept. If an allocation fails, nothing more is kept, and `text` is `None` from then on.
    fn add(&self, bytes: &[u8]) {
        if !self.is_kept.get() {
            return;
        }
        let added = match self.text.try_borrow_mut() {
            Ok(mut text) => text.extend_from_slice(bytes).is_ok(),
            Err(_) => false,
        };
        self.is_kept.set(added);
    }
}

/// A source that may keep what it gives, so that a fault of its text can be explained.
pub trait Recalls {
    /// What it gives, if it can keep that.
    fn heard(&self) -> Option<&Heard> {
        None
    }
}

impl<R> Recalls for FromRead<R> {}

/// A source that can keep what it gives. It owns the other source: of a `&mut` in a struct nothing could be proved where a generic call has
/// the struct as `&mut`, since that call could exchange it.
#[derive(Drop)]
pub struct Recalled<'a, S> {
    source: S,
    heard: &'a Heard,
}

impl<'a, S: Source> Recalled<'a, S> {
    /// A source that gives what another gives, and keeps it in `heard` if it is to be kept there.
    pub fn new(source: S, heard: &'a Heard) -> Recalled<'a, S>
        ensures remaining { ⟦<Recalled<'a, S> as Source>⟧.remaining result ≡ S.Source.remaining source }
        ensures failures { ⟦<Recalled<'a, S> as Source>⟧.failures result ≡ S.Source.failures source }
    {
        Recalled { source, heard }
    }
}

impl<'a, S: Source> Source for Recalled<'a, S> {
    ghost remaining = { λ s. S.Source.remaining s.source };

    ghost failures = { λ s. S.Source.failures s.source };

    fn read(&mut self, buf: &mut [u8]) -> Result<usize, Failed> {
        self.heard.is_read.set(true);
        let count = self.source.read(buf)?;
        let (given, _) = buf.split_at(count);
        self.heard.add(given);
        Ok(count)
    }
}

impl<'a, S> Recalls for Recalled<'a, S> {
    fn heard(&self) -> Option<&Heard> {
        Some(self.heard)
    }
}
