//! The log of a session: every visit so far, kept in memory or not.

ghost use Rattle.std.specs.Prelude.{◌≡◌, ℕ, ◌+◌, ◌-◌, ◌≤◌, ◌<◌, ◌^◌, ◌++◌, ◌∷◌, true, false, [], length, OnOk, IsOk};
ghost use Rattle.std.specs.Vec.{vec_len, vec_capacity};
ghost use Rattle.clk_sched.specs.Packed.{logged, HasRoomFor};
ghost use Rattle.clk_sched.specs.inside.Logged.{idle_visits};

use crate::session::all::AllVisits;
use crate::session::idle::IdleInputs;
use crate::session::keeps::Keeps;
use crate::session::packed::PackedLog;
use crate::visit::Visit;
use std::alloc::{AllocError, Global};
use std::marker::Model;

/// Every visit so far, in order. In a log that keeps no visits they are ghost state and occupy no memory.
#[derive(Drop)]
pub struct Log {
    kept: Vec<Visit>,
    keeps: bool,
    packed: PackedLog,
    packs: bool,
    // The visits of the latest pull, if they are kept.
    latest: Vec<Visit>,
    keeps_latest: bool,
    // Whether visits are kept in any of the three ways: one test for each visit.
    keeps_any: bool,
    all: AllVisits,
}

impl Model for Log {
    ghost use Rattle.std.specs.Prelude.{◌≡◌, ◌+◌, ◌≤◌, ◌||◌, true, false, [], drop, length};
    ghost use Rattle.std.specs.Vec.{vec_len, vec_capacity};
    ghost use Rattle.clk_sched.specs.Packed.{logged, HasRoomFor};
    ghost use Rattle.clk_sched.specs.inside.Logged.{Logged};

    ghost Value = { Logged };

    ghost view = { λ l. record {
      items = l.all.items;
      spare = l.all.spare;
      kind = record { keeps = l.keeps; packs = l.packs; gone = l.all.gone; latest = l.keeps_latest; start = l.all.start; room = vec_capacity l.latest };
    } };

    ghost invariant = { λ l. (l.all.gone ≤ length l.all.items)
        × (l.keeps ≡ true → (l.kept.items ≡ drop l.all.gone l.all.items) × (vec_len l.kept + l.all.spare ≤ vec_capacity l.kept))
        × (l.packs ≡ true → (logged l.packed ≡ drop l.all.gone l.all.items) × HasRoomFor l.all.spare l.packed)
        × (l.all.start ≤ length l.all.items)
        × (l.keeps_latest ≡ true → (l.latest.items ≡ drop l.all.start l.all.items) × (vec_len l.latest + l.all.spare ≤ vec_capacity l.latest))
        × (l.keeps_any ≡ (l.keeps || (l.packs || l.keeps_latest)))
        × (l.keeps ≡ false → l.kept.items ≡ [])
        × (l.keeps_latest ≡ false → l.latest.items ≡ []) };
}

impl Log {
    ghost use Rattle.std.specs.Prelude.{◌≡◌, ◌+◌, ◌^◌, ◌<◌, ◌≤◌, ◌||◌, true, false, [], drop, length, IfOk, OnOk, OnErr, IsOk};
    ghost use Rattle.clk_sched.specs.Packed.{logged};
    ghost use Rattle.clk_sched.specs.inside.Logged.{kind_made, with_visit, with_visits, with_idle, with_pull, with_none};
    ghost use Rattle.std.specs.Prelude.{List};
    ghost use Rattle.clk_sched.specs.declared.visit.Visit.{Visit};

    /// No visits so far. Visits will be kept as a list, packed, or not at all. If those of the latest pull are kept, there is memory for so
    /// many.
    ///
    /// # Errors
    ///
    /// If an allocation fails.
    pub fn new(alloc: Global, keeps: Keeps, visits: usize) -> Result<Log, AllocError>
        ensures made { IfOk result (λ l. l ≡ record { items = []; spare = 0; kind = kind_made keeps l.kind.room }) }
        ensures room { IfOk result (λ l. keeps.latest ≡ true → visits ≤ l.kind.room) }
    {
        let mut latest = Vec::new(alloc);
        if keeps.latest {
            latest.reserve(visits)?;
        }
        Ok(Log {
            kept: Vec::new(alloc),
            keeps: keeps.visits,
            packed: PackedLog::new(alloc),
            packs: keeps.packed,
            latest,
            keeps_latest: keeps.latest,
            keeps_any: keeps.visits || keeps.packed || keeps.latest,
            all: AllVisits::none(),
        })
    }

    /// Begins a pull, with room for so many visits.
    ///
    /// # Errors
    ///
    /// If an allocation fails. A log that doesn't keep all visits allocates nothing.
    #[inline]
    pub fn begin(&mut self, visits: usize) -> Result<(), AllocError>
        requires room { self.old.kind.latest ≡ true → visits ≤ self.old.kind.room }
        ensures ready { OnOk result (self.new ≡ with_pull self.old visits) }
        ensures few { OnOk result (self.old.kind.keeps || self.old.kind.packs ≡ true → self.old.kind.gone ≡ 0 → length self.old.items + visits < 2 ^ 63) }
        ensures unkept { self.old.kind.keeps || self.old.kind.packs ≡ false → IsOk result }
        ensures refused { OnErr result (self.new ≡ self.old) }
    {
        if self.keeps_any {
            return self.begin_kept(visits);
        }
        self.all.begin(&visits);
        Ok(())
    }

    // Begins a pull of whose visits some are kept. A call of its own, as `push_kept` is.
    #[inline(never)]
    fn begin_kept(&mut self, visits: usize) -> Result<(), AllocError>
        requires room { self.old.kind.latest ≡ true → visits ≤ self.old.kind.room }
        ensures ready { OnOk result (self.new ≡ with_pull self.old visits) }
        ensures few { OnOk result (self.old.kind.keeps || self.old.kind.packs ≡ true → self.old.kind.gone ≡ 0 → length self.old.items + visits < 2 ^ 63) }
        ensures unkept { self.old.kind.keeps || self.old.kind.packs ≡ false → IsOk result }
        ensures refused { OnErr result (self.new ≡ self.old) }
    {
        reserve_kept(&mut self.kept, self.keeps, visits)?;
        reserve_packed(&mut self.packed, self.packs, visits)?;
        if self.keeps_latest {
            self.latest.clear();
        }
        self.all.begin(&visits);
        Ok(())
    }

    /// Allocates memory for so many more visits, if they are kept packed. Contracts see no change: `begin` makes room for a pull.
    ///
    /// # Errors
    ///
    /// If an allocation fails.
    pub fn reserve_packed(&mut self, visits: usize) -> Result<(), AllocError>
        ensures { self.new ≡ self.old }
    {
        if !self.packs {
            return Ok(());
        }
        self.packed.reserve_packed(visits)
    }

    /// Whether visits are kept, all or those of the latest pull.
    #[inline]
    pub fn keeps_any(&self) -> bool
        ensures { result ≡ (self.now.kind.keeps || (self.now.kind.packs || self.now.kind.latest)) }
    {
        self.keeps_any
    }

    /// Adds a visit that isn't kept: only contracts see it.
    #[inline]
    pub fn pass(&mut self, visit: &Visit)
        requires unkept { self.old.kind.keeps || (self.old.kind.packs || self.old.kind.latest) ≡ false }
        requires room { 1 ≤ self.old.spare }
        ensures { self.new ≡ with_visit self.old visit.now }
    {
        self.all.push(visit);
    }

    /// Adds visits that aren't kept, and that no code holds: only contracts see them.
    #[inline]
    pub fn pass_all(&mut self)
        ghost visits: { List Visit }
        requires unkept { self.old.kind.keeps || (self.old.kind.packs || self.old.kind.latest) ≡ false }
        ensures { self.new ≡ with_visits self.old visits }
    {
        self.all.push_all();
    }

    /// Adds a visit, for which there is room.
    #[inline]
    pub fn push(&mut self, visit: Visit)
        requires { 1 ≤ self.old.spare }
        ensures { self.new ≡ with_visit self.old visit }
    {
        if self.keeps_any {
            self.push_kept(visit);
        } else {
            self.pass(&visit);
        }
    }

    // Adds a visit to what is kept. It is a call of its own, so that a pull whose visits aren't kept puts none together.
    #[inline(never)]
    fn push_kept(&mut self, visit: Visit)
        requires { 1 ≤ self.old.spare }
        ensures { self.new ≡ with_visit self.old visit }
    {
        keep(&mut self.kept, self.keeps, visit);
        pack(&mut self.packed, self.packs, visit);
        keep(&mut self.latest, self.keeps_latest, visit);
        self.all.push(&visit);
    }

    /// Adds the visits of inputs that gave nothing, which aren't kept: only contracts see them.
    #[inline]
    pub fn pass_idle(&mut self, idle: &IdleInputs)
        requires unkept { self.old.kind.keeps || (self.old.kind.packs || self.old.kind.latest) ≡ false }
        requires room { idle.now.count ≤ self.old.spare }
        requires within { idle.now.first + idle.now.count < 2 ^ 16 }
        ensures { self.new ≡ with_idle self.old idle.now }
    {
        self.all.push_idle(idle);
    }

    /// Adds the visits of inputs that gave nothing, for which there is room.
    pub fn push_idle(&mut self, idle: &IdleInputs)
        requires room { idle.now.count ≤ self.old.spare }
        requires within { idle.now.first + idle.now.count < 2 ^ 16 }
        ensures { self.new ≡ with_idle self.old idle.now }
    {
        if self.keeps {
            keep_idle(&mut self.kept, idle);
        }
        if self.packs {
            self.packed.push_idle(idle);
        }
        if self.keeps_latest {
            keep_idle(&mut self.latest, idle);
        }
        self.all.push_idle(idle);
    }

    /// Drops the visits that were kept so far, but not those of the latest pull. Keeps their memory for visits to come.
    pub fn let_go(&mut self)
        ensures { self.new ≡ with_none self.old }
    {
        self.kept.clear();
        self.packed.clear();
        self.all.let_go();
    }

    /// The visits that are kept as a list, in order: none if they aren't.
    pub fn kept(&self) -> &[Visit]
        ensures kept { self.now.kind.keeps ≡ true → result.now ≡ drop self.now.kind.gone self.now.items }
        ensures none { self.now.kind.keeps ≡ false → result.now ≡ [] }
    {
        self.kept.as_slice()
    }

    /// The visits of the latest pull, if these are kept, and else none.
    pub fn latest(&self) -> &[Visit]
        ensures kept { self.now.kind.latest ≡ true → result.now ≡ drop self.now.kind.start self.now.items }
        ensures none { self.now.kind.latest ≡ false → result.now ≡ [] }
    {
        self.latest.as_slice()
    }

    /// The visits that are kept as a list, in order: none if they aren't. Does not allocate.
    pub fn into_kept(self) -> Vec<Visit>
        ensures kept { self.kind.keeps ≡ true → result.items ≡ drop self.kind.gone self.items }
        ensures none { self.kind.keeps ≡ false → result.items ≡ [] }
    {
        let Log { kept, .. } = self;
        kept
    }

    /// The visits that are kept, in order, packed if they are kept packed: none if they aren't. Does not allocate.
    pub fn into_packed(self, alloc: Global) -> PackedLog
        ensures kept { self.kind.keeps || self.kind.packs ≡ true → logged result ≡ drop self.kind.gone self.items }
        ensures none { self.kind.keeps || self.kind.packs ≡ false → logged result ≡ [] }
    {
        let Log {
            kept,
            packed,
            packs,
            ..
        } = self;
        if packs {
            return packed;
        }
        PackedLog::of(alloc, kept)
    }
}

/// Makes room for so many more visits in a list, if visits are kept as a list.
#[inline]
fn reserve_kept(kept: &mut Vec<Visit>, keeps: bool, visits: usize) -> Result<(), AllocError>
    ensures room { OnOk result (keeps ≡ true → vec_len kept.new + visits ≤ vec_capacity kept.new) }
    ensures items { kept.new.items ≡ kept.old.items }
    ensures len { vec_len kept.new ≡ vec_len kept.old }
    ensures capacity { vec_capacity kept.old ≤ vec_capacity kept.new }
    ensures unkept { keeps ≡ false → IsOk result }
{
    if !keeps {
        return Ok(());
    }
    kept.reserve(visits)
}

/// Makes room for so many more visits in a packed log, if visits are kept packed.
#[inline]
fn reserve_packed(packed: &mut PackedLog, packs: bool, visits: usize) -> Result<(), AllocError>
    ensures room { OnOk result (packs ≡ true → HasRoomFor visits packed.new) }
    ensures few { OnOk result (packs ≡ true → length (logged packed.new) + visits < 2 ^ 63) }
    ensures visits { logged packed.new ≡ logged packed.old }
    ensures no_less { (n : ℕ) → HasRoomFor n packed.old → HasRoomFor n packed.new }
    ensures unpacked { packs ≡ false → IsOk result }
{
    if !packs {
        return Ok(());
    }
    packed.reserve(visits)
}

/// Adds a visit to a list, if visits are kept as a list.
#[inline]
fn keep(kept: &mut Vec<Visit>, keeps: bool, visit: Visit)
    requires { keeps ≡ true → vec_len kept.old < vec_capacity kept.old }
    ensures items { keeps ≡ true → kept.new.items ≡ kept.old.items ++ visit ∷ [] }
    ensures unkept { keeps ≡ false → kept.new.items ≡ kept.old.items }
    ensures len { keeps ≡ true → vec_len kept.new ≡ vec_len kept.old + 1 }
    ensures capacity { vec_capacity kept.new ≡ vec_capacity kept.old }
{
    if keeps {
        kept.push_reserved(visit);
    }
}

/// Adds a visit to a packed log, if visits are kept packed.
#[inline]
fn pack(packed: &mut PackedLog, packs: bool, visit: Visit)
    requires { packs ≡ true → HasRoomFor 1 packed.old }
    ensures visits { packs ≡ true → logged packed.new ≡ logged packed.old ++ visit ∷ [] }
    ensures room { packs ≡ true → (n : ℕ) → HasRoomFor n packed.old → HasRoomFor (n - 1) packed.new }
{
    if packs {
        packed.push(visit);
    }
}

/// Keeps the visits of inputs that gave nothing, for which there is room.
fn keep_idle(kept: &mut Vec<Visit>, idle: &IdleInputs)
    requires room { vec_len kept.old + idle.now.count ≤ vec_capacity kept.old }
    requires within { idle.now.first + idle.now.count < 2 ^ 16 }
    ensures items { kept.new.items ≡ kept.old.items ++ idle_visits idle.now }
    ensures len { vec_len kept.new ≡ vec_len kept.old + idle.now.count }
    ensures capacity { vec_capacity kept.new ≡ vec_capacity kept.old }
{
    for place in 0..idle.count {
        kept.push_reserved(idle.visit(place));
    }
}
