//! The heads, deficits and cursor of a DRRSched.

ghost use Rattle.std.specs.Prelude.{◌≡◌, ◌+◌, ◌^◌, ◌<◌, ◌≤◌, false, length, map, slice_get, slice_set, Some, None, IfOk};
ghost use Rattle.clk_packet.specs.declared.limits.TheConstants.{MAX_INPUTS, MAX_QUANTUM};
ghost use Rattle.clk_sched.specs.inside.Holds.Served.{AreQuantaWithin, AreDeficitsWithin, AreIdleWithoutDeficits, IsArrivedAt, IsWithoutDeficit, waiting};
ghost use Rattle.clk_sched.specs.declared.session.drr.Served.{Served};

use crate::ask::Ask;
use crate::session::got::Got;
use crate::session::inputs::input_after;
use crate::session::nodes::Nodes;
use crate::session::state::State;
use crate::visit::Visit;
use clk_packet::Packet;
use std::alloc::{AllocError, Global};

/// What is held of one input.
#[derive(Clone, Copy, Debug)]
struct Served {
    quantum: u32,
    deficit: u32,
    // The packet that was got and isn't covered yet.
    head: Got,
}

/// The inputs of a DRRSched, and the cursor: the input whose turn it is.
#[derive(Drop)]
pub struct Deficits {
    cursor: u16,
    row: Vec<Served>,
    ghost few: { length row.items ≤ MAX_INPUTS },
    ghost cursor_within: { cursor < length row.items },
    ghost quanta_within: { AreQuantaWithin row.items },
    ghost deficits_within: { AreDeficitsWithin cursor row.items },
    ghost idle_without: { AreIdleWithoutDeficits cursor row.items },
}

impl Served {
    ghost use Rattle.std.specs.Prelude.{is_some};
    ghost use Rattle.clk_sched.specs.inside.Holds.Served.{settled, covers};

    fn waiting(quantum: u32) -> Served
        ensures { result ≡ waiting quantum }
    {
        Served {
            quantum,
            deficit: 0,
            head: Got::new(None),
        }
    }

    // Whether a packet is held.
    #[inline]
    fn is_held(&self) -> bool
        ensures { result ≡ is_some self.now.head }
    {
        self.head.packet().is_some()
    }

    // Takes what a visit got, by asking (fresh) or as the head that is held. Returns whether the deficit covers it. A packet that isn't
    // covered is held as the head.
    #[inline]
    fn settle(&mut self, got: Option<Packet>, fresh: bool) -> bool
        requires { fresh ≡ false → self.old.head ≡ got }
        ensures covers { result ≡ covers self.old got }
        ensures after { self.new ≡ settled self.old got }
    {
        match got {
            None => {
                self.deficit = 0;
                self.head = Got::new(None);
                false
            }
            Some(packet) => {
                let length = u32::from(packet.length);
                if length <= self.deficit {
                    self.deficit -= length;
                    self.head = Got::new(None);
                    true
                } else {
                    // A head that is held stays held, and nothing is written.
                    if fresh {
                        self.head = Got::new(got);
                    }
                    false
                }
            }
        }
    }
}

impl Deficits {
    ghost use Rattle.std.specs.Prelude.{◌%◌, ◌++◌, ℕ, List, [], ◌∷◌, is_some, true, IsSome, IfSome};
    ghost use Rattle.std.specs.List.{AllByRecursion, list_any};
    ghost use Rattle.clk_packet.specs.declared.limits.TheConstants.{MAX_LENGTH};
    ghost use Rattle.clk_sched.specs.declared.visit.Visit.{Visit};
    ghost use Rattle.clk_sched.specs.Heads.{head_at};
    ghost use Rattle.clk_sched.specs.Laws.Deficit.{next_input, deficit_covers};
    ghost use Rattle.clk_sched.specs.inside.Holds.Deficit.{HoldsDeficits};
    ghost use Rattle.clk_sched.specs.inside.Holds.Served.{settled};
    ghost use Rattle.clk_sched.specs.inside.Held.{heads_in};
    ghost use Rattle.std.specs.Global.{Box};
    ghost use Rattle.clk_sched.specs.declared.session.drr.Deficits.{Deficits};
    ghost use Rattle.clk_sched.specs.inside.Places.{edges_of, edges_at, input_at};
    ghost use Rattle.clk_sched.specs.inside.Pulling.{CanPull};
    ghost use Rattle.clk_sched.specs.inside.Turning.{WasPulled, HadTurn};
    ghost use Rattle.clk_sched.specs.inside.Holds.OfClass.{IsDrr};
    ghost use Rattle.clk_sched.specs.inside.Looking.{is_covered, looking, HoldsNoneAhead, IsHead, Logs, Settles, LooksAt, AreIdleAhead};
    ghost use Rattle.clk_sched.specs.inside.Making.{MayGoOn, GoesOnInVain};
    ghost use Rattle.clk_sched.specs.inside.Resting.{IsDrrAtRest};
    ghost use Rattle.clk_sched.specs.declared.session.state.State.TheVariants.{Drr};

    /// What a DRRSched with these quanta, one for each input, holds before its first visit.
    pub fn new(alloc: Global, quanta: &[u32]) -> Result<Deficits, AllocError>
        requires inputs { (1 ≤ length quanta.now) × (length quanta.now ≤ MAX_INPUTS) }
        requires quanta { AllByRecursion (λ n. (1 ≤ n) × (n ≤ MAX_QUANTUM)) quanta.now }
        ensures { IfOk result (λ d. HoldsDeficits quanta.now (length quanta.now) [] d) }
    {
        let mut row = all_waiting(alloc, quanta)?;
        add_quantum(row.as_mut_slice(), 0);
        Ok(Deficits { cursor: 0, row })
    }

    /// The head held at the input whose turn it is.
    fn head(&self) -> Option<Packet>
        ensures held { IsHead self.now result }
        ensures law { (quanta : List ℕ) (inputs : ℕ) (before : List Visit) → HoldsDeficits quanta inputs before self.now → result ≡ head_at (next_input inputs before) before }
    {
        self.at_cursor().head.packet()
    }

    /// Whether a head is held.
    pub fn holds_head(&self) -> bool
        ensures { result ≡ list_any (λ (s : Served). is_some s.head) self.now.row.items }
    {
        self.row.as_slice().iter().any(|served| served.is_held())
    }

    /// Whether no head is held, and the deficit of the input whose turn it is is its quantum. A turn that gets nothing then changes nothing.
    pub fn is_at_rest(&self) -> bool
        ensures { result ≡ true → IsDrrAtRest self.now }
    {
        let served = self.at_cursor();
        if served.deficit != served.quantum {
            return false;
        }
        !self.holds_head()
    }

    /// Adds the heads held, by input, to other packets.
    pub fn add_heads(&self, heads: &mut Vec<Packet>) -> Result<(), AllocError>
        ensures { IfOk result (λ _. heads.new.items ≡ heads.old.items ++ heads_in self.now.row.items) }
    {
        for served in self.row.as_slice() {
            if let Some(head) = served.head.packet() {
                heads.push(head)?;
            }
        }
        Ok(())
    }

    /// Takes what was got at the input whose turn it is, by asking (fresh) or as its head. Returns whether it is passed. If not, the turn
    /// moves on.
    #[inline]
    fn settle(&mut self, got: Option<Packet>, fresh: bool) -> bool
        requires { fresh ≡ false → IsHead self.old got }
        ensures holds { (quanta : List ℕ) (inputs : ℕ) (before : List Visit) (v : Visit) → HoldsDeficits quanta inputs before self.old → v.input ≡ next_input inputs before
            → v.got ≡ got → v.passed ≡ result → HoldsDeficits quanta inputs (v ∷ before) self.new }
        ensures covered { (quanta : List ℕ) (inputs : ℕ) (before : List Visit) → HoldsDeficits quanta inputs before self.old
            → result ≡ is_covered (deficit_covers quanta before (next_input inputs before)) got }
        ensures length { length self.new.row.items ≡ length self.old.row.items }
        ensures moves { result ≡ false → self.new.cursor ≡ (self.old.cursor + 1) % length self.old.row.items }
        ensures in_vain { got ≡ None → result ≡ false }
    {
        let row = self.row.as_mut_slice();
        let passed = row[usize::from(self.cursor)].settle(got, fresh);
        if !passed {
            self.move_on(1);
        }
        passed
    }

    /// Pulls a DRRSched.
    #[cycle(pull)]
    #[inline(never)]
    pub fn pull<Q: Ask>(nodes: &mut Nodes, q: &mut Q, node: u16) -> Got
        requires can_pull { CanPull nodes.old node (edges_of nodes.old.inputs.items node) }
        requires holds { IfSome (slice_get nodes.old.states.items node) IsDrr }
        ensures { WasPulled Q.gives nodes.old nodes.new q.old q.new node result }
    {
        let State::Drr(mut deficits) = nodes.take(node) else {
            unreachable!()
        };
        let got = deficits.turn(nodes, q, node);
        nodes.put(node, State::Drr(deficits));
        Got::new(got)
    }

    // The turn of a DRRSched.
    #[cycle(pull)]
    fn turn<Q: Ask>(&mut self, nodes: &mut Nodes, q: &mut Q, node: u16) -> Option<Packet>
        requires can_pull { CanPull nodes.old node (edges_of nodes.old.inputs.items node) }
        requires fits { IfSome (slice_get nodes.old.inputs.items node) (λ p. length self.old.row.items ≡ length p.each.items) }
        ensures { (held holds : Box Deficits) → held.value ≡ self.old → holds.value ≡ self.new → HadTurn Q.gives nodes.old nodes.new q.old q.new node (Drr held) (Drr holds) result }
    {
        let inputs = self.row.len() as u16;
        let mut looks = 0;
        // Whether the last look passed nothing. Then the next inputs may well be idle.
        let mut vain = false;
        while looks < inputs {
            let head = self.head();
            match head {
                Some(_) => {
                    if self.look_at_head(nodes, q, node, head) {
                        return head;
                    }
                    looks += 1;
                    vain = true;
                }
                None => {
                    if vain {
                        looks += self.pass_over_idle(nodes, q, node, inputs - looks);
                        vain = false;
                    } else {
                        let (got, passed) = self.look_by_asking(nodes, q, node);
                        if passed {
                            return got;
                        }
                        looks += 1;
                        vain = true;
                    }
                }
            }
        }
        None
    }

    /// Looks at the head that is held at the input whose turn it is, and returns whether it is passed.
    #[inline]
    fn look_at_head<Q: Ask>(
        &mut self,
        nodes: &mut Nodes,
        q: &Q,
        node: u16,
        head: Option<Packet>,
    ) -> bool
        requires can_pull { CanPull nodes.old node (edges_at nodes.old.inputs.items node self.old.cursor) }
        requires within { IsSome (input_at nodes.old.inputs.items node self.old.cursor) }
        requires held { IsHead self.old head }
        requires some { IsSome head }
        ensures { LooksAt Q.gives nodes.old nodes.new q.now q.now node self.old self.new head result }
    {
        self.visit(nodes, node, head, false)
    }

    /// Asks the input whose turn it is, at which no head is held. Returns what was got, and whether it is passed.
    #[cycle(pull)]
    #[inline]
    fn look_by_asking<Q: Ask>(
        &mut self,
        nodes: &mut Nodes,
        q: &mut Q,
        node: u16,
    ) -> (Option<Packet>, bool)
        requires can_pull { CanPull nodes.old node (edges_at nodes.old.inputs.items node self.old.cursor) }
        requires within { IsSome (input_at nodes.old.inputs.items node self.old.cursor) }
        requires none_held { IsHead self.old None }
        ensures { LooksAt Q.gives nodes.old nodes.new q.old q.new node self.old self.new result.0 result.1 }
    {
        let got = nodes.ask(q, node, self.cursor);
        (got, self.visit(nodes, node, got, true))
    }

    /// Skips inputs, from the one whose turn it is on and `most` at most, that hold no head and are known to give nothing. Records a visit to
    /// each, and returns how many.
    // A function of its own, so that a turn that looks at held heads pays nothing for it.
    #[inline(never)]
    fn pass_over_idle<Q: Ask>(&mut self, nodes: &mut Nodes, q: &Q, node: u16, most: u16) -> u16
        requires { MayGoOn Q.gives nodes.old q.now node self.old most }
        ensures few { result ≤ most }
        ensures goes_on { GoesOnInVain Q.gives nodes.old nodes.new q.now node self.old self.new result }
    {
        let idle = self.idle_ahead(nodes, q, node, most);
        let count = self.count_without_heads(idle);
        if count > 0 {
            nodes.record_idle(node, self.cursor, count);
            self.pass_over(count);
            return count;
        }
        for count in 0..most {
            if !self.skip(nodes, q, node) {
                return count;
            }
        }
        most
    }

    /// Skips the input whose turn it is, if it holds no head, visits aren't kept, and it is known that asking it gives nothing and changes
    /// nothing below it. Returns whether it did.
    #[inline]
    fn skip<Q: Ask>(&mut self, nodes: &mut Nodes, q: &Q, node: u16) -> bool
        requires can_pull { CanPull nodes.old node (edges_at nodes.old.inputs.items node self.old.cursor) }
        requires within { IsSome (input_at nodes.old.inputs.items node self.old.cursor) }
        ensures skips { result ≡ true → LooksAt Q.gives nodes.old nodes.new q.now q.now node self.old self.new None false }
        ensures nodes_stay { result ≡ false → nodes.new ≡ nodes.old }
        ensures stays { result ≡ false → self.new ≡ self.old }
    {
        if self.head().is_some() {
            return false;
        }
        if !nodes.skip(q, node, self.cursor) {
            return false;
        }
        self.settle(None, true);
        true
    }

    /// How many inputs, from the one whose turn it is on and `most` at most, hold no head, without a gap.
    fn count_without_heads(&self, most: u16) -> u16
        requires within { self.now.cursor + most ≤ length self.now.row.items }
        ensures few { result ≤ most }
        ensures none { HoldsNoneAhead self.now result }
    {
        for count in 0..most {
            if self.row[usize::from(self.cursor + count)].is_held() {
                return count;
            }
        }
        most
    }

    /// How many inputs, from the one whose turn it is on and `count` at most, are queues known to be empty, without a gap.
    #[inline]
    fn idle_ahead<Q: Ask>(&self, nodes: &Nodes, q: &Q, node: u16, count: u16) -> u16
        requires there { node < length nodes.now.inputs.items }
        requires fits { IfSome (slice_get nodes.now.inputs.items node) (λ p. length self.now.row.items ≡ length p.each.items) }
        ensures few { result ≤ count }
        ensures ahead { AreIdleAhead Q.gives nodes.now q.now node self.now result }
    {
        let left = (self.row.len() as u16 - self.cursor).min(count);
        nodes.idle_from(q, node, self.cursor, left)
    }

    // Moves on past `count` inputs, each of which holds no head and gave nothing. Only the first of them has a deficit, since it was
    // arrived at. Each of the others would get its quantum, and lose it.
    fn pass_over(&mut self, count: u16)
        requires some { 1 ≤ count }
        requires within { self.old.cursor + count ≤ length self.old.row.items }
        ensures cursor { self.new.cursor ≡ (self.old.cursor + count) % length self.old.row.items }
        ensures row { (s : Served) → slice_get self.old.row.items self.old.cursor ≡ Some s → IsArrivedAt self.new.cursor (slice_set self.old.row.items self.old.cursor (settled s None)) self.new.row.items }
    {
        let row = self.row.as_mut_slice();
        row[usize::from(self.cursor)].settle(None, true);
        self.move_on(count);
    }

    // Takes what was got at the input whose turn it is, by asking (fresh) or as its head. Records the visit, and returns whether it is
    // passed.
    #[inline(always)]
    fn visit(&mut self, nodes: &mut Nodes, node: u16, got: Option<Packet>, fresh: bool) -> bool
        requires room { 1 ≤ nodes.old.log.spare }
        requires held { fresh ≡ false → IsHead self.old got }
        ensures logs { Logs nodes.old nodes.new (looking nodes.old node self.old.cursor got fresh result) }
        ensures settles { Settles self.old self.new got result }
    {
        let input = self.cursor;
        let passed = self.settle(got, fresh);
        nodes.log.push(Visit {
            pull: nodes.pull,
            moment: nodes.moment,
            got,
            node,
            input,
            fresh,
            passed,
        });
        passed
    }

    // Moves on by so many inputs, wrapping round, and adds the quantum of the one that it comes to, to its deficit.
    #[inline]
    fn move_on(&mut self, inputs: u16)
        requires some { 1 ≤ inputs }
        requires within { self.old.cursor + inputs ≤ length self.old.row.items }
        requires left { (s : Served) → slice_get self.old.row.items self.old.cursor ≡ Some s → IsWithoutDeficit s × (s.deficit < MAX_LENGTH) }
        ensures length { length self.new.row.items ≡ length self.old.row.items }
        ensures cursor { self.new.cursor ≡ (self.old.cursor + inputs) % length self.old.row.items }
        ensures row { IsArrivedAt self.new.cursor self.old.row.items self.new.row.items }
    {
        let row = self.row.as_mut_slice();
        self.cursor = input_after(self.cursor + inputs - 1, row.len() as u16);
        add_quantum(row, usize::from(self.cursor));
    }

    // What is held of the input whose turn it is.
    fn at_cursor(&self) -> Served
        ensures { slice_get self.now.row.items self.now.cursor ≡ Some result }
    {
        self.row[usize::from(self.cursor)]
    }
}

// An input for each quantum, before its first arrival.
fn all_waiting(alloc: Global, quanta: &[u32]) -> Result<Vec<Served>, AllocError>
    ensures { IfOk result (λ row. row.items ≡ map waiting quanta.now) }
{
    let mut row = Vec::new(alloc);
    for quantum in quanta {
        row.push(Served::waiting(*quantum))?;
    }
    Ok(row)
}

// Adds the quantum of an input to its deficit, as at each arrival.
fn add_quantum(row: &mut [Served], place: usize)
    requires place { place < length row.old }
    requires fits { (s : Served) → slice_get row.old place ≡ Some s → s.deficit + s.quantum < 2 ^ 32 }
    ensures length { length row.new ≡ length row.old }
    ensures adds { IsArrivedAt place row.old row.new }
{
    let served = &mut row[place];
    served.deficit += served.quantum;
}
