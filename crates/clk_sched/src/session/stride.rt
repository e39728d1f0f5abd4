//! The passes of a StrideSched.

ghost use Rattle.std.specs.Prelude.{◌≡◌, ◌≤◌, ◌<◌, ◌+◌, ◌^◌, ◌++◌, ◌∷◌, List, true, take, drop, length, map, slice_get, Some, IfOk};
ghost use Rattle.std.specs.List.{All, AllByRecursion, range_with_len};
ghost use Rattle.clk_packet.specs.declared.limits.TheConstants.{MAX_INPUTS, MAX_TICKETS};
ghost use Rattle.clk_sched.specs.Laws.Stride.{stride_of};
ghost use Rattle.clk_sched.specs.inside.Ranks.{greatest_stride, IsRankOf, FollowOneAnother, HasRisingPasses, HasRisingPasses-prop, AreInOrder, AreUpTo, is_up_to, put_rank, put_all, at_pass, after_win, first_pass, from_least, less, first_rank, inputs_in, IsRowWon};

use crate::ask::Ask;
use crate::session::got::Got;
use crate::session::nodes::Nodes;
use crate::session::state::State;
use clk_packet::Packet;
use std::alloc::{AllocError, Global};
use std::marker::Model;

/// The stride of one ticket.
const GREATEST_STRIDE: u32 = 65_536;

/// How many ranks move at a time, where one moves far.
const AT_ONCE: usize = 8;

/// An input with its pass, less what was subtracted from all passes.
// Both are one number, so that a rank is read, compared and written at once.
#[derive(Clone, Copy, Debug, PartialEq, Eq)]
pub struct Rank {
    number: u64,
}

impl Model for Rank {
    ghost use Rattle.std.specs.Prelude.{◌<◌, ◌+◌, ◌*◌, ◌/◌, ◌%◌, ◌^◌};
    ghost use Rattle.std.proofs.Common.{ap};
    ghost use Rattle.std.proofs.lemmas.Nat.{div-add-mod'};
    ghost use Rattle.clk_sched.specs.inside.Ranks.{Ranked};

    ghost Value = { Ranked };

    ghost view = { λ r. record { pass = r.number / 65536; input = r.number % 65536 } };

    ghost invariant = { λ r. r.number < 2 ^ 48 };

    ghost inverse = { λ r. record { number = r.pass * 65536 + r.input } };

    ghost inverse_ok = { λ r h. ap (λ n. record { number = n }) (div-add-mod' r.number 65536) };
}

impl Rank {
    /// This input with this pass.
    #[inline]
    fn new(pass: u32, input: u16) -> Rank
        ensures { result ≡ record { pass = pass; input = input } }
    {
        Rank {
            number: (u64::from(pass) << 16) + u64::from(input),
        }
    }

    /// The pass.
    #[inline]
    fn pass(self) -> u32
        ensures { result ≡ self.pass }
    {
        (self.number >> 16) as u32
    }

    /// The input.
    #[inline]
    pub fn input(self) -> u16
        ensures { result ≡ self.input }
    {
        (self.number % 65_536) as u16
    }

    /// Whether this rank stands before another by (pass, index), or is equal to it.
    #[inline]
    fn is_up_to(self, other: &Rank) -> bool
        ensures { result ≡ is_up_to self other.now }
    {
        self.number <= other.number
    }

    /// The same input with a pass that is less by so much.
    #[inline]
    fn less(self, least: u32) -> Rank
        requires { least ≤ self.pass }
        ensures { result ≡ less least self }
    {
        Rank {
            number: self.number - (u64::from(least) << 16),
        }
    }

    /// The same input with another pass.
    #[inline]
    fn at_pass(self, pass: u32) -> Rank
        ensures { result ≡ at_pass pass self }
    {
        Rank::new(pass, self.input())
    }
}

/// The inputs of a StrideSched in rising order of (pass, index), with the stride of each. Between pulls the least pass is 0. None
/// is ever above 65,536: a pull subtracts the winner's pass before it adds its stride.
#[derive(Drop)]
pub struct Passes {
    row: Vec<Rank>,
    strides: Vec<u32>,
    // Whether inputs before the winner were asked when a packet was last given. Then the first may well be idle.
    vain: bool,
    ghost ranks: { All (IsRankOf (length strides.items)) row.items },
    ghost least: { first_pass row.items ≡ 0 },
    ghost rising: { HasRisingPasses row.items } by { HasRisingPasses-prop row.items },
    ghost bounded: { All (λ stride. stride ≤ greatest_stride) strides.items },
}

impl Passes {
    ghost use Rattle.std.specs.Prelude.{ℕ, [], None, IsSome, slice_get, IfSome};
    ghost use Rattle.clk_sched.specs.inside.Holds.Stride.{HoldsPasses};

    /// The passes before the first pull, by the tickets of each input.
    ///
    /// # Errors
    ///
    /// If an allocation fails.
    pub fn new(alloc: Global, tickets: &[u32]) -> Result<Passes, AllocError>
        requires inputs { length tickets.now ≤ MAX_INPUTS }
        requires tickets { AllByRecursion (λ n. (1 ≤ n) × (n ≤ MAX_TICKETS)) tickets.now }
        ensures holds { IfOk result (λ p. HoldsPasses tickets.now [] p) }
        ensures inputs { IfOk result (λ p. length p.row.items ≡ length tickets.now) }
    {
        let row = first_row(alloc, tickets.len() as u16)?;
        let strides = strides_of(alloc, tickets)?;
        Ok(Passes {
            row,
            strides,
            vain: false,
        })
    }

    /// The inputs in rising order of (pass, index).
    pub fn row(&self) -> &[Rank]
        ensures { result.now ≡ self.now.row.items }
    {
        self.row.as_slice()
    }

    /// Whether inputs before the winner were asked when a packet was last given. Then the first may well be idle.
    #[inline]
    pub fn is_vain(&self) -> bool {
        self.vain
    }

    /// Adds its stride to the pass of the input at this place of the row, which gave a packet. The inputs before it, which had none, get
    /// the pass that it had.
    fn won(&mut self, place: usize)
        requires place { place < length self.old.row.items }
        requires order { AreInOrder self.old.row.items }
        ensures holds { IsWonAt self.old self.new place }
        ensures inputs { length self.new.row.items ≡ length self.old.row.items }
    {
        self.vain = place > 0;
        let row = self.row.as_mut_slice();
        let stride = self.strides[usize::from(row[place].input())];
        win_at(row, place, stride);
    }

    ghost use Rattle.clk_sched.specs.inside.Places.{edges_of, edges_in, input_at};
    ghost use Rattle.clk_sched.specs.inside.Pulling.{CanPull};
    ghost use Rattle.clk_sched.specs.inside.Turning.{WasPulled, MayAskOn};
    ghost use Rattle.clk_sched.specs.inside.Winning.{IsWonAt, WinsFirst, TurnsOn};
    ghost use Rattle.std.specs.Global.{Box};
    ghost use Rattle.clk_sched.specs.declared.session.state.State.TheVariants.{Stride};
    ghost use Rattle.clk_sched.specs.inside.Holds.OfClass.{FitsPasses, IsStride};

    /// Pulls a StrideSched.
    #[cycle(pull)]
    #[inline(never)]
    pub fn pull<Q: Ask>(nodes: &mut Nodes, q: &mut Q, node: u16) -> Got
        requires can_pull { CanPull nodes.old node (edges_of nodes.old.inputs.items node) }
        requires holds { IfSome (slice_get nodes.old.states.items node) IsStride }
        ensures { WasPulled Q.gives nodes.old nodes.new q.old q.new node result }
    {
        match Passes::first_input(nodes, node) {
            Some(input) => Passes::ask_first(nodes, q, node, input),
            None => Passes::ask_on(nodes, q, node, 0),
        }
    }

    // Pulls a StrideSched whose first input mostly gives a packet. It is asked while the passes stand in their place, so that such a pull
    // doesn't take them out and put them back.
    #[cycle(pull)]
    #[inline(always)]
    fn ask_first<Q: Ask>(nodes: &mut Nodes, q: &mut Q, node: u16, input: u16) -> Got
        requires can_pull { CanPull nodes.old node (edges_of nodes.old.inputs.items node) }
        requires holds { IfSome (slice_get nodes.old.states.items node) IsStride }
        requires first { (held : Box Passes) → slice_get nodes.old.states.items node ≡ Some (Stride held) → take 1 (inputs_in held.value.row.items) ≡ input ∷ [] }
        ensures { WasPulled Q.gives nodes.old nodes.new q.old q.new node result }
    {
        let Some(packet) = nodes.look(q, node, input) else {
            return Passes::ask_on(nodes, q, node, 1);
        };
        Passes::win_first_at(nodes, node);
        Got::new(Some(packet))
    }

    // The first input of the row of a StrideSched.
    #[inline(always)]
    fn first_input(nodes: &Nodes, node: u16) -> Option<u16>
        requires there { node < length nodes.now.states.items }
        ensures { (held : Box Passes) → slice_get nodes.now.states.items node ≡ Some (Stride held) → IfSome result (λ input. take 1 (inputs_in held.value.row.items) ≡ input ∷ []) }
    {
        let State::Stride(passes) = &nodes.states[node as usize] else {
            return None;
        };
        match passes.row() {
            [first, ..] => Some(first.input()),
            [] => None,
        }
    }

    // Lets the first input of the row of a StrideSched win.
    #[inline]
    fn win_first_at(nodes: &mut Nodes, node: u16)
        requires there { node < length nodes.old.states.items }
        requires order { (held : Box Passes) → slice_get nodes.old.states.items node ≡ Some (Stride held) → (0 < length held.value.row.items) × AreInOrder held.value.row.items }
        ensures { (held : Box Passes) → slice_get nodes.old.states.items node ≡ Some (Stride held) → WinsFirst nodes.old nodes.new node held }
    {
        if let State::Stride(passes) = &mut nodes.states[node as usize] {
            passes.won(0);
        }
    }

    /// Goes on with the turn of a StrideSched that asked the first so many inputs of its row, which gave nothing.
    #[cycle(pull)]
    #[inline(never)]
    pub fn ask_on<Q: Ask>(nodes: &mut Nodes, q: &mut Q, node: u16, asked: usize) -> Got
        requires { (held : Box Passes) × MayAskOn Q.gives nodes.old q.old node (Stride held) (inputs_in held.value.row.items) asked }
        ensures { (held : Box Passes) (m : MayAskOn Q.gives nodes.old q.old node (Stride held) (inputs_in held.value.row.items) asked) → WasPulled Q.gives m.first nodes.new m.before q.new node result }
    {
        let State::Stride(mut passes) = nodes.take(node) else {
            unreachable!()
        };
        let got = passes.turn(nodes, q, node, asked);
        nodes.put(node, State::Stride(passes));
        Got::new(got)
    }

    // The turn of a StrideSched that asked the first so many inputs of its row.
    #[cycle(pull)]
    fn turn<Q: Ask>(
        &mut self,
        nodes: &mut Nodes,
        q: &mut Q,
        node: u16,
        asked: usize,
    ) -> Option<Packet>
        requires can_pull { CanPull nodes.old node (edges_in nodes.old.inputs.items node (drop asked (inputs_in self.old.row.items))) }
        requires there { AllByRecursion (λ i. IsSome (input_at nodes.old.inputs.items node i)) (drop asked (inputs_in self.old.row.items)) }
        requires fits { IfSome (slice_get nodes.old.inputs.items node) (λ p. FitsPasses (length p.each.items) self.old) }
        requires within { asked ≤ length self.old.row.items }
        ensures { TurnsOn Q.gives nodes.old nodes.new q.old q.new node asked self.old self.new result }
    {
        match nodes.ask_in_order(q, node, &self.row()[asked..]) {
            Some((place, packet)) => {
                self.won(asked + place);
                Some(packet)
            }
            None => None,
        }
    }
}

/// How many of these ranks, from the first on, have one pass and consecutive inputs. The ranks are in order.
#[inline]
pub fn following(ranks: &[Rank]) -> usize
    requires { AreInOrder ranks.now }
    ensures within { result ≤ length ranks.now }
    ensures follow { FollowOneAnother (take result ranks.now) }
{
    // Mostly all of them.
    if follow_one_another(ranks) {
        return ranks.len();
    }
    count_following(ranks)
}

/// How many of these ranks, from the first on, have one pass and consecutive inputs, by binary search. The ranks are in order.
#[inline(never)]
fn count_following(ranks: &[Rank]) -> usize
    requires { AreInOrder ranks.now }
    ensures within { result ≤ length ranks.now }
    ensures follow { FollowOneAnother (take result ranks.now) }
{
    let mut count = 0;
    let mut too_many = ranks.len();
    while count + 1 < too_many {
        let middle = count + (too_many - count) / 2;
        if follow_one_another(&ranks[..middle]) {
            count = middle;
        } else {
            too_many = middle;
        }
    }
    count
}

/// Whether these ranks, which are in order, have one pass and consecutive inputs. The first and the last tell.
#[inline]
fn follow_one_another(ranks: &[Rank]) -> bool
    requires { AreInOrder ranks.now }
    ensures { result ≡ true → FollowOneAnother ranks.now }
{
    match ranks {
        [] => true,
        [first, ..] => {
            let last = ranks[ranks.len() - 1];
            let between = ranks.len() - 1;
            first.pass() == last.pass()
                && usize::from(last.input()) == usize::from(first.input()) + between
        }
    }
}

/// So many inputs, with a pass of 0 each.
fn first_row(alloc: Global, inputs: u16) -> Result<Vec<Rank>, AllocError>
    ensures { IfOk result (λ row. row.items ≡ map first_rank (range_with_len 0 inputs)) }
{
    let mut row = Vec::new(alloc);
    for input in 0..inputs {
        row.push(Rank::new(0, input))?;
    }
    Ok(row)
}

/// The stride of each input, by its tickets.
fn strides_of(alloc: Global, tickets: &[u32]) -> Result<Vec<u32>, AllocError>
    requires { All (λ n. 1 ≤ n) tickets.now }
    ensures { IfOk result (λ strides. strides.items ≡ map stride_of tickets.now) }
{
    let mut strides = Vec::new(alloc);
    for count in tickets {
        strides.push(GREATEST_STRIDE / count)?;
    }
    Ok(strides)
}

/// The row after a pull that the rank at this place won. Its pass grows by its stride, and those before it, which had no packet, get the pass
/// that it had.
#[inline]
fn win_at(row: &mut [Rank], place: usize, stride: u32)
    requires place { place < length row.old }
    requires fits { stride ≤ greatest_stride }
    requires order { AreInOrder row.old }
    requires least { first_pass row.old ≡ 0 }
    ensures { IsRowWon place stride row.old row.new }
{
    if place == 0 && row.len() <= AT_ONCE {
        win_first(row, stride);
    } else {
        win_behind(row, place, stride);
    }
}

/// The row after a pull that the first rank won, whose pass is 0.
// One walk moves those that then stand before it, and subtracts the least pass from each.
#[inline(never)]
fn win_first(row: &mut [Rank], stride: u32)
    requires some { 0 < length row.old }
    requires rising { HasRisingPasses row.old }
    ensures { row.new ≡ from_least (after_win 0 stride 0 row.old) }
{
    let winner = row[0].at_pass(stride);
    let least = least_of(winner, &row[1..]);
    let mut place = 0;
    while place + 1 < row.len() && !winner.is_up_to(&row[place + 1]) {
        row[place] = row[place + 1].less(least);
        place += 1;
    }
    row[place] = winner.less(least);
    subtract(&mut row[place + 1..], least);
}

/// The row after a pull that the rank at this place won, wherever it stands.
#[inline(never)]
fn win_behind(row: &mut [Rank], place: usize, stride: u32)
    requires place { place < length row.old }
    requires fits { stride ≤ greatest_stride }
    requires order { AreInOrder row.old }
    ensures { IsRowWon place stride row.old row.new }
{
    let pass = row[place].pass();
    // The winner and those after it lose its pass. Those before it, which had none, get pass 0: that of the winner, subtracted.
    subtract(&mut row[place..], pass);
    place_visited(row, place, stride);
    subtract_least(row);
}

/// The least pass of this rank and of others that are in rising order.
#[inline]
fn least_of(rank: Rank, others: &[Rank]) -> u32
    ensures { result ≡ first_pass (put_rank rank others.now) }
{
    match others {
        [next, ..] if !rank.is_up_to(next) => next.pass(),
        _ => rank.pass(),
    }
}

/// Puts the winner, whose pass is 0 and grows by its stride, in its new place, and then those before it. These had no packet, and get the
/// pass that the winner had, 0, so that an input that was idle has no claim to what it missed. The ranks before the place are in order, and
/// so are those after it.
fn place_visited(row: &mut [Rank], place: usize, stride: u32)
    requires place { place < length row.old }
    requires fits { stride ≤ greatest_stride }
    requires front { AreInOrder (take place row.old) }
    requires back { AreUpTo (drop (place + 1) row.old) }
    ensures { row.new ≡ after_win 0 stride place row.old }
{
    let winner = row[place].at_pass(stride);
    put(row, place, winner);
    if place == 0 {
        return;
    }
    // If all have 0 already, as they mostly do, they keep their order.
    if are_at_zero(&row[..place]) {
        merge(row, place);
        return;
    }
    // From the last to the first, each is put among ranks that are in order.
    let mut next = row[place];
    for idle in (0..place).rev() {
        let rank = row[idle].at_pass(0);
        next = put_before(row, idle, rank, next);
    }
}

/// Whether all of these ranks, which are in order, have a pass of 0: the last tells.
#[inline]
fn are_at_zero(ranks: &[Rank]) -> bool
    requires { AreInOrder ranks.now }
    ensures { result ≡ true → map (at_pass 0) ranks.now ≡ ranks.now }
{
    match ranks {
        [] => true,
        [.., last] => last.pass() == 0,
    }
}

/// Puts the ranks before a place among those from it on. Both are in order, so that only those that stand before the last of the others
/// move.
#[inline]
fn merge(row: &mut [Rank], place: usize)
    requires some { 0 < place }
    requires within { place ≤ length row.old }
    requires front { AreUpTo (take place row.old) }
    requires back { AreUpTo (drop place row.old) }
    ensures { row.new ≡ put_all (take place row.old) (drop place row.old) }
{
    for next in place..row.len() {
        if row[next - 1].is_up_to(&row[next]) {
            return;
        }
        let rank = row[next];
        put_in_front(row, next, rank);
    }
}

/// Takes out this rank, which stands at a place, and puts it among those before it, which are in order.
#[inline(never)]
fn put_in_front(row: &mut [Rank], from: usize, rank: Rank)
    requires { from < length row.old }
    ensures { row.new ≡ put_rank rank (take from row.old) ++ drop (from + 1) row.old }
{
    let before = count_before(rank, &row[..from]);
    row.copy_within(before..from, before + 1);
    row[before] = rank;
}

/// Takes out the rank at a place, and puts this one among those after it, which are in order.
#[inline]
fn put(row: &mut [Rank], from: usize, rank: Rank)
    requires within { from < length row.old }
    requires order { AreUpTo (drop (from + 1) row.old) }
    ensures { row.new ≡ take from row.old ++ put_rank rank (drop (from + 1) row.old) }
{
    // One that stays where it is moves nothing.
    if is_first(rank, &row[from + 1..]) {
        row[from] = rank;
    } else {
        put_far_behind(row, from, rank);
    }
}

/// Takes out the rank at a place, and puts this one among those after it, which are in order. `next` is the first of these. Returns the
/// rank that then stands at the place.
// Most ranks stay where they are: those that had no packet are in order already. `next` is handed in, since a processor waits for a rank
// that was just written and is read.
#[inline]
fn put_before(row: &mut [Rank], from: usize, rank: Rank, next: Rank) -> Rank
    requires { slice_get row.old (from + 1) ≡ Some next }
    ensures put { row.new ≡ take from row.old ++ put_rank rank (drop (from + 1) row.old) }
    ensures first { slice_get row.new from ≡ Some result }
{
    if rank.is_up_to(&next) {
        row[from] = rank;
        return rank;
    }
    put_behind(row, from, rank);
    row[from]
}

/// Whether this rank stands before all of these, which are in order.
#[inline]
fn is_first(rank: Rank, others: &[Rank]) -> bool
    ensures { result ≡ true → put_rank rank others.now ≡ rank ∷ others.now }
{
    match others {
        [] => true,
        [next, ..] => rank.is_up_to(next),
    }
}

/// Takes out the rank at a place, and puts this one among those after it, which are in order. Those that stand before it move a place to
/// the front.
// Each is moved as it is compared.
fn put_behind(row: &mut [Rank], from: usize, rank: Rank)
    requires { from < length row.old }
    ensures { row.new ≡ take from row.old ++ put_rank rank (drop (from + 1) row.old) }
{
    let mut place = from;
    while place + 1 < row.len() && !rank.is_up_to(&row[place + 1]) {
        row[place] = row[place + 1];
        place += 1;
    }
    row[place] = rank;
}

/// Takes out the rank at a place, and puts this one among those after it, which are in order, as `put_behind` does. Where it moves far,
/// those that stand before it move `AT_ONCE` at a time: the last of these tells of all.
#[inline(never)]
fn put_far_behind(row: &mut [Rank], from: usize, rank: Rank)
    requires within { from < length row.old }
    requires order { AreUpTo (drop (from + 1) row.old) }
    ensures { row.new ≡ take from row.old ++ put_rank rank (drop (from + 1) row.old) }
{
    let mut place = from;
    while place + AT_ONCE < row.len() && !rank.is_up_to(&row[place + AT_ONCE]) {
        row.copy_within(place + 1..place + AT_ONCE + 1, place);
        place += AT_ONCE;
    }
    put_behind(row, place, rank);
}

/// How many of these ranks, which are in order, stand before this one.
fn count_before(rank: Rank, others: &[Rank]) -> usize
    ensures within { result ≤ length others.now }
    ensures count { put_rank rank others.now ≡ take result others.now ++ rank ∷ drop result others.now }
{
    for before in 0..others.len() {
        if rank.is_up_to(&others[before]) {
            return before;
        }
    }
    others.len()
}

/// Subtracts the first pass, which is the least, from all passes, so that no pass grows with the number of pulls.
fn subtract_least(row: &mut [Rank])
    requires some { 0 < length row.old }
    requires least { All (λ rank. first_pass row.old ≤ rank.pass) row.old }
    ensures { row.new ≡ from_least row.old }
{
    let least = row[0].pass();
    subtract(row, least);
}

/// Subtracts so much from the pass of each of these ranks.
#[inline]
fn subtract(ranks: &mut [Rank], least: u32)
    requires { All (λ rank. least ≤ rank.pass) ranks.old }
    ensures { ranks.new ≡ map (less least) ranks.old }
{
    if least == 0 {
        return;
    }
    for rank in ranks.iter_mut() {
        *rank = rank.less(least);
    }
}
