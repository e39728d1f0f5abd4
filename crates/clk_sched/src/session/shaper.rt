//! The token bucket of a Shaper.

ghost use Rattle.std.specs.Prelude.{◌≤◌, ◌<◌};
ghost use Rattle.clk_packet.specs.declared.limits.TheConstants.{MAX_RATE, MAX_BURST};
ghost use Rattle.clk_sched.specs.declared.limits.TheConstants.{END_OF_MOMENTS};

use crate::ask::Ask;
use crate::session::got::Got;
use crate::session::inputs::Input;
use crate::session::nodes::Nodes;
use crate::session::state::State;
use clk_packet::Packet;

/// The bucket of a Shaper: it fills by `rate` tokens a tick, and holds `burst` at most.
#[derive(Clone, Copy, Debug)]
pub struct Bucket {
    // The moment of the last filling, in ticks.
    filled: u64,
    // How many tokens there were after it.
    tokens: u32,
    rate: u32,
    burst: u32,
    ghost fills: { 1 ≤ rate },
    ghost rate_within: { rate ≤ MAX_RATE },
    ghost holds_some: { 1 ≤ burst },
    ghost burst_within: { burst ≤ MAX_BURST },
    ghost tokens_within: { tokens ≤ burst },
}

impl Bucket {
    ghost use Rattle.std.specs.Prelude.{◌≡◌, ℕ, ◌+◌, ◌-◌, ◌^◌, nat_lt, List, [], length, slice_get, Some, IfSome, IsSome, true, MatchBool};
    ghost use Rattle.clk_sched.specs.Turns.{Turn};
    ghost use Rattle.clk_sched.specs.Due.{IsDue};
    ghost use Rattle.clk_sched.specs.inside.Holds.Shaper.{has_room, AreBefore, HoldsBucket, IsTaken, IsGivenBack, tokens_at};
    ghost use Rattle.clk_sched.specs.declared.session.inputs.Input.TheVariants.{Node};
    ghost use Rattle.clk_sched.specs.inside.Holds.OfClass.{IsShaper};
    ghost use Rattle.clk_sched.specs.inside.Places.{AllFit, edges_of, edges_at, input_at};
    ghost use Rattle.clk_sched.specs.inside.Pulling.{CanPull};
    ghost use Rattle.clk_sched.specs.inside.Turning.{WasPulled};
    ghost use Rattle.clk_sched.specs.inside.Tokens.{TakesToken, GivesBack, GoesDown, AnswersAt, AnswersUp};

    /// A full bucket.
    pub fn new(rate: u32, burst: u32) -> Bucket
        requires rate { (1 ≤ rate) × (rate ≤ MAX_RATE) }
        requires burst { (1 ≤ burst) × (burst ≤ MAX_BURST) }
        ensures { HoldsBucket rate burst [] result }
    {
        Bucket {
            filled: 0,
            tokens: burst,
            rate,
            burst,
        }
    }

    /// Takes one of the tokens at this moment, in ticks, for a packet that is to pass. Returns whether there was one.
    #[inline]
    pub fn take(&mut self, moment: u64) -> bool
        requires { moment < END_OF_MOMENTS }
        ensures room { (rate burst : ℕ) (turns : List Turn) → HoldsBucket rate burst turns self.old → AreBefore moment turns → result ≡ has_room rate burst moment turns }
        ensures taken { MatchBool result (IsTaken self.old self.new moment) (self.new ≡ self.old) }
    {
        let tokens = self.tokens_at(moment);
        if tokens == 0 {
            return false;
        }
        self.tokens = tokens - 1;
        self.filled = moment;
        true
    }

    /// Gives back the token that was taken last, since no packet came.
    pub fn give_back(&mut self)
        ensures { IsGivenBack self.old self.new }
    {
        self.tokens = (self.tokens + 1).min(self.burst);
    }

    /// The earliest moment from this one on, in ticks, at which there is room for a packet. It is this one if the bucket has a token, and
    /// else the next: at least one token is added each tick.
    pub fn opens_at(&self, moment: u64) -> u64
        requires { moment < END_OF_MOMENTS }
        ensures room { (rate burst : ℕ) (turns : List Turn) → HoldsBucket rate burst turns self.now → AreBefore moment turns → IsDue (λ m. has_room rate burst m turns) moment (Some result) }
        ensures soon { result ≤ moment + 1 }
    {
        if self.tokens_at(moment) > 0 {
            moment
        } else {
            moment + 1
        }
    }

    /// The tokens at this moment, in ticks, `burst` at most. There is room for a packet if there is at least one.
    #[inline]
    fn tokens_at(&self, moment: u64) -> u32
        requires { moment < END_OF_MOMENTS }
        ensures tokens { result ≡ tokens_at self.now moment }
        ensures room { (rate burst : ℕ) (turns : List Turn) → HoldsBucket rate burst turns self.now → AreBefore moment turns → nat_lt 0 result ≡ has_room rate burst moment turns }
    {
        let fresh = u64::from(self.rate) * moment.saturating_sub(self.filled);
        let tokens = (u64::from(self.tokens) + fresh).min(u64::from(self.burst));
        tokens as u32
    }

    /// Pulls a Shaper, which asks its input only if it has a token.
    // The bucket stays in its place, since nothing of it is needed while the input is asked. A chain of Shapers, one below another, is
    // walked down and up in loops: a processor mispredicts the returns of as many nested calls.
    #[cycle(pull)]
    #[inline(never)]
    pub fn pull<Q: Ask>(nodes: &mut Nodes, q: &mut Q, node: u16) -> Got
        requires can_pull { CanPull nodes.old node (edges_of nodes.old.inputs.items node) }
        requires holds { IfSome (slice_get nodes.old.states.items node) IsShaper }
        ensures { WasPulled Q.gives nodes.old nodes.new q.old q.new node result }
    {
        let (last, token) = Bucket::take_down(nodes, node);
        if !token {
            Bucket::answer_up(nodes, node, last, None);
            return Got::new(None);
        }
        let got = nodes.ask(q, last, 0);
        Bucket::answer_at(nodes, last, got);
        Bucket::answer_up(nodes, node, last, got);
        Got::new(got)
    }

    // Takes a token of this Shaper and of each below it in a chain, up to the first that has none. Returns the last that was tried, and
    // whether it had one.
    #[inline]
    fn take_down(nodes: &mut Nodes, node: u16) -> (u16, bool)
        requires can_pull { CanPull nodes.old node (edges_of nodes.old.inputs.items node) }
        requires holds { IfSome (slice_get nodes.old.states.items node) IsShaper }
        ensures { GoesDown nodes.old nodes.new node result.0 result.1 }
    {
        let mut last = node;
        let mut token = Bucket::take_at(nodes, last);
        // The number of the next Shaper is counted, so that a processor goes down without waiting to read what stands at each input.
        while token && Bucket::leads_on(nodes, last) {
            last += 1;
            token = Bucket::take_at(nodes, last);
        }
        (last, token)
    }

    // Whether the input of a node is a Shaper whose number follows that of the node.
    #[inline]
    fn leads_on(nodes: &Nodes, node: u16) -> bool
        requires can_pull { CanPull nodes.now node (edges_at nodes.now.inputs.items node 0) }
        requires within { IsSome (input_at nodes.now.inputs.items node 0) }
        ensures fits { result ≡ true → node + 1 < 2 ^ 16 }
        ensures stands { result ≡ true → input_at nodes.now.inputs.items node 0 ≡ Some (Node (node + 1)) }
        ensures holds { result ≡ true → IfSome (slice_get nodes.now.states.items (node + 1)) IsShaper }
    {
        match nodes.inputs[node as usize].each[0] {
            Input::Queue(_) => false,
            Input::Node(below) => {
                below - node == 1 && matches!(nodes.states[below as usize], State::Shaper(_))
            }
        }
    }

    // Records what a Shaper got, and gives its token back if it got nothing.
    #[inline]
    fn answer_at(nodes: &mut Nodes, node: u16, got: Option<Packet>)
        requires there { node < length nodes.old.states.items }
        requires room { 1 ≤ nodes.old.log.spare }
        ensures { AnswersAt nodes.old nodes.new node got }
    {
        nodes.record(node, 0, got);
        if got.is_none() {
            Bucket::give_back_at(nodes, node);
        }
    }

    // Records what each Shaper from the one before `last` up to `first` got, and gives its token back if it got nothing.
    #[inline]
    fn answer_up(nodes: &mut Nodes, first: u16, last: u16, got: Option<Packet>)
        requires order { first ≤ last }
        requires there { last ≤ length nodes.old.inputs.items }
        requires fit { AllFit nodes.old.inputs.items nodes.old.states.items }
        requires room { last - first ≤ nodes.old.log.spare }
        ensures { AnswersUp nodes.old nodes.new last (last - first) got }
    {
        for above in (first..last).rev() {
            Bucket::answer_at(nodes, above, got);
        }
    }

    // Takes a token out of the bucket of a Shaper, and returns whether there was one.
    #[inline]
    fn take_at(nodes: &mut Nodes, node: u16) -> bool
        requires there { node < length nodes.old.states.items }
        requires holds { IfSome (slice_get nodes.old.states.items node) IsShaper }
        requires moment { nodes.old.moment < END_OF_MOMENTS }
        ensures { TakesToken nodes.old nodes.new node result }
    {
        let moment = nodes.moment;
        match &mut nodes.states[node as usize] {
            State::Shaper(bucket) => bucket.take(moment),
            _ => false,
        }
    }

    // Gives back the token that was taken last from the bucket of a Shaper.
    #[inline]
    fn give_back_at(nodes: &mut Nodes, node: u16)
        requires { node < length nodes.old.states.items }
        ensures { GivesBack nodes.old nodes.new node }
    {
        if let State::Shaper(bucket) = &mut nodes.states[node as usize] {
            bucket.give_back();
        }
    }
}
