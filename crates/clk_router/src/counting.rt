//! A router that keeps only totals.

use crate::accounts::{Account, accounts_of, count_offered, count_pulled};
use crate::router::Router;
use clk_packet::{Fault, Offered, Packet};
use clk_sched::Keeps;
use clk_tree::Plan;
use std::alloc::Global;
use std::marker::Model;
use std::ops::Deref;

/// A router that keeps nothing of the past but totals for each sender. Only `open` allocates. So it can go on until a sender has offered
/// 4,294,967,295 packets, or a device is at the end of its pulls or moments. Contracts speak of all its events so far. What a `Router`
/// tells of itself, this one does too: it gives the `Router` by `Deref`.
#[derive(Drop)]
pub struct CountingRouter {
    router: Router,
    /// The account of each sender, at its place.
    accounts: Vec<Account>,
    /// The name of each sender's element, at its place.
    names: Vec<Vec<u8>>,
}

impl Model for CountingRouter {
    ghost use Rattle.std.specs.Prelude.{◌≡◌, map};
    ghost use Rattle.clk_sched.specs.Keeps.{keeps_nothing};
    ghost use Rattle.clk_router.specs.Course.{Course};
    ghost use Rattle.clk_router.specs.Accounts.{account_after};
    ghost use Rattle.clk_router.specs.Stored.{course_code};

    ghost Value = { Course };

    ghost coded = { course_code };

    ghost view = { λ r. r.router };

    ghost invariant = { λ r. (r.router.keeps ≡ keeps_nothing) × (r.accounts.items ≡ map (account_after r.router.events) r.router.setup.senders)
        × (map (λ n. n.items) r.names.items ≡ r.router.setup.names) };
}

impl CountingRouter {
    ghost use Rattle.std.specs.Prelude.{◌≡◌, ◌<◌, ◌≤◌, ◌∷◌, [], Some, None, map, length, slice_get, IfOk, IsOkUnless, MatchOption};
    ghost use Rattle.clk_sched.specs.Keeps.{keeps_nothing};
    ghost use Rattle.clk_router.specs.Accounts.{account_after};
    ghost use Rattle.clk_router.specs.Course.{after, sender_at, CanOffer, CanPull, IsOpened, IsPulled};
    ghost use Rattle.clk_router.specs.Events.{offered};

    /// Opens the router of a plan, before anything has happened.
    ///
    /// # Errors
    ///
    /// Fault 1 if an allocation fails.
    pub fn open(alloc: Global, plan: &Plan) -> Result<CountingRouter, Fault>
        ensures opened { IfOk result (IsOpened plan.now keeps_nothing) }
        ensures fault { IsOkUnless result Fault.Memory }
    {
        Ok(CountingRouter {
            router: Router::open(alloc, plan, Keeps::NOTHING)?,
            accounts: accounts_of(alloc, plan.senders())?,
            names: plan.sender_names(alloc)?,
        })
    }

    /// The name of the sender at this place, if there is one: that of its element in the plan.
    pub fn sender_name(&self, place: usize) -> Option<&[u8]>
        ensures { MatchOption result (slice_get self.now.setup.names place ≡ None) (λ name. slice_get self.now.setup.names place ≡ Some name.now) }
    {
        // Reading the router brings its invariant into scope, which says that these are the names.
        let _ = &self.router;
        Some(self.names.get(place)?.as_slice())
    }

    /// The sender at this place offers its next packet, of this length in bytes, to its queue. Returns the packet and the outcome.
    #[inline(always)]
    pub fn offer(&mut self, place: usize, length: u16) -> (Packet, Offered)
        requires can { CanOffer self.old place }
        requires has_length { 1 ≤ length }
        ensures sender { sender_at self.old.setup place ≡ Some result.0.sender }
        ensures length { result.0.length ≡ length }
        ensures goes_on { self.new ≡ after self.old (offered result.0 result.1 ∷ []) }
    {
        let (packet, outcome) = self.router.offer(place, length);
        // Each sender has offered fewer than 2^32 packets, by this law, which does nothing.
        self.router.has_account();
        let numbers = self.router.senders();
        count_offered(&mut self.accounts, numbers, place, packet, outcome);
        (packet, outcome)
    }

    /// Pulls a device once, at this moment in ticks, or at the device's latest moment if that is later.
    #[inline(always)]
    pub fn pull(&mut self, device: u16, moment: u64) -> Option<Packet>
        requires can { CanPull self.old device moment }
        ensures pulled { IsPulled self.old self.new device moment result }
    {
        // Nothing is kept, so that no allocation fails.
        let got = self.router.pull(device, moment).unwrap();
        // Each sender has offered fewer than 2^32 packets, by this law, which does nothing.
        self.router.has_account();
        count_pulled(&mut self.accounts, self.router.senders(), got);
        got
    }

    /// The totals of the packets of each sender so far, by its place.
    pub fn accounts(&self) -> &[Account]
        ensures { result.now ≡ map (account_after self.now.events) self.now.setup.senders }
    {
        // Reading the router brings its invariant into scope, which says that these are the accounts.
        let _ = &self.router;
        self.accounts.as_slice()
    }
}

impl Deref for CountingRouter {
    type Target = Router;

    ghost use Rattle.std.specs.Prelude.{◌≡◌};

    ghost deref_gives = { λ counting router. router ≡ counting };

    #[inline]
    fn deref(&self) -> &Router {
        &self.router
    }
}
