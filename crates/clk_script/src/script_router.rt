//! A router, with all that the answer to a script needs of its past.

use clk_packet::{Fault, Offered, Packet};
use clk_router::{Account, Router, accounts_of, count_drained, count_offered, count_pulled};
use clk_sched::{Departure, Keeps};
use clk_tree::Plan;
use std::alloc::Global;

/// A router, with the packets that an answer to a script tells of.
#[derive(Drop)]
pub struct ScriptRouter {
    pub router: Router,
    /// The account of each sender, at its place.
    pub accounts: Vec<Account>,
    /// If there are several devices: the packets that pulls gave before the drain, in order. A single device has them itself.
    pub given: Vec<Packet>,
    /// The packets that queues evicted for later ones, in order.
    pub evicted: Vec<Packet>,
}

impl ScriptRouter {
    ghost use Rattle.std.specs.Prelude.{◌≡◌, ◌++◌, ◌∷◌, ◌≤◌, [], Some, true, false, IfOk, OnOk, IsOkUnless};
    ghost use Rattle.clk_packet.specs.declared.fault.Fault.TheVariants.{Memory};
    ghost use Rattle.clk_sched.specs.Keeps.{keeps_nothing};
    ghost use Rattle.clk_router.specs.Course.{sender_at, CanPull, CanClose, IsOpened};
    ghost use Rattle.clk_router.specs.Events.{Setup, offered};
    ghost use Rattle.clk_script.specs.inside.ScriptRouter.{evicted_kept, given_kept, AreAlike, IsAt, IsPlace, IsReady, LeadsOnByPull, LeadsOnByDrain, Starts, StaysElsewhere, ChangesGiven};

    /// The router of a plan, before anything has happened. Its devices keep the packets that they emit. Fault 1 if an allocation fails.
    pub fn new(alloc: Global, plan: &Plan) -> Result<ScriptRouter, Fault>
        ensures opened { IfOk result (λ r. IsOpened plan.now (record keeps_nothing { packets = true }) r.router) }
        ensures starts { IfOk result (λ r. Starts r.router.setup r) }
        ensures fault { IsOkUnless result Fault.Memory }
    {
        let keeps = Keeps {
            visits: false,
            packed: false,
            packets: true,
            latest: false,
        };
        let router = Router::open(alloc, plan, keeps)?;
        // A law, which does nothing.
        router.has_happened();
        let accounts = accounts_of(alloc, plan.senders())?;
        // Reading these brings into scope that senders rise, and how many devices there are.
        let _ = router.senders();
        let _ = router.devices();
        Ok(ScriptRouter {
            router,
            accounts,
            given: Vec::new(alloc),
            evicted: Vec::new(alloc),
        })
    }

    /// The sender at this place offers its next packet, of this length in bytes, to its queue. Returns the packet and the outcome. Fault 1
    /// if an allocation fails.
    pub fn send(&mut self, place: usize, length: u16) -> Result<(Packet, Offered), Fault>
        requires ready { IsReady self.old }
        requires is_there { IsPlace self.old.accounts.items place }
        requires has_length { 1 ≤ length }
        ensures sender { IfOk result (λ r. sender_at self.old.router.setup place ≡ Some r.0.sender) }
        ensures length { IfOk result (λ r. r.0.length ≡ length) }
        ensures leads { IfOk result (λ r. (setup : Setup) (events : _) → IsAt setup events self.old → IsAt setup (events ++ offered r.0 r.1 ∷ []) self.new) }
        ensures given { OnOk result (self.new.given ≡ self.old.given) }
        ensures keeps { OnOk result (self.new.router.keeps ≡ self.old.router.keeps) }
        ensures fault { IsOkUnless result Fault.Memory }
    {
        let (packet, outcome) = self.router.offer(place, length);
        // Laws, which do nothing: all events can happen, and each sender has offered fewer than 2^32 packets.
        self.router.has_happened();
        self.router.has_account();
        let numbers = self.router.senders();
        count_offered(&mut self.accounts, numbers, place, packet, outcome);
        self.keep_evicted(outcome)?;
        Ok((packet, outcome))
    }

    /// Keeps the packet that was evicted, if one was. Fault 1 if an allocation fails.
    #[inline(always)]
    fn keep_evicted(&mut self, outcome: Offered) -> Result<(), Fault>
        ensures kept { OnOk result (self.new ≡ record self.old { evicted = self.new.evicted }) }
        ensures evicted { OnOk result (self.new.evicted.items ≡ evicted_kept outcome self.old.evicted.items) }
        ensures fault { IsOkUnless result Fault.Memory }
    {
        if let Offered::Evicted(front) = outcome {
            self.evicted.push(front)?;
        }
        Ok(())
    }

    /// Pulls a device once, at this moment in ticks, or at the device's latest moment if that is later. Fault 1 if an allocation fails.
    pub fn pull(&mut self, device: u16, moment: u64) -> Result<Option<Packet>, Fault>
        requires alike { AreAlike self.old }
        requires can { CanPull self.old.router device moment }
        ensures leads { IfOk result (λ got. (setup : Setup) (events : _) → IsAt setup events self.old → LeadsOnByPull setup self.new device moment got events) }
        ensures given { IfOk result (λ got. self.new.given.items ≡ given_kept self.old got) }
        ensures keeps { OnOk result (self.new.router.keeps ≡ self.old.router.keeps) }
        ensures fault { IsOkUnless result Fault.Memory }
    {
        let got = self.router.pull(device, moment)?;
        // Laws, which do nothing: all events can happen, and each sender has offered fewer than 2^32 packets.
        self.router.has_happened();
        self.router.has_account();
        count_pulled(&mut self.accounts, self.router.senders(), got);
        self.keep(got)?;
        Ok(got)
    }

    /// Keeps the packet that a pull gave, if there are several devices. Fault 1 if an allocation fails.
    #[inline(always)]
    fn keep(&mut self, got: Option<Packet>) -> Result<(), Fault>
        ensures given { OnOk result (self.new.given.items ≡ given_kept self.old got) }
        ensures others { OnOk result (ChangesGiven self.old self.new) }
        ensures fault { IsOkUnless result Fault.Memory }
    {
        if self.router.devices() > 1 {
            if let Some(packet) = got {
                self.given.push(packet)?;
            }
        }
        Ok(())
    }

    /// Drains a device: pulls it one tick apart until all packets that are left for it are emitted. The first pull is one tick after the
    /// later of this moment and the device's latest. Returns these packets, each with its moment. Fault 1 if an allocation fails.
    pub fn drain(
        &mut self,
        alloc: Global,
        device: u16,
        moment: u64,
    ) -> Result<Vec<Departure>, Fault>
        requires alike { AreAlike self.old }
        requires can { CanClose self.old.router device moment }
        ensures leads { IfOk result (λ departures. (setup : Setup) (events : _) → IsAt setup events self.old → LeadsOnByDrain setup self.new device moment events departures.items) }
        ensures alike { OnOk result (AreAlike self.new) }
        ensures elsewhere { OnOk result (StaysElsewhere device self.old.router self.new.router) }
        ensures setup { OnOk result (self.new.router.setup ≡ self.old.router.setup) }
        ensures keeps { OnOk result (self.new.router.keeps ≡ self.old.router.keeps) }
        ensures given { OnOk result (self.new.given ≡ self.old.given) }
        ensures fault { IsOkUnless result Fault.Memory }
    {
        let departures = self.router.close(alloc, device, moment)?;
        // Laws, which do nothing: all events can happen, and each sender has offered fewer than 2^32 packets.
        self.router.has_happened();
        self.router.has_account();
        count_drained(&mut self.accounts, self.router.senders(), &departures);
        Ok(departures)
    }
}
