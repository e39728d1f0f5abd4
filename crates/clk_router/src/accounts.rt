//! The totals of the packets of each sender of a router.

ghost use Rattle.std.specs.Prelude.{◌≡◌, ℕ, ◌++◌, ◌∷◌, [], List, Some, map, slice_get, IfOk, IsOkUnless};
ghost use Rattle.clk_packet.specs.Lists.{AreRising};
ghost use Rattle.clk_sched.specs.declared.visit.Visit.{Visit};
ghost use Rattle.clk_sched.specs.Departures.{departures_in};
ghost use Rattle.clk_sched.specs.Log.{visits_of, result_of};
ghost use Rattle.clk_router.specs.Accounts.{account_after, account_sender, AreFew};
ghost use Rattle.clk_router.specs.Events.{Event, offered, pulled, pulls_from};
ghost use Rattle.clk_router.specs.inside.Accounts.{put_out, with_emitted, with_packet};

use crate::senders::place_of;
use clk_packet::{Counts, Fault, Offered, Packet, Total};
use clk_sched::Departure;
use clk_tree::SenderSpec;
use std::alloc::Global;

/// The counts of a sender's packets so far, and its queue.
#[derive(Clone, Copy, Debug)]
pub struct Account {
    /// The number of the queue that the sender sends to.
    pub queue: u16,
    /// The counts of its packets.
    pub counts: Counts<u64>,
}

/// The total of no packets.
const NONE: Total<u64> = Total {
    packets: 0,
    bytes: 0,
};

/// Adds a packet to a total, modulo 2^64.
fn add(total: &mut Total<u64>, packet: Packet)
    ensures { total.new ≡ with_packet packet total.old }
{
    total.packets = total.packets.wrapping_add(1);
    total.bytes = total.bytes.wrapping_add(u64::from(packet.length));
}

/// The accounts of these senders, before they have sent anything. Fault 1 if an allocation fails.
pub fn accounts_of(alloc: Global, specs: &[SenderSpec]) -> Result<Vec<Account>, Fault>
    ensures made { IfOk result (λ accounts. accounts.items ≡ map (account_after []) specs.now) }
    ensures fault { IsOkUnless result Fault.Memory }
{
    let mut accounts = Vec::new(alloc);
    for spec in specs {
        accounts.push(Account {
            queue: spec.queue,
            counts: Counts {
                sender: spec.number,
                accepted: NONE,
                refused: NONE,
                evicted: NONE,
                emitted: NONE,
            },
        })?;
    }
    Ok(accounts)
}

/// Counts the outcome of a packet. The account of the sender that offered it stands at this place, and `numbers` has the senders of the
/// accounts. Counts are exact as long as each sender has fewer than 2^32 packets of each outcome. In a [`Router`](crate::Router) this is
/// always so.
pub fn count_offered(
    accounts: &mut Vec<Account>,
    numbers: &[u16],
    place: usize,
    packet: Packet,
    outcome: Offered,
)
    requires alike { map account_sender accounts.old.items ≡ numbers.now }
    requires rising { AreRising numbers.now }
    requires here { slice_get numbers.now place ≡ Some packet.sender }
    ensures { (events : List Event) (specs : _) → let after = map (account_after (events ++ offered packet outcome ∷ [])) specs in
        AreFew after → accounts.old.items ≡ map (account_after events) specs → accounts.new.items ≡ after }
{
    let counts = &mut accounts[place].counts;
    match outcome {
        Offered::Accepted => add(&mut counts.accepted, packet),
        Offered::Refused(_) => add(&mut counts.refused, packet),
        Offered::Evicted(front) => {
            add(&mut counts.accepted, packet);
            count_evicted(accounts, numbers, front);
        }
    }
}

/// Counts that a packet was evicted from its queue for a later one. `numbers` has the senders of the accounts.
fn count_evicted(accounts: &mut Vec<Account>, numbers: &[u16], front: Packet)
    requires alike { map account_sender accounts.old.items ≡ numbers.now }
    requires rising { AreRising numbers.now }
    ensures { accounts.new.items ≡ map (put_out front) accounts.old.items }
{
    match place_of(numbers, front.sender) {
        Some(place) => add(&mut accounts[usize::from(place)].counts.evicted, front),
        None => {}
    }
}

/// Counts the packet that a pull emitted, if it emitted one. `numbers` has the senders of the accounts. Counts are exact as long as each
/// sender has fewer than 2^32 packets of each outcome.
pub fn count_pulled(accounts: &mut Vec<Account>, numbers: &[u16], got: Option<Packet>)
    requires alike { map account_sender accounts.old.items ≡ numbers.now }
    requires rising { AreRising numbers.now }
    ensures { (events : List Event) (specs : _) (device moment : ℕ) (visits : List Visit) → let after = map (account_after (events ++ pulled device moment visits ∷ [])) specs in
        AreFew after → result_of (visits_of 0 visits) ≡ got → accounts.old.items ≡ map (account_after events) specs → accounts.new.items ≡ after }
{
    match got {
        Some(packet) => count_emitted(accounts, numbers, packet),
        None => {}
    }
}

/// Counts the packets that a drain of a device emitted. `numbers` has the senders of the accounts. Counts are exact as long as each sender
/// has fewer than 2^32 packets of each outcome.
pub fn count_drained(accounts: &mut Vec<Account>, numbers: &[u16], departures: &[Departure])
    requires alike { map account_sender accounts.old.items ≡ numbers.now }
    requires rising { AreRising numbers.now }
    ensures alike { map account_sender accounts.new.items ≡ numbers.now }
    ensures counted { (events : List Event) (specs : _) (device moment : ℕ) (pulls : List (List Visit)) → let after = map (account_after (events ++ pulls_from device moment pulls)) specs in
        AreFew after → departures.now ≡ departures_in pulls → accounts.old.items ≡ map (account_after events) specs → accounts.new.items ≡ after }
{
    for departure in departures {
        count_emitted(accounts, numbers, departure.packet);
    }
}

/// Counts that a device emitted a packet. `numbers` has the senders of the accounts.
fn count_emitted(accounts: &mut Vec<Account>, numbers: &[u16], packet: Packet)
    requires alike { map account_sender accounts.old.items ≡ numbers.now }
    requires rising { AreRising numbers.now }
    ensures { accounts.new.items ≡ map (with_emitted packet) accounts.old.items }
{
    match place_of(numbers, packet.sender) {
        Some(place) => add(&mut accounts[usize::from(place)].counts.emitted, packet),
        None => {}
    }
}
