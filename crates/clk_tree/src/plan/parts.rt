//! The senders and the queues of a plan.

ghost use Rattle.std.specs.Prelude.{◌≡◌, ◌≤◌, map, length, nat_le, IfOk, OnOk, IsOkUnless};
ghost use Rattle.std.specs.List.{prefix_len};
ghost use Rattle.clk_packet.specs.declared.fault.Fault.TheVariants.{Memory};
ghost use Rattle.clk_packet.specs.declared.limits.TheConstants.{MAX_ELEMENTS};
ghost use Rattle.clk_tree.specs.PlanParts.{queued, queue_fed, senders_of, queues_of, name_of_sender};
ghost use Rattle.clk_tree.specs.inside.ByNumber.{placed, senders_to};
ghost use Rattle.clk_tree.specs.declared.plan.parts.SenderSpec.{SenderSpec};
ghost use Rattle.clk_tree.specs.Elements.{planned};

use crate::plan::devices::device_of;
use crate::plan::element::Element;
use clk_packet::{Fault, Kind};
use clk_syntax::Class;
use std::alloc::Global;

/// A queue of a plan.
#[derive(Drop)]
pub struct QueueSpec {
    /// What it does with a packet that arrives when it is full.
    pub kind: Kind,
    /// How many packets it holds at most, from 1 to 1,000,000.
    pub capacity: u32,
    /// The numbers of the senders that send to it, rising.
    pub senders: Vec<u16>,
    /// The number of the device at the end of its path: devices are numbered from 0 in order of declaration.
    pub device: u16,
}

/// A sender of a plan.
#[derive(Clone, Copy, Debug, PartialEq, Eq)]
pub struct SenderSpec {
    /// Its number, by which a script or a trace names it.
    pub number: u16,
    /// The number of the queue that it sends to: queues are numbered from 0 in order of declaration.
    pub queue: u16,
}

/// The number of the queue to which an element is connected.
fn queue_fed(elements: &[Element], place: u16) -> u16
    requires few { length elements.now ≤ MAX_ELEMENTS }
    ensures { result ≡ queue_fed (map planned elements.now) place }
{
    let mut queue = 0;
    for element in elements {
        if element.is_queue() {
            if element.sources.contains(&place) {
                return queue;
            }
            queue += 1;
        }
    }
    queue
}

/// How many senders come before the first of a greater number than this.
fn rank(senders: &[SenderSpec], number: u16) -> usize
    ensures rank { result ≡ prefix_len (λ (s : SenderSpec). nat_le s.number number) senders.now }
    ensures within { result ≤ length senders.now }
{
    senders
        .iter()
        .take_while(|other| other.number <= number)
        .count()
}

/// Puts a sender before the first of a greater number. Fault 1 if an allocation fails.
fn place(senders: &mut Vec<SenderSpec>, sender: SenderSpec) -> Result<(), Fault>
    ensures placed { OnOk result (senders.new.items ≡ placed sender senders.old.items) }
    ensures fault { IsOkUnless result Memory }
{
    let at = rank(senders, sender.number);
    senders.insert(at, sender)?;
    Ok(())
}

/// The senders of a plan, by rising number. Fault 1 if an allocation fails.
pub fn senders_of(alloc: Global, elements: &[Element]) -> Result<Vec<SenderSpec>, Fault>
    requires few { length elements.now ≤ MAX_ELEMENTS }
    ensures made { IfOk result (λ senders. senders.items ≡ senders_of (map planned elements.now)) }
    ensures fault { IsOkUnless result Memory }
{
    let mut senders = Vec::new(alloc);
    for back in 0..elements.len() {
        let at = elements.len() - 1 - back;
        if let Class::Sender(number) = elements[at].class {
            let queue = queue_fed(elements, at as u16);
            place(&mut senders, SenderSpec { number, queue })?;
        }
    }
    Ok(senders)
}

/// The numbers of the senders that send to this queue. Fault 1 if an allocation fails.
fn senders_to(alloc: Global, senders: &[SenderSpec], queue: u16) -> Result<Vec<u16>, Fault>
    ensures made { IfOk result (λ numbers. numbers.items ≡ senders_to senders.now queue) }
    ensures fault { IsOkUnless result Memory }
{
    let mut numbers = Vec::new(alloc);
    for sender in senders {
        if sender.queue == queue {
            numbers.push(sender.number)?;
        }
    }
    Ok(numbers)
}

/// The queues of a plan, whose senders these are. Fault 1 if an allocation fails.
pub fn queues_of(
    alloc: Global,
    elements: &[Element],
    senders: &[SenderSpec],
) -> Result<Vec<QueueSpec>, Fault>
    requires few { length elements.now ≤ MAX_ELEMENTS }
    requires senders { senders.now ≡ senders_of (map planned elements.now) }
    ensures made { IfOk result (λ queues. map queued queues.items ≡ queues_of (map planned elements.now)) }
    ensures fault { IsOkUnless result Memory }
{
    let mut queues = Vec::new(alloc);
    let mut number = 0;
    for place in 0..elements.len() {
        if let Class::Queue(kind, capacity) = elements[place].class {
            queues.push(QueueSpec {
                kind,
                capacity,
                senders: senders_to(alloc, senders, number)?,
                device: device_of(elements, place as u16),
            })?;
            number += 1;
        }
    }
    Ok(queues)
}

/// The name of the first element that is the sender of this number, or no bytes if there is none.
fn name_of_sender(elements: &[Element], number: u16) -> &[u8]
    ensures { result.now ≡ name_of_sender number (map planned elements.now) }
{
    let [first, rest @ ..] = elements else {
        return &[];
    };
    if first.is_sender(number) {
        return &first.name;
    }
    name_of_sender(rest, number)
}

/// The names of these senders, which are elements of a plan. Fault 1 if an allocation fails.
pub fn names_of(
    alloc: Global,
    elements: &[Element],
    senders: &[SenderSpec],
) -> Result<Vec<Vec<u8>>, Fault>
    ensures made { IfOk result (λ names. map (λ n. n.items) names.items ≡ map (λ (s : SenderSpec). name_of_sender s.number (map planned elements.now)) senders.now) }
    ensures fault { IsOkUnless result Memory }
{
    let mut names = Vec::new(alloc);
    for sender in senders {
        names.push(name_of_sender(elements, sender.number).to_vec(alloc)?)?;
    }
    Ok(names)
}
