//! The values that C hands over and receives.

ghost use Rattle.std.specs.Prelude.{◌≡◌, true, false};
ghost use Rattle.clickpull_c.specs.Answers.{IsLength};
ghost use Rattle.clickpull_c.specs.Values.{packet_in_c, offered_in_c, fault_in_c, total_in_c, account_in_c, queue_in_c};

use crate::statuses::{ACCEPTED, EVICTED, REFUSED};
use clk_packet::{Fault, Kind, Offered, Packet, Total};
use clk_router::{Account, QueueState};

/// A packet. In C it is the struct `clk_packet`.
#[repr(C)]
#[derive(Clone, Copy)]
pub struct CPacket {
    /// Its place among all packets that its sender offered, from 0.
    pub number: u32,
    /// Its sender's number.
    pub sender: u16,
    /// Its length in bytes, from 1 to 65,535.
    pub length: u16,
}

/// What an offer returns. In C it is the struct `clk_offered`.
#[repr(C)]
#[derive(Clone, Copy)]
pub struct COffered {
    /// The packet, with its number.
    pub packet: CPacket,
    /// The packet that was evicted for it. All zero unless the outcome is 2.
    pub evicted: CPacket,
    /// 0 if the packet was accepted, 1 if it was refused, 2 if it was accepted and another was evicted for it.
    pub outcome: u32,
}

/// One of several offers. In C it is the struct `clk_offer_of`.
#[repr(C)]
#[derive(Clone, Copy)]
pub struct COffer {
    /// The sender's number.
    pub sender: u32,
    /// The packet's length in bytes, from 1 to 65,535.
    pub length: u32,
}

/// A packet that a drain emitted. In C it is the struct `clk_departure`.
#[repr(C)]
#[derive(Clone, Copy)]
pub struct CDeparture {
    /// When it was emitted, in ticks.
    pub moment: u64,
    /// The packet.
    pub packet: CPacket,
}

/// How many packets, and the sum of their lengths. In C it is the struct `clk_total`.
#[repr(C)]
#[derive(Clone, Copy)]
pub struct CTotal {
    /// How many packets.
    pub packets: u64,
    /// How many bytes.
    pub bytes: u64,
}

/// The totals of the packets that a sender offered. In C it is the struct `clk_account`.
#[repr(C)]
#[derive(Clone, Copy)]
pub struct CAccount {
    /// What its queue accepted.
    pub accepted: CTotal,
    /// What its full queue refused.
    pub refused: CTotal,
    /// The part of the accepted that was evicted for later packets.
    pub evicted: CTotal,
    /// The part of the accepted that the device emitted.
    pub emitted: CTotal,
    /// The sender's number.
    pub sender: u16,
    /// The number of the queue to which it offers.
    pub queue: u16,
}

/// A queue. In C it is the struct `clk_queue`.
#[repr(C)]
#[derive(Clone, Copy)]
pub struct CQueue {
    /// How many packets it holds at most.
    pub capacity: u64,
    /// How many it holds.
    pub held: u64,
    /// The number of the device that emits its packets.
    pub device: u16,
    /// 1 for a FrontDropQueue, 0 for a Queue.
    pub front_drop: u16,
}

/// Why no router was opened. In C it is the struct `clk_fault`.
#[repr(C)]
#[derive(Clone, Copy)]
pub struct CFault {
    /// The fault's number.
    pub number: u32,
    /// At which byte of the text, from 0. 0 if the fault has no place.
    pub offset: u32,
}

/// Whether a packet may have this length in bytes: from 1 to 65,535.
pub fn is_length(length: u32) -> bool
    ensures yes { result ≡ true → IsLength length }
    ensures no { result ≡ false → IsLength length → ⊥ }
{
    1 <= length && length <= u32::from(u16::MAX)
}

/// A packet, as C sees it.
pub fn packet_for_c(packet: Packet) -> CPacket
    ensures { result ≡ packet_in_c packet }
{
    CPacket {
        number: packet.number,
        sender: packet.sender,
        length: packet.length,
    }
}

/// A packet that was offered, with its outcome, as C sees them.
pub fn offered_for_c(packet: Packet, outcome: Offered) -> COffered
    ensures { result ≡ offered_in_c packet outcome }
{
    let none = CPacket {
        number: 0,
        sender: 0,
        length: 0,
    };
    let (evicted, outcome) = match outcome {
        Offered::Accepted => (none, ACCEPTED),
        Offered::Refused(_) => (none, REFUSED),
        Offered::Evicted(front) => (packet_for_c(front), EVICTED),
    };
    COffered {
        packet: packet_for_c(packet),
        evicted,
        outcome,
    }
}

/// A fault, as C sees it.
pub fn fault_for_c(fault: Fault) -> CFault
    ensures { result ≡ fault_in_c fault }
{
    let number = u32::from(fault.number());
    let offset = match fault {
        Fault::BadText { offset }
        | Fault::UnknownClass { offset }
        | Fault::BadArgument { offset }
        | Fault::NameTwice { offset }
        | Fault::UnknownName { offset }
        | Fault::BadPort { offset }
        | Fault::PortTwice { offset }
        | Fault::PortMissing { offset }
        | Fault::WrongKind { offset }
        | Fault::ManyDevices { offset }
        | Fault::NotATree { offset } => offset,
        _ => 0,
    };
    CFault { number, offset }
}

/// A total, as C sees it.
fn total_for_c(total: Total<u64>) -> CTotal
    ensures { result ≡ total_in_c total }
{
    CTotal {
        packets: total.packets,
        bytes: total.bytes,
    }
}

/// An account, as C sees it.
pub fn account_for_c(account: &Account) -> CAccount
    ensures { result ≡ account_in_c account.now }
{
    let counts = &account.counts;
    CAccount {
        accepted: total_for_c(counts.accepted),
        refused: total_for_c(counts.refused),
        evicted: total_for_c(counts.evicted),
        emitted: total_for_c(counts.emitted),
        sender: counts.sender,
        queue: account.queue,
    }
}

/// A queue, as C sees it.
pub fn queue_for_c(queue: QueueState) -> CQueue
    ensures { result ≡ queue_in_c queue }
{
    CQueue {
        capacity: queue.capacity as u64,
        held: queue.held as u64,
        device: queue.device,
        front_drop: match queue.kind {
            Kind::TailDrop => 0,
            Kind::FrontDrop => 1,
        },
    }
}
