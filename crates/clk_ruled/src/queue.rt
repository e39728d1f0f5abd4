//! A bounded queue of packets that threads share without a lock.

use crate::protocol::QueueAccount;
use crate::view::View;
use clk_packet::{Kind, Packet};
use crossbeam_queue::RuledArrayQueue;
use std::marker::Model;

pub(crate) type Line = RuledArrayQueue<Packet, View, QueueAccount>;

/// A queue of packets, first in, first out, that holds no more than its capacity. Seats offer it packets and a tap pulls them, each from a
/// thread of its own. Its kind says what it does with a packet that arrives when it is full.
///
/// No lock is taken. A packet takes eight bytes.
#[derive(Drop)]
pub struct RuledQueue {
    pub(crate) line: Line,
    pub(crate) kind: Kind,
    pub(crate) capacity: u32,
}

impl Model for RuledQueue {
    ghost use Rattle.crossbeam_queue.specs.Passes.{ruled_capacity};
    ghost use Rattle.clk_ruled.specs.Queue.{OpenedQueue};

    ghost Value = { OpenedQueue };

    ghost view = { λ q. record { id = q.line.table.shared.table_id; kind = q.kind; capacity = q.capacity; places = ruled_capacity q.line } };
}
