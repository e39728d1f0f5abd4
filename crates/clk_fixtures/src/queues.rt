//! Queues that a test fills.

use clk_packet::{Fault, Packet};
use clk_sched::{Ask, Backlog};
use std::alloc::{AllocError, Global};
use std::collections::VecDeque;

/// A queue at each of the first leaves. Sender 0 sends to queue 0, and so on.
#[derive(Drop)]
pub struct Queues(pub Vec<Queue>);

/// The packets that wait at a leaf.
#[derive(Drop)]
pub struct Queue {
    pub packets: VecDeque<Packet>,
    /// How many packets were sent to it.
    pub sent: u32,
}

impl Queues {
    /// So many empty queues.
    pub fn new(alloc: Global, count: u16) -> Result<Queues, AllocError> {
        let mut queues = Vec::new(alloc);
        for _ in 0..count {
            queues.push(Queue {
                packets: VecDeque::new(alloc),
                sent: 0,
            })?;
        }
        Ok(Queues(queues))
    }

    /// Packets of a sender, with these lengths, go to its queue. Returns fault 15 if there is none.
    pub fn send(&mut self, sender: u16, lengths: &[u16]) -> Result<(), Fault> {
        let queue = self.of(sender)?;
        for length in lengths {
            queue.put(sender, *length)?;
        }
        Ok(())
    }

    /// A packet of a sender, with this length, goes to its queue. Returns the packet, or fault 15 if there is no queue.
    pub fn send_one(&mut self, sender: u16, length: u16) -> Result<Packet, Fault> {
        Ok(self.of(sender)?.put(sender, length)?)
    }

    /// So many packets of a sender, with one length, go to its queue. Returns fault 15 if there is none.
    pub fn send_many(&mut self, sender: u16, length: u16, count: u32) -> Result<(), Fault> {
        let queue = self.of(sender)?;
        for _ in 0..count {
            queue.put(sender, length)?;
        }
        Ok(())
    }

    fn of(&mut self, sender: u16) -> Result<&mut Queue, Fault> {
        let queue = self.0.get_mut(usize::from(sender));
        queue.ok_or(Fault::UnknownSender { sender })
    }
}

impl Queue {
    // A length of 0, which no packet has, stands for 1.
    fn put(&mut self, sender: u16, length: u16) -> Result<Packet, AllocError> {
        let number = self.sent;
        self.sent = number.saturating_add(1);
        let packet = Packet {
            number,
            sender,
            length: length.max(1),
        };
        self.packets.push_back(packet)?;
        Ok(packet)
    }
}

impl Ask for Queues {
    ghost use Rattle.std.specs.Prelude.{is_some, slice_get};

    ghost has = { λ s leaf. is_some (slice_get s.0.items leaf) };

    ghost holds = { λ s leaf. 0 };

    ghost gives = { λ s leaf got t. Unit };

    fn ask(&mut self, leaf: u16) -> Option<Packet> {
        let queue = self.0.get_mut(usize::from(leaf))?;
        queue.packets.pop_front()
    }

    fn idle_from(&self, leaf: u16, count: u16) -> u16 {
        for place in 0..count {
            let queue = self.0.get(usize::from(leaf) + usize::from(place));
            if queue.is_none_or(|queue| !queue.packets.is_empty()) {
                return place;
            }
        }
        count
    }
}

impl Backlog for Queues {
    ghost use Rattle.std.specs.Prelude.{length, nat_lt, slice_get};
    ghost use Rattle.std.specs.List.{list_any};
    ghost use Rattle.std.specs.Option.{option_to_list};

    ghost backlogged = { λ s leaf. list_any (λ queue. nat_lt 0 (length queue.packets.items)) (option_to_list (slice_get s.0.items leaf)) };

    fn is_backlogged(&self, leaf: u16) -> bool {
        match self.0.get(usize::from(leaf)) {
            Some(queue) => !queue.packets.is_empty(),
            None => false,
        }
    }
}
