//! The turns of a StrideSched over queues of which many are empty, beside its rule.

use clk_packet::{Fault, Packet};
use clk_sched::{Ask, Session, Tree};
use std::alloc::{AllocError, Global};
use std::process::Abort;

/// How many queues there are.
const QUEUES: u16 = 20;

/// How many packets each queue has, so that it is known which have none.
#[derive(Drop)]
struct Left(Vec<u32>);

impl Ask for Left {
    ghost use Rattle.std.specs.Prelude.{true};

    ghost has = { λ s leaf. true };

    ghost holds = { λ s leaf. 0 };

    ghost gives = { λ s leaf got t. Unit };

    fn ask(&mut self, leaf: u16) -> Option<Packet> {
        let left = self.0.get_mut(usize::from(leaf))?;
        if *left == 0 {
            return None;
        }
        *left -= 1;
        Some(Packet {
            number: *left,
            sender: leaf,
            length: 1,
        })
    }

    fn idle_from(&self, leaf: u16, count: u16) -> u16 {
        for place in 0..count {
            if self.0.get(usize::from(leaf) + usize::from(place)) != Some(&0) {
                return place;
            }
        }
        count
    }
}

impl Left {
    // A queue gets so many packets more.
    fn add(&mut self, queue: usize, count: u32) {
        if let Some(left) = self.0.get_mut(queue) {
            *left = left.saturating_add(count);
        }
    }
}

/// The passes of the queues, and their strides.
#[derive(Drop)]
struct Rule {
    passes: Vec<u32>,
    strides: Vec<u32>,
}

impl Rule {
    // A queue has one to four tickets, by its number.
    fn new(alloc: Global) -> Result<Rule, AllocError> {
        let mut passes = Vec::new(alloc);
        let mut strides = Vec::new(alloc);
        for queue in 0..u32::from(QUEUES) {
            passes.push(0)?;
            strides.push(65_536 / (1 + queue % 4))?;
        }
        Ok(Rule { passes, strides })
    }

    // Takes a turn. It is that of the queue with the least pass among those that have packets, of the first if several have it. Queues with
    // a lower pass, which are empty, get its pass, and it goes on by its stride.
    fn next(&mut self, left: &Left) -> Option<usize> {
        let winner = self.least(left)?;
        let pass = *self.passes.get(winner)?;
        for other in self.passes.iter_mut() {
            *other = pass.max(*other);
        }
        let stride = *self.strides.get(winner)?;
        if let Some(own) = self.passes.get_mut(winner) {
            *own = pass.saturating_add(stride);
        }
        Some(winner)
    }

    fn least(&self, left: &Left) -> Option<usize> {
        let mut found: Option<(usize, u32)> = None;
        for (queue, pass) in self.passes.iter().enumerate() {
            let has = left.0.get(queue).is_some_and(|left| *left > 0);
            if has && found.is_none_or(|(_, least)| *pass < least) {
                found = Some((queue, *pass));
            }
        }
        found.map(|(queue, _)| queue)
    }
}

// A StrideSched over the queues, whose tickets are those of the rule.
fn stride_over_all(rt: &impl Abort, alloc: Global) -> Result<Tree, Fault> {
    let tickets = vec![in alloc; 1, 2, 3, 4, 1, 2, 3, 4, 1, 2, 3, 4, 1, 2, 3, 4, 1, 2, 3, 4]?;
    let mut leaves = Vec::new(alloc);
    for queue in 0..QUEUES {
        leaves.push(Tree::leaf(queue))?;
    }
    assert!(rt; leaves.len() == 20);
    Tree::stride(tickets, leaves)
}

// The sender of the packet that a pull emits.
fn sender_of_pull(session: &mut Session, queues: &mut Left) -> Result<Option<usize>, Fault> {
    let got = session.pull(queues, 0)?;
    Ok(got.map(|packet| usize::from(packet.sender)))
}

// Queues 3 and 19, which have the same tickets, are busy. At every third pull the next of all queues gets two packets more. So there are
// eight idle ones and more in a row, of one pass and of several, and fewer.
#[test]
fn turns_are_those_of_the_rule(rt: HostRuntime) -> Result<(), Fault> {
    let tree = stride_over_all(&rt, rt.alloc())?;
    assert!(rt; tree.leaves_distinct());
    let mut session = Session::new(rt.alloc(), tree)?;
    let mut queues = Left(vec![in rt.alloc(); 0; 20]?);
    queues.add(3, 1000);
    queues.add(19, 1000);
    let mut rule = Rule::new(rt.alloc())?;
    for pull in 0..500 {
        if pull % 3 == 0 {
            queues.add(pull * 7 % 20, 2);
        }
        let expected = rule.next(&queues);
        assert_eq!(rt;
            sender_of_pull(&mut session, &mut queues)?,
            expected,
            "at pull {pull}"
        );
    }
    Ok(())
}
