//! The limits of trees, each constructor, and what a tree pulls from.

use clk_packet::{Fault, Packet};
use clk_sched::{Ask, Tree};
use std::alloc::Global;
use std::test::Fail;

// A PrioSched over queues of these numbers, of which there is at least one. (The branch shows that to the prover.)
fn over(alloc: Global, queues: &[u16]) -> Result<Tree, Fault> {
    let mut children = Vec::new(alloc);
    for q in queues {
        children.push(Tree::leaf(*q))?;
    }
    if children.is_empty() {
        return Ok(Tree::leaf(0));
    }
    Tree::prio(children)
}

// A queue below so many Shapers.
fn below(alloc: Global, shapers: u8) -> Result<Tree, Fault> {
    let mut tree = Tree::leaf(0);
    for _ in 0..shapers {
        tree = Tree::shaper(alloc, 1, 1, tree)?;
    }
    Ok(tree)
}

#[test]
fn a_scheduler_has_64_inputs_at_most(rt: HostRuntime) {
    assert!(rt; over(rt.alloc(), &[0; 64]).is_ok());
    assert_eq!(rt; over(rt.alloc(), &[0; 65]).err(), Some(Fault::TooLarge));
}

#[test]
fn a_path_has_64_schedulers_at_most(rt: HostRuntime) {
    assert!(rt; below(rt.alloc(), 64).is_ok());
    assert_eq!(rt; below(rt.alloc(), 65).err(), Some(Fault::TooLarge));
}

// tests/refuse-memory makes its one allocation fail.
#[test]
fn a_shaper_takes_memory_once(rt: HostRuntime) {
    let refused = Tree::shaper(rt.alloc(), 2, 3, Tree::leaf(0)).err();
    assert_eq!(rt; refused, None);
}

// A DRRSched over a StrideSched over the first two queues and a RoundRobinSched over the third.
fn mixed(alloc: Global, queues: [u16; 3]) -> Result<Tree, Fault> {
    let [first, second, third] = queues;
    let alone = Tree::round_robin(vec![in alloc; Tree::leaf(third)]?);
    drr_over(alloc, stride_over(alloc, first, second)?, alone?)
}

fn stride_over(alloc: Global, first: u16, second: u16) -> Result<Tree, Fault> {
    let children = vec![in alloc; Tree::leaf(first), Tree::leaf(second)]?;
    Tree::stride(vec![in alloc; 2, 1]?, children)
}

fn drr_over(alloc: Global, first: Tree, second: Tree) -> Result<Tree, Fault> {
    Tree::drr(vec![in alloc; 500, 1000]?, vec![in alloc; first, second]?)
}

#[test]
fn queues_that_stand_twice_are_told(rt: HostRuntime) {
    let cases = [
        ([0, 1, 2], true),
        ([7, 65_535, 0], true),
        ([3, 3, 2], false),
        ([0, 1, 0], false),
        ([4, 1, 1], false),
    ];
    for (queues, expected) in cases {
        assert_eq!(rt;
            mixed(rt.alloc(), queues).map(|tree| tree.leaves_distinct()),
            Ok(expected)
        );
    }
    assert!(rt; Tree::leaf(5).leaves_distinct());
}

// A queue of one packet at leaf 0, and no other leaf.
#[derive(Drop)]
struct OnePacket(Option<Packet>);

impl Ask for OnePacket {
    ghost use Rattle.std.specs.Prelude.{◌≡◌, ◌==◌, length, None, [], if◌then◌else◌};
    ghost use Rattle.std.specs.List.{cons_option};

    ghost has = { λ s leaf. leaf == 0 };

    ghost holds = { λ s leaf. if leaf == 0 then length (cons_option s.0 []) else 0 };

    ghost gives = { λ s leaf got t. got ≡ (if leaf == 0 then s.0 else None) };

    fn ask(&mut self, leaf: u16) -> Option<Packet> {
        if leaf == 0 { self.0.take() } else { None }
    }
}

// Asks by the trait's bound alone, and so by its contract.
fn ask_twice<Q: Ask>(queues: &mut Q, leaf: u16) -> [Option<Packet>; 2] {
    [queues.ask(leaf), queues.ask(leaf)]
}

#[test]
fn a_leaf_that_is_not_there_has_none(rt: HostRuntime) {
    let packet = Packet {
        number: 0,
        sender: 3,
        length: 64,
    };
    let mut queues = OnePacket(Some(packet));
    assert_eq!(rt; ask_twice(&mut queues, 1), [None, None]);
    assert_eq!(rt; ask_twice(&mut queues, 0), [Some(packet), None]);
}
