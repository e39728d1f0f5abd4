//! Schedulers by the names and arguments that a tree text gives them.

use clk_packet::{Scheduler, SchedulerName};
use std::alloc::{AllocError, Global};
use std::process::Abort;
use std::test::Fail;

/// Names with arguments, and the arguments of the scheduler over three inputs, or none if it doesn't take so many.
const CASES: &[(&[u8], &[u32], Option<&[u32]>)] = &[
    (b"PrioSched", &[], Some(&[])),
    (b"PrioSched", &[1], None),
    (b"RoundRobinSched", &[], Some(&[])),
    (b"RoundRobinSched", &[1], None),
    (b"DRRSched", &[], Some(&[500, 500, 500])),
    (b"DRRSched", &[7], Some(&[7, 7, 7])),
    (b"DRRSched", &[7, 8, 9], Some(&[7, 8, 9])),
    (b"StrideSched", &[], None),
    (b"StrideSched", &[1], Some(&[1])),
    (b"StrideSched", &[3, 2, 1], Some(&[3, 2, 1])),
    (b"Shaper", &[], None),
    (b"Shaper", &[4], Some(&[4, 4])),
    (b"Shaper", &[4, 5], Some(&[4, 5])),
    (b"Shaper", &[4, 5, 6], None),
];

/// The scheduler of a name with these arguments, if it takes so many.
fn made(
    alloc: Global,
    name: SchedulerName,
    arguments: &[u32],
) -> Result<Option<Scheduler>, AllocError> {
    Scheduler::with(name, arguments.to_vec(alloc)?)
}

// Fails unless a scheduler has this name and, over three inputs, these arguments.
fn assert_over_three(
    rt: &impl Abort,
    alloc: Global,
    scheduler: &Scheduler,
    name: SchedulerName,
    expected: &[u32],
) -> Result<(), AllocError> {
    assert_eq!(rt; scheduler.name(), name);
    let over = scheduler.over(alloc, 3)?.copy(alloc)?;
    assert_eq!(rt; over.name(), name);
    assert_eq!(rt; over.arguments(alloc)?.as_slice(), expected);
    Ok(())
}

#[test]
fn a_scheduler_takes_its_arguments(rt: HostRuntime) -> Result<(), Fail> {
    let alloc = rt.alloc();
    for (word, arguments, expected) in CASES {
        let name = SchedulerName::named(word).expect(&rt, "a name");
        assert_eq!(rt; name.text(), *word);
        let scheduler = made(alloc, name, arguments)?;
        assert_eq!(rt; scheduler.is_some(), expected.is_some(), "{arguments:?}");
        if let (Some(scheduler), Some(expected)) = (scheduler, expected) {
            assert_over_three(&rt, alloc, &scheduler, name, expected)?;
        }
    }
    Ok(())
}

#[test]
fn other_words_name_no_scheduler(rt: HostRuntime) {
    for word in [b"".as_slice(), b"Queue", b"prioSched", b"DRRSched "] {
        assert_eq!(rt; SchedulerName::named(word), None);
    }
}

#[test]
fn arguments_have_a_limit(rt: HostRuntime) {
    let limits = [
        (SchedulerName::Prio, 0),
        (SchedulerName::RoundRobin, 0),
        (SchedulerName::Drr, 1_000_000),
        (SchedulerName::Stride, 32_768),
        (SchedulerName::Shaper, 1_000_000),
    ];
    for (name, limit) in limits {
        assert_eq!(rt; name.most_argument(), limit);
    }
}
