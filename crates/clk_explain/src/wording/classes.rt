//! What the classes of elements take.

use crate::words::Words;
use clk_packet::{MAX_CAPACITY, MAX_SENDER, SchedulerName};
use clk_syntax::ClassName;

/// Whether a word is the name of a class.
pub fn known_class(word: &[u8]) -> bool {
    ClassName::named(word).is_some()
}

/// The names of all classes.
pub fn class_names() -> Words {
    Words::of(
        "expected Sender, Queue, FrontDropQueue, PrioSched, RoundRobinSched, DRRSched, StrideSched, Shaper or ToDevice",
    )
}

/// What arguments the class of this name takes.
pub fn arguments_of(word: &[u8]) -> Words {
    let Some(class) = ClassName::named(word) else {
        return class_names();
    };
    match class {
        ClassName::Sender => Words::of("expected a number from 0 to ")
            .and_number(MAX_SENDER as usize)
            .and(" that no other Sender has, and one name"),
        ClassName::Queue | ClassName::FrontDropQueue => up_to(
            "expected no argument, or a capacity in packets",
            MAX_CAPACITY as usize,
        ),
        ClassName::Scheduler(name) => arguments_of_scheduler(name),
        ClassName::ToDevice => Words::of("expected one word for the link"),
    }
}

/// What arguments a scheduler takes.
fn arguments_of_scheduler(name: SchedulerName) -> Words {
    let expected = match name {
        SchedulerName::Prio | SchedulerName::RoundRobin => {
            return Words::of("expected no argument");
        }
        SchedulerName::Drr => {
            "expected no argument, or a quantum in bytes for all inputs or for each"
        }
        SchedulerName::Stride => "expected the tickets of each input",
        SchedulerName::Shaper => "expected a rate in packets a tick, and maybe a burst in packets",
    };
    up_to(expected, name.most_argument() as usize)
}

/// What is expected, in numbers from 1 to `most`.
fn up_to(expected: &str, most: usize) -> Words {
    Words::of(expected).and(", from 1 to ").and_number(most)
}
