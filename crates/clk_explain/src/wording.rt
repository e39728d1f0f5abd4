//! What is wrong in a sentence, and what was expected, for each fault.

mod arguments;
mod classes;
mod elements;
mod grammar;

use crate::mentions::word_from;
use crate::words::Words;
use classes::{arguments_of, class_names, known_class};
use clk_packet::{Fault, MAX_ELEMENTS, MAX_INPUTS, MAX_LENGTH, MAX_LEVELS, MAX_SENDER};
use clk_syntax::MAX_TREE_BYTES;
use elements::{missing_port, ports_of, twice, wanted_kind, wrong_kind};

/// What is wrong.
pub fn sentence(text: &[u8], fault: Fault) -> Words {
    match fault {
        Fault::BadText { offset } => grammar::sentence(text, offset as usize),
        Fault::UnknownClass { offset } => {
            Words::of("there is no class ").and_quoted(word_from(text, offset as usize))
        }
        Fault::BadArgument { offset } => arguments::sentence(text, offset as usize),
        Fault::NameTwice { offset } => elements::name_twice(text, offset as usize),
        Fault::UnknownName { offset } => Words::of("no element has the name ").and_quoted(word_from(
            text,
            offset as usize,
        )),
        Fault::BadPort { offset } => Words::of("")
            .and_quoted(word_from(text, offset as usize))
            .and(" doesn't have the port that it has here"),
        Fault::PortTwice { offset } => twice(text, offset as usize),
        Fault::PortMissing { offset } => missing_port(text, offset as usize),
        Fault::WrongKind { offset } => wrong_kind(text, offset as usize),
        Fault::NoDevice => Words::of("no ToDevice is declared"),
        Fault::ManyDevices { .. } => Words::of("a second ToDevice is declared"),
        Fault::NotATree { offset } => Words::of("from ")
            .and_quoted(word_from(text, offset as usize))
            .and(" the outputs lead to no ToDevice"),
        Fault::TooLarge => too_large(text),
        other => elsewhere(other),
    }
}

/// What was expected.
pub fn expected(text: &[u8], fault: Fault) -> Words {
    match fault {
        Fault::BadText { offset } => grammar::expected(text, offset as usize),
        Fault::UnknownClass { .. } => class_names(),
        Fault::BadArgument { offset } => arguments_of(word_from(text, offset as usize)),
        Fault::NameTwice { .. } => Words::of("expected a name of its own for each element"),
        Fault::UnknownName { offset } => declared_name(word_from(text, offset as usize)),
        Fault::BadPort { offset } => ports_of(text, word_from(text, offset as usize)),
        Fault::PortTwice { .. } => {
            Words::of("expected one connection of each output, and of each input that is pulled")
        }
        Fault::PortMissing { .. } => {
            Words::of("expected a connection of each output, and of each input that is pulled")
        }
        Fault::WrongKind { offset } => wanted_kind(text, offset as usize),
        Fault::NoDevice => Words::of("expected a link, as in 'uplink :: ToDevice(eth0);'"),
        Fault::ManyDevices { .. } => Words::of("expected one ToDevice"),
        Fault::NotATree { .. } => {
            Words::of("expected a chain from each scheduler and Shaper to a ToDevice")
        }
        Fault::TooLarge => limits_of(text),
        other => expected_elsewhere(other),
    }
}

/// What is wrong with a text or a tree that is beyond its limit.
fn too_large(text: &[u8]) -> Words {
    if text.len() > MAX_TREE_BYTES {
        return Words::of("the text has more than ")
            .and_number(MAX_TREE_BYTES)
            .and(" bytes");
    }
    Words::of("the tree is too large")
}

/// The limits of texts and trees.
fn limits_of(text: &[u8]) -> Words {
    if text.len() > MAX_TREE_BYTES {
        return Words::of("expected at most ")
            .and_number(MAX_TREE_BYTES)
            .and(" bytes");
    }
    Words::of("expected at most ")
        .and_number(MAX_ELEMENTS as usize)
        .and(" elements, ")
        .and_number(MAX_INPUTS)
        .and(" inputs of a scheduler, and ")
        .and_number(MAX_LEVELS as usize)
        .and(" schedulers and Shapers on a path")
}

/// What was expected of a name in a chain that isn't declared.
fn declared_name(name: &[u8]) -> Words {
    if known_class(name) {
        return Words::of(
            "expected the name of an element: Click's elements without a name are left out here",
        );
    }
    Words::of("expected a declaration of it")
}

/// What is wrong if that isn't in a tree text.
fn elsewhere(fault: Fault) -> Words {
    match fault {
        Fault::Memory => Words::of("an allocation failed"),
        Fault::BadTrace { row } => Words::of("record ")
            .and_number(row as usize)
            .and(" of the trace is wrong"),
        Fault::UnknownSender { sender } => Words::of("the tree has no Sender(")
            .and_number(sender as usize)
            .and(")"),
        Fault::BadScript { line } => Words::of("line ")
            .and_number(line as usize)
            .and(" of the script is no command"),
        Fault::TooManyPulls { pulls } => Words::of("packets are left after ")
            .and_number(pulls as usize)
            .and(" pulls of a drain"),
        Fault::Read => Words::of("the text can't be read"),
        Fault::Write => Words::of("the answer can't be written"),
        Fault::Unsettled {
            queue,
            accepted,
            capacity,
        } => Words::of("queue ")
            .and_number(queue as usize)
            .and(" refused or evicted a packet, though it accepted ")
            .and_number(accepted as usize)
            .and(" packets and has room for ")
            .and_number(capacity as usize),
        _ => Words::of("the text is wrong"),
    }
}

/// What was expected if the fault isn't in a tree text.
fn expected_elsewhere(fault: Fault) -> Words {
    match fault {
        Fault::Memory => Words::of("expected more memory"),
        Fault::BadTrace { .. } => Words::of("expected a sender from 0 to ")
            .and_number(MAX_SENDER as usize)
            .and(" and a length from 1 to ")
            .and_number(MAX_LENGTH as usize),
        Fault::UnknownSender { .. } => Words::of("expected the number of a Sender of the tree"),
        Fault::BadScript { .. } => {
            Words::of(
                "expected 'send SENDER LENGTH', 'pull MOMENT', 'pull MOMENT DEVICE' or, at the end, 'drain MOMENT'",
            )
        }
        Fault::TooManyPulls { .. } => Words::of("expected a drain that leaves none"),
        Fault::Read => Words::of("expected a file that can be read"),
        Fault::Write => Words::of("expected an output that can be written"),
        Fault::Unsettled { .. } => {
            Words::of("expected a queue that accepts packets until it is full")
        }
        _ => Words::of("expected another text"),
    }
}
