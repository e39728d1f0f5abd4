//! What is wrong with the names and the ports of elements.

use crate::mentions::{
    Found, Mention, argument_count, class_of, find, input_at, token_from, word_from,
};
use crate::words::Words;
use clk_packet::{MAX_INPUTS, SchedulerName};
use clk_syntax::{ClassName, Symbol};

/// That the name at an offset was declared before.
pub fn name_twice(text: &[u8], offset: usize) -> Words {
    let name = word_from(text, offset);
    let twice = Words::of("the name ")
        .and_quoted(name)
        .and(" is declared twice");
    and_first(twice, text, offset, find(text, name, Mention::Declared))
}

/// That an output or an input of the element at an offset was connected before.
pub fn twice(text: &[u8], offset: usize) -> Words {
    let name = word_from(text, offset);
    if let Some((input, first)) = input_twice(text, name, offset) {
        let twice = of_input(input, name).and(" is connected twice");
        return and_first(twice, text, offset, Some(first));
    }
    let twice = of_output(name).and(" is connected twice");
    and_first(twice, text, offset, find(text, name, Mention::Output))
}

/// The input that the element at an offset has there, and where it was connected before, if it is pulled and was.
fn input_twice(text: &[u8], name: &[u8], offset: usize) -> Option<(u64, Found)> {
    if is_queue(class_of(text, name)) {
        return None;
    }
    let input = input_at(text, offset)?;
    let first = find(text, name, Mention::Input(input))?;
    if first.start < offset {
        Some((input, first))
    } else {
        None
    }
}

/// That the output or an input of the element that is declared at an offset isn't connected.
pub fn missing_port(text: &[u8], offset: usize) -> Words {
    let name = word_from(text, offset);
    if needs_output(text, name) {
        return of_output(name).and(" isn't connected");
    }
    let mut input = 0;
    while input < MAX_INPUTS as u64 {
        if find(text, name, Mention::Input(input)).is_none() {
            return of_input(input, name).and(" isn't connected");
        }
        input += 1;
    }
    Words::of("an input of ")
        .and_quoted(name)
        .and(" isn't connected")
}

/// Whether an element has an output that isn't connected.
fn needs_output(text: &[u8], name: &[u8]) -> bool {
    if let Some(ClassName::ToDevice) = class_of(text, name) {
        return false;
    }
    find(text, name, Mention::Output).is_none()
}

/// That the output of the element at an offset leads to an input of the other kind.
pub fn wrong_kind(text: &[u8], offset: usize) -> Words {
    let name = word_from(text, offset);
    let wrong = of_output(name);
    let wrong = if is_sender(class_of(text, name)) {
        wrong.and(" pushes, and leads to an input that is pulled")
    } else {
        wrong.and(" is pulled, and leads to an input that is pushed")
    };
    match name_after(text, offset) {
        Some(next) => wrong.and(", of ").and_quoted(word_from(text, next.start)),
        None => wrong,
    }
}

/// Where the output of the element at an offset has to lead.
pub fn wanted_kind(text: &[u8], offset: usize) -> Words {
    if is_sender(class_of(text, word_from(text, offset))) {
        return Words::of("expected a Queue or a FrontDropQueue after a Sender");
    }
    Words::of("expected a scheduler, a Shaper or a ToDevice")
}

/// What ports the element of this name has.
pub fn ports_of(text: &[u8], name: &[u8]) -> Words {
    let Some(class) = class_of(text, name) else {
        return Words::of("expected a port of its class");
    };
    match class {
        ClassName::Sender => Words::of("expected output 0: a Sender has no input"),
        ClassName::Queue | ClassName::FrontDropQueue => {
            Words::of("expected input 0 and output 0 of a queue")
        }
        ClassName::Scheduler(SchedulerName::Shaper) => Words::of(
            "expected input 0 and output 0 of a Shaper",
        ),
        ClassName::ToDevice => Words::of("expected input 0: a ToDevice has no output"),
        ClassName::Scheduler(scheduler) => Words::of(
            "expected output 0, or an input from 0 to ",
        ).and_number(last_input(scheduler, argument_count(text, name).unwrap_or(0))),
    }
}

/// The greatest number of an input of a scheduler with so many arguments. A StrideSched has one for each input, and so has a DRRSched with
/// more than one.
fn last_input(scheduler: SchedulerName, arguments: usize) -> usize {
    let has_one_each = match scheduler {
        SchedulerName::Stride => arguments >= 1,
        SchedulerName::Drr => arguments >= 2,
        _ => false,
    };
    if has_one_each {
        arguments.min(MAX_INPUTS) - 1
    } else {
        MAX_INPUTS - 1
    }
}

/// What is wrong, and where it was first, if that is before an offset.
fn and_first(words: Words, text: &[u8], offset: usize, first: Option<Found>) -> Words {
    match first {
        Some(first) if first.start < offset => words
            .and("; first at ")
            .and_position(text, first.start),
        _ => words,
    }
}

/// The name that a chain leads to from an offset.
fn name_after(text: &[u8], offset: usize) -> Option<Found> {
    let mut token = token_from(text, offset)?;
    loop {
        token = token_from(text, token.end)?;
        match token.symbol {
            Symbol::Name => return Some(token),
            Symbol::Semicolon | Symbol::Nothing => return None,
            _ => {}
        }
    }
}

/// Begins a sentence on the output of an element.
fn of_output(name: &[u8]) -> Words {
    Words::of("the output of ").and_quoted(name)
}

/// Begins a sentence on an input of an element.
fn of_input(input: u64, name: &[u8]) -> Words {
    Words::of("input ")
        .and_number(input as usize)
        .and(" of ")
        .and_quoted(name)
}

/// Whether a class is that of a queue.
fn is_queue(class: Option<ClassName>) -> bool {
    matches!(class, Some(ClassName::Queue | ClassName::FrontDropQueue))
}

/// Whether a class is that of a Sender.
fn is_sender(class: Option<ClassName>) -> bool {
    matches!(class, Some(ClassName::Sender))
}
