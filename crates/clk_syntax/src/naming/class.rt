//! The classes of elements.

ghost use Rattle.std.specs.Prelude.{◌≡◌, ◌<◌, ◌^◌, List, map, length, IfOk, IsOkUnless};
ghost use Rattle.std.specs.Option.{option_map};
ghost use Rattle.clk_packet.specs.Numbers.{number_in};
ghost use Rattle.clk_syntax.specs.Classes.{class_named, class_with, class_view, numbers_to, numbers_in, queue_name, role_of};
ghost use Rattle.clk_syntax.specs.Source.{letters};
ghost use Rattle.clk_syntax.specs.Within.{IsWithin, AreWithin};

use crate::limits::DEFAULT_CAPACITY;
use crate::texts::token::Token;
use clk_packet::{Fault, Kind, MAX_CAPACITY, MAX_SENDER, Scheduler, SchedulerName, number_in};
use std::alloc::Global;

/// The name of a class.
#[derive(Clone, Copy, Debug, PartialEq, Eq)]
pub enum ClassName {
    Sender,
    Queue,
    FrontDropQueue,
    Scheduler(SchedulerName),
    ToDevice,
}

/// A class with all its arguments, also those that a text may leave out.
#[derive(Drop)]
pub enum Class {
    /// The push source of this number.
    Sender(u16),
    /// A queue of this kind, and how many packets it holds at most.
    Queue(Kind, u32),
    /// A scheduler. A DRRSched has the quantum of each input, or one for all inputs.
    Scheduler(Scheduler),
    /// A device, with the word that names it.
    ToDevice(Vec<u8>),
}

/// What ports an element has.
#[derive(Clone, Copy, Debug, PartialEq, Eq)]
pub enum Role {
    /// A Sender: a push output.
    Source,
    /// A queue: a push input and a pull output.
    Queue,
    /// A scheduler with pull inputs, as many as are connected, and a pull output.
    Scheduler,
    /// A scheduler or Shaper with so many pull inputs, and a pull output.
    SchedulerOf(u32),
    /// A ToDevice: a pull input.
    Device,
}

impl ClassName {
    /// The class of this name, if there is one.
    pub fn named(word: &[u8]) -> Option<ClassName>
        ensures { result ≡ class_named word.now }
    {
        if word == b"Sender".as_slice() {
            return Some(ClassName::Sender);
        }
        if word == b"Queue".as_slice() {
            return Some(ClassName::Queue);
        }
        if word == b"FrontDropQueue".as_slice() {
            return Some(ClassName::FrontDropQueue);
        }
        if word == b"ToDevice".as_slice() {
            return Some(ClassName::ToDevice);
        }
        let name = SchedulerName::named(word)?;
        Some(ClassName::Scheduler(name))
    }
}

/// The bytes of a token.
pub fn letters<'a>(text: &'a [u8], token: &Token) -> &'a [u8]
    requires { IsWithin (length text.now) token.now }
    ensures { result.now ≡ letters text.now token.now }
{
    let (_, rest) = text.split_at(token.place as usize);
    let (word, _) = rest.split_at(token.length as usize);
    word
}

/// The number that a token is, if it is one in this range.
fn number_at(text: &[u8], token: &Token, least: u32, most: u32) -> Option<u32>
    requires { IsWithin (length text.now) token.now }
    ensures { result ≡ number_in least most (letters text.now token.now) }
{
    let number = number_in(letters(text, token), u64::from(least), u64::from(most))?;
    Some(number as u32)
}

/// The numbers that tokens are, if each is one from 1 to `most`. Fault 1 if an allocation fails.
fn numbers_at(
    alloc: Global,
    text: &[u8],
    tokens: &[Token],
    most: u32,
) -> Result<Option<Vec<u32>>, Fault>
    requires { AreWithin (length text.now) tokens.now }
    ensures numbers { IfOk result (λ numbers. option_map (λ ns. ns.items) numbers ≡ numbers_to most (map (letters text.now) tokens.now)) }
    ensures fault { IsOkUnless result Fault.Memory }
{
    let mut numbers = Vec::new(alloc);
    for token in tokens {
        match number_at(text, token, 1, most) {
            Some(number) => numbers.push(number)?,
            None => return Ok(None),
        }
    }
    Ok(Some(numbers))
}

impl Class {
    /// A class with these arguments, if it takes them. Fault 1 if an allocation fails.
    pub fn with(
        alloc: Global,
        text: &[u8],
        name: ClassName,
        arguments: &[Token],
    ) -> Result<Option<Class>, Fault>
        requires { AreWithin (length text.now) arguments.now }
        ensures class { IfOk result (λ class. option_map class_view class ≡ class_with name (map (letters text.now) arguments.now)) }
        ensures fault { IsOkUnless result Fault.Memory }
    {
        match name {
            ClassName::Sender => Ok(Class::sender(text, arguments)),
            ClassName::Queue => Ok(Class::queue(text, Kind::TailDrop, arguments)),
            ClassName::FrontDropQueue => Ok(Class::queue(text, Kind::FrontDrop, arguments)),
            ClassName::Scheduler(name) => Class::scheduler(alloc, text, name, arguments),
            ClassName::ToDevice => Class::device(alloc, text, arguments),
        }
    }

    /// A copy of the class. Fault 1 if an allocation fails.
    pub fn copy(&self, alloc: Global) -> Result<Class, Fault>
        ensures same { IfOk result (λ copy. class_view copy ≡ class_view self.now) }
        ensures fault { IsOkUnless result Fault.Memory }
    {
        match self {
            Class::Sender(number) => Ok(Class::Sender(*number)),
            Class::Queue(kind, capacity) => Ok(Class::Queue(*kind, *capacity)),
            Class::Scheduler(scheduler) => Ok(Class::Scheduler(scheduler.copy(alloc)?)),
            Class::ToDevice(word) => Ok(Class::ToDevice(word.to_vec(alloc)?)),
        }
    }

    fn sender(text: &[u8], arguments: &[Token]) -> Option<Class>
        requires { AreWithin (length text.now) arguments.now }
        ensures { option_map class_view result ≡ class_with ClassName.Sender (map (letters text.now) arguments.now) }
    {
        match arguments {
            [number] => {
                let number = number_at(text, number, 0, MAX_SENDER as u32)?;
                Some(Class::Sender(number as u16))
            }
            _ => None,
        }
    }

    fn queue(text: &[u8], kind: Kind, arguments: &[Token]) -> Option<Class>
        requires { AreWithin (length text.now) arguments.now }
        ensures { option_map class_view result ≡ class_with (queue_name kind) (map (letters text.now) arguments.now) }
    {
        match arguments {
            [] => Some(Class::Queue(kind, DEFAULT_CAPACITY)),
            [capacity] => {
                let capacity = number_at(text, capacity, 1, MAX_CAPACITY)?;
                Some(Class::Queue(kind, capacity))
            }
            _ => None,
        }
    }

    fn scheduler(
        alloc: Global,
        text: &[u8],
        name: SchedulerName,
        arguments: &[Token],
    ) -> Result<Option<Class>, Fault>
        requires { AreWithin (length text.now) arguments.now }
        ensures class { IfOk result (λ class. option_map class_view class ≡ class_with (ClassName.Scheduler name) (map (letters text.now) arguments.now)) }
        ensures fault { IsOkUnless result Fault.Memory }
    {
        let Some(numbers) = numbers_at(alloc, text, arguments, name.most_argument())? else {
            return Ok(None);
        };
        match Scheduler::with(name, numbers)? {
            Some(scheduler) => Ok(Some(Class::Scheduler(scheduler))),
            None => Ok(None),
        }
    }

    fn device(alloc: Global, text: &[u8], arguments: &[Token]) -> Result<Option<Class>, Fault>
        requires { AreWithin (length text.now) arguments.now }
        ensures class { IfOk result (λ class. option_map class_view class ≡ class_with ClassName.ToDevice (map (letters text.now) arguments.now)) }
        ensures fault { IsOkUnless result Fault.Memory }
    {
        match arguments {
            [word] => {
                let word = Vec::from_slice(alloc, letters(text, word))?;
                Ok(Some(Class::ToDevice(word)))
            }
            _ => Ok(None),
        }
    }

    /// What ports an element of this class has.
    pub fn role(&self) -> Role
        requires { length (numbers_in (class_view self.now)) < 2 ^ 32 }
        ensures { result ≡ role_of (class_view self.now) }
    {
        match self {
            Class::Sender(_) => Role::Source,
            Class::Queue(_, _) => Role::Queue,
            Class::Scheduler(scheduler) => match scheduler.inputs() {
                None => Role::Scheduler,
                Some(inputs) => Role::SchedulerOf(inputs as u32),
            },
            Class::ToDevice(_) => Role::Device,
        }
    }
}
