//! Which packets were evicted.

ghost use Rattle.std.specs.Prelude.{◌≡◌, ◌==◌, ◌||◌, ℕ, get_or, false, OnOk, IsOkUnless};
ghost use Rattle.std.specs.List.{count_by};

use clk_packet::{Fault, Packet};
use std::alloc::Global;

// How many senders have their marks in one page.
const PAGE: u16 = 256;

/// A set of packets, which are told apart by sender and number. It takes a byte for each number of a sender, up to the greatest that is
/// marked.
// Senders stand in pages, so that a sender with a large number doesn't need an empty list for each smaller one.
#[derive(Drop)]
pub struct Marks {
    pages: Vec<Page>,
}

impl Marks {
    ghost use Rattle.std.specs.Prelude.{◌≡◌, ◌<◌, ◌||◌, ◌/◌, true, false, vec_len, OnOk, IsOkUnless};
    ghost use Rattle.std.specs.List.{count_by};
    ghost use Rattle.clk_packet.specs.declared.packet.Packet.{Packet};
    ghost use Rattle.clk_ruled.specs.PacketLists.{has_packet, is_packet};
    ghost use Rattle.clk_ruled.specs.inside.Marks.{is_marked, numbers_of};

    /// No packets. Does not allocate.
    pub fn none(alloc: Global) -> Marks
        ensures { (p : Packet) → is_marked result p ≡ false }
    {
        Marks {
            pages: Vec::new(alloc),
        }
    }

    /// Marks these packets. Fault 1 if an allocation fails.
    pub fn mark_all(&mut self, alloc: Global, packets: &[Packet]) -> Result<(), Fault>
        ensures marked { OnOk result ((p : Packet) → is_marked self.new p ≡ (has_packet packets.now p || is_marked self.old p)) }
        ensures fault { IsOkUnless result Fault.Memory }
    {
        for packet in packets {
            self.mark(alloc, *packet)?;
        }
        Ok(())
    }

    // Marks a packet. Fault 1 if an allocation fails.
    #[inline]
    fn mark(&mut self, alloc: Global, packet: Packet) -> Result<(), Fault>
        ensures marked { OnOk result ((p : Packet) → is_marked self.new p ≡ (is_packet p packet || is_marked self.old p)) }
        ensures fault { IsOkUnless result Fault.Memory }
    {
        self.reach(alloc, packet.sender)?;
        let page = &mut self.pages[usize::from(packet.sender / PAGE)];
        page.mark(alloc, packet.sender % PAGE, packet.number)
    }

    // Makes the pages up to that of a sender. Fault 1 if an allocation fails.
    #[inline]
    fn reach(&mut self, alloc: Global, sender: u16) -> Result<(), Fault>
        ensures reached { OnOk result (sender / 256 < vec_len self.new.pages) }
        ensures same { OnOk result ((p : Packet) → is_marked self.new p ≡ is_marked self.old p) }
        ensures fault { IsOkUnless result Fault.Memory }
    {
        for _ in self.pages.len()..usize::from(sender / PAGE) + 1 {
            self.pages.push(Page::blank(alloc))?;
        }
        Ok(())
    }

    /// Whether no packet was ever marked.
    pub fn is_empty(&self) -> bool
        ensures none { result ≡ true → (p : Packet) → is_marked self.now p ≡ false }
        ensures pages { result ≡ false → 0 < vec_len self.now.pages }
    {
        self.pages.is_empty()
    }

    /// Whether a packet is marked.
    #[inline]
    pub fn has(&self, packet: Packet) -> bool
        ensures { result ≡ is_marked self.now packet }
    {
        match self.pages.get(usize::from(packet.sender / PAGE)) {
            Some(page) => page.has(packet.sender % PAGE, packet.number),
            None => false,
        }
    }

    /// How many packets of a sender are marked.
    pub fn count_of(&self, sender: u16) -> usize
        ensures { result ≡ count_by (λ marked. marked) (numbers_of self.now sender) }
    {
        match self.pages.get(usize::from(sender / PAGE)) {
            Some(page) => page.count_of(sender % PAGE),
            None => 0,
        }
    }
}

// The marks of consecutive senders.
#[derive(Drop)]
struct Page {
    // By the sender's place on the page, whether each of its numbers is marked. Numbers past the last aren't.
    senders: Vec<Vec<bool>>,
}

impl Page {
    ghost use Rattle.std.specs.Prelude.{◌≡◌, ◌<◌, ◌==◌, ◌&&◌, ◌||◌, ℕ, false, vec_len, OnOk, IsOkUnless};
    ghost use Rattle.std.specs.List.{count_by};
    ghost use Rattle.clk_ruled.specs.inside.Marks.{is_on, numbers_on};

    // A page without marks. Does not allocate.
    fn blank(alloc: Global) -> Page
        ensures { (p n : ℕ) → is_on result p n ≡ false }
    {
        Page {
            senders: Vec::new(alloc),
        }
    }

    // Marks a number of the sender at a place. Fault 1 if an allocation fails.
    #[inline]
    fn mark(&mut self, alloc: Global, place: u16, number: u32) -> Result<(), Fault>
        ensures marked { OnOk result ((p n : ℕ) → is_on self.new p n ≡ (((p == place) && (n == number)) || is_on self.old p n)) }
        ensures fault { IsOkUnless result Fault.Memory }
    {
        self.reach(alloc, place)?;
        mark_number(&mut self.senders[usize::from(place)], number)
    }

    // Makes the places up to this one. Fault 1 if an allocation fails.
    #[inline]
    fn reach(&mut self, alloc: Global, place: u16) -> Result<(), Fault>
        ensures reached { OnOk result (place < vec_len self.new.senders) }
        ensures same { OnOk result ((p : ℕ) → numbers_on self.new p ≡ numbers_on self.old p) }
        ensures fault { IsOkUnless result Fault.Memory }
    {
        for _ in self.senders.len()..usize::from(place) + 1 {
            self.senders.push(Vec::new(alloc))?;
        }
        Ok(())
    }

    // Whether a number of the sender at a place is marked.
    #[inline]
    fn has(&self, place: u16, number: u32) -> bool
        ensures { result ≡ is_on self.now place number }
    {
        match self.senders.get(usize::from(place)) {
            Some(marks) => has_number(marks, number),
            None => false,
        }
    }

    // How many numbers of the sender at a place are marked.
    fn count_of(&self, place: u16) -> usize
        ensures { result ≡ count_by (λ marked. marked) (numbers_on self.now place) }
    {
        match self.senders.get(usize::from(place)) {
            Some(marks) => count_marked(marks),
            None => 0,
        }
    }
}

// Marks a number of a sender. Fault 1 if an allocation fails.
#[inline]
fn mark_number(marks: &mut Vec<bool>, number: u32) -> Result<(), Fault>
    ensures marked { OnOk result ((n : ℕ) → get_or marks.new.items n false ≡ ((n == number) || get_or marks.old.items n false)) }
    ensures fault { IsOkUnless result Fault.Memory }
{
    for _ in marks.len()..number as usize + 1 {
        marks.push(false)?;
    }
    marks[number as usize] = true;
    Ok(())
}

// Whether a number of a sender is marked.
#[inline]
fn has_number(marks: &[bool], number: u32) -> bool
    ensures { result ≡ get_or marks.now number false }
{
    match marks.get(number as usize) {
        Some(marked) => *marked,
        None => false,
    }
}

// How many numbers of a sender are marked.
fn count_marked(marks: &[bool]) -> usize
    ensures { result ≡ count_by (λ marked. marked) marks.now }
{
    let mut count = 0;
    for marked in marks {
        if *marked {
            count += 1;
        }
    }
    count
}
