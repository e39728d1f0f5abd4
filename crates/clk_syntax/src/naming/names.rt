//! Names and their places.

ghost use Rattle.std.specs.Prelude.{◌<◌, length};

use clk_packet::Fault;
use std::alloc::Global;
use std::collections::BTreeMap;

/// 2^64 over the golden ratio: names that differ in a digit get slots that are apart.
const SPREAD: u64 = 11_400_714_819_323_198_485;

/// Names as they are declared one after another, each with the number of those before it. The work for each is logarithmic in their
/// number, whatever they are.
#[derive(Drop)]
pub struct DeclaredNames<'a> {
    /// A name with its place, in the slot that its hash leads to. Most names are there, so that they are found at once.
    slots: Vec<Option<(&'a [u8], u32)>>,
    /// The names whose slot is another's, sorted. So no names are slow to find, even if a text chooses them for that.
    more: BTreeMap<(u64, &'a [u8]), u32>,
    count: u32,
    ghost some: { 0 < length slots.items },
}

impl<'a> DeclaredNames<'a> {
    ghost use Rattle.std.specs.Prelude.{◌≡◌, ℕ, ◌+◌, ◌<◌, ◌^◌, List, not, None, Some, IfOk, OnOk, IsOkUnless};
    ghost use Rattle.std.specs.Map.{update};
    ghost use Rattle.std.specs.Option.{is_some};
    ghost use Rattle.std.specs.Str.{bytes_eq};
    ghost use Rattle.clk_syntax.specs.inside.Naming.{mixed_from, mixed, place_in, IsSlotted};

    /// No names, with room for about so many. Fault 1 if an allocation fails.
    pub fn new(alloc: Global, room: usize) -> Result<DeclaredNames<'a>, Fault>
        ensures none { IfOk result (λ names. (name : List ℕ) → place_in names name ≡ None) }
        ensures count { IfOk result (λ names. names.count ≡ 0) }
        ensures slots { IfOk result IsSlotted }
        ensures fault { IsOkUnless result Fault.Memory }
    {
        let slots = vec![in alloc; None; room.saturating_mul(3).max(1)]?;
        Ok(DeclaredNames {
            slots,
            more: BTreeMap::new(alloc),
            count: 0,
        })
    }

    /// Declares one more name, whose place is now the latest. Returns whether it wasn't declared before. Fault 1 if an allocation fails.
    pub fn declare(&mut self, name: &'a [u8]) -> Result<bool, Fault>
        requires few { self.old.count + 1 < 2 ^ 32 }
        requires slots { IsSlotted self.old }
        ensures first { IfOk result (λ is_first. is_first ≡ not (is_some (place_in self.old name.now))) }
        ensures placed { OnOk result ((other : List ℕ) → place_in self.new other ≡ update bytes_eq (place_in self.old) name.now (Some self.old.count) other) }
        ensures counted { OnOk result (self.new.count ≡ self.old.count + 1) }
        ensures slots { OnOk result (IsSlotted self.new) }
        ensures fault { IsOkUnless result Fault.Memory }
    {
        let number = DeclaredNames::mixed(name);
        let place = self.count;
        let slot = (number % self.slots.len() as u64) as usize;
        match self.slots[slot] {
            None => {
                self.slots[slot] = Some((name, place));
                self.count += 1;
                Ok(true)
            }
            Some((known, _)) => {
                if known == name {
                    self.slots[slot] = Some((name, place));
                    self.count += 1;
                    return Ok(false);
                }
                let earlier = self.more.insert((number, name), place)?;
                self.count += 1;
                Ok(earlier.is_none())
            }
        }
    }

    /// The place of a name, the latest at which it is declared, if it is.
    pub fn place_of(&self, name: &'a [u8]) -> Option<u32>
        ensures { result ≡ place_in self.now name.now }
    {
        let number = DeclaredNames::mixed(name);
        let slot = (number % self.slots.len() as u64) as usize;
        if let Some((known, place)) = self.slots[slot] {
            if known == name {
                return Some(place);
            }
        }
        self.more.get(&(number, name)).copied()
    }

    /// A hash of some bytes, from that of the bytes before.
    fn mixed_from(number: u64, bytes: &[u8]) -> u64
        ensures { result ≡ mixed_from number bytes.now }
    {
        let mut mixed = number;
        for byte in bytes {
            mixed = mixed.wrapping_mul(SPREAD).wrapping_add(u64::from(*byte));
        }
        mixed
    }

    /// A hash of a name's bytes, or of those at the ends of a long one. Names are sorted by it first, since numbers are compared faster
    /// than bytes. Names with the same hash only cost time.
    fn mixed(name: &[u8]) -> u64
        ensures { result ≡ mixed name.now }
    {
        if name.len() <= 32 {
            return DeclaredNames::mixed_from(0, name);
        }
        let (first, _) = name.split_at(16);
        let (_, last) = name.split_at(name.len() - 16);
        DeclaredNames::mixed_from(DeclaredNames::mixed_from(0, first), last)
    }
}
