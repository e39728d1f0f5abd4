//! Traces: what each sender sends, in order.

mod plain;
mod records;

use crate::bytes::{let_go, read_up_to};
use crate::fault::Fault;
use crate::io::Source;
use crate::lengths::{Length, Lengths};
use crate::limits::MAX_TRACE_BYTES;
use crate::packet::Packet;
use records::read_text;
use std::alloc::Global;
use std::marker::Model;

/// What each sender sends, in order. Contracts see the lists of packets by the number of their sender, from 0; a sender past the last
/// list sends none.
#[derive(Drop)]
pub struct Traces {
    senders: Vec<Lengths>,
}

impl Model for Traces {
    ghost use Rattle.std.specs.Prelude.{List, ◌≤◌};
    ghost use Rattle.clk_packet.specs.declared.packet.Packet.{Packet};
    ghost use Rattle.clk_packet.specs.Trace.{packets_in};
    ghost use Rattle.clk_packet.specs.declared.limits.TheConstants.{MAX_RECORDS};
    ghost use Rattle.clk_packet.specs.inside.Lengths.{packets_by};

    ghost Value = { List (List Packet) };

    ghost view = { λ traces. packets_by 0 traces.senders.items };

    ghost invariant = { λ traces. packets_in (packets_by 0 traces.senders.items) ≤ MAX_RECORDS };
}

impl Traces {
    ghost use Rattle.std.specs.Prelude.{ℕ, ◌≡◌, ◌≤◌, ◌<◌, ◌+◌, [], length, slice_get, None, IfSome, IfOk, IfErr, OnOk, IsOkUnless};
    ghost use Rattle.clk_packet.specs.Bytes.{Takes, read_failures};
    ghost use Rattle.clk_packet.specs.Dealt.{AreNumbered};
    ghost use Rattle.clk_packet.specs.inside.Lengths.{IsAdded};
    ghost use Rattle.clk_packet.specs.Trace.{ExplainsTrace, packets_in, pairs_of, sent, sent_by, shown, trace_fault};
    ghost use Rattle.clk_packet.specs.declared.limits.TheConstants.{MAX_RECORDS, MAX_TRACE_BYTES};

    /// Reads a trace to its end: a record for each packet, with its sender's number, from 0 to 65,535, and its length in bytes, from 1
    /// to 65,535. A sender's packets are counted from 0. Records are lines of fields between commas, as `csv` reads them without a
    /// header row. A trace has at most 1,000,000 records and 33,554,432 bytes.
    ///
    /// # Errors
    ///
    /// Fault 1 if an allocation fails, at any time. Then, in this order, fault 19 if the reader fails, and fault 18 for a trace of more
    /// than 33,554,432 bytes. Then comes the fault of the first record that has one, counted from 1: fault 18 for record 1,000,001, and
    /// fault 14 for a record that isn't two such numbers.
    pub fn read_csv<R: Source>(alloc: Global, reader: &mut R) -> Result<Traces, Fault>
        ensures sound { OnOk result (IfSome (R.Source.remaining reader.old) (λ text. trace_fault text ≡ None)) }
        ensures sent { IfOk result (λ traces. IfSome (R.Source.remaining reader.old) (λ text. (s : _) → shown (sent_by traces s) ≡ sent s (pairs_of text))) }
        ensures within { IfOk result (λ traces. packets_in traces ≤ MAX_RECORDS) }

        // Each fault has its cause.
        ensures fault { IfErr result (ExplainsTrace (R.Source.remaining reader.old)) }
        ensures failures { R.Source.failures reader.new ≡ read_failures result (R.Source.failures reader.old) }

        // The reader is read to one byte past the limit at most.
        ensures limit { Takes (MAX_TRACE_BYTES + 1) (R.Source.remaining reader.old) (R.Source.remaining reader.new) }
    {
        let text = read_up_to(alloc, reader, MAX_TRACE_BYTES + 1)?;
        let traces = read_text(alloc, &text);
        let_go(text);
        traces
    }

    /// How many packets a sender sends; all senders together send at most 1,000,000. Takes constant time.
    pub fn count(&self, sender: u16) -> u32
        ensures count { result ≡ length (sent_by self.now sender) }
        ensures within { packets_in self.now ≤ MAX_RECORDS }
    {
        match self.senders.get(usize::from(sender)) {
            Some(lengths) => lengths.len() as u32,
            None => 0,
        }
    }

    /// The packet of this number, from 0, that a sender sends, or `None` if it sends no packet of that number. Takes constant time.
    pub fn sent(&self, sender: u16, number: u32) -> Option<Packet>
        ensures packet { result ≡ slice_get (sent_by self.now sender) number }
        ensures sender { IfSome result (λ packet. packet.sender ≡ sender) }
        ensures number { IfSome result (λ packet. packet.number ≡ number) }
    {
        let lengths = self.senders.get(usize::from(sender))?;
        let length = lengths.get(number as usize)?;
        Some(Packet {
            number,
            sender,
            length: length.bytes,
        })
    }

    /// Each sender's packets are its own, and numbered from 0 on in the order in which it sends them. Does nothing: its contract is a law.
    pub fn are_numbered(&self)
        ensures { (s : ℕ) → AreNumbered s 0 (sent_by self.now s) }
    {
        // Reading the table brings into scope that each packet is made from its sender and its place there.
        let _ = self.senders.len();
    }

    /// Nothing is sent. Does not allocate.
    fn new(alloc: Global) -> Traces
        ensures { result ≡ [] }
    {
        Traces {
            senders: Vec::new(alloc),
        }
    }

    /// Adds the next packet of a sender. Fault 1 if an allocation fails.
    fn add(&mut self, alloc: Global, sender: u16, length: Length) -> Result<(), Fault>
        requires room { packets_in self.old < MAX_RECORDS }
        ensures added { OnOk result (IsAdded self.old sender length.bytes self.new) }
        ensures fault { IsOkUnless result Fault.Memory }
    {
        let place = usize::from(sender);
        widen(alloc, &mut self.senders, place)?;
        self.senders[place].push(length)
    }
}

ghost use Rattle.std.specs.Prelude.{◌<◌, length, OnOk, IsOkUnless};
ghost use Rattle.clk_packet.specs.inside.Lengths.{IsWider};

/// Adds rows without lengths to a table until it has a row at this place. Fault 1 if an allocation fails.
fn widen(alloc: Global, senders: &mut Vec<Lengths>, place: usize) -> Result<(), Fault>
    ensures there { OnOk result (place < length senders.new.items) }
    ensures same { IsWider senders.old.items senders.new.items }
    ensures fault { IsOkUnless result Fault.Memory }
{
    while senders.len() <= place {
        senders.push(Lengths::new(alloc))?;
    }
    Ok(())
}
