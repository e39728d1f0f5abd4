//! The records of a trace.

ghost use Rattle.std.specs.Prelude.{◌≡◌, None, Some, MatchOption, MatchResult, ◌⊎◌, ◌≤◌};
ghost use Rattle.csv.specs.Records.{fields_of};
ghost use Rattle.clk_packet.specs.declared.fault.Fault.TheVariants.{Memory};
ghost use Rattle.clk_packet.specs.Trace.{packets_in, pair_in, pairs_of, record_fault, sent, sent_by, shown, trace_fault};
ghost use Rattle.clk_packet.specs.declared.limits.TheConstants.{MAX_RECORDS};

use crate::fault::Fault;
use crate::lengths::Length;
use crate::limits::{MAX_LENGTH, MAX_RECORDS, MAX_SENDER, MAX_TRACE_BYTES};
use crate::number::number_in;
use crate::traces::Traces;
use crate::traces::plain::read_plain;
use csv::{ByteRecord, ReaderBuilder};
use std::alloc::Global;

/// Reads the text of a trace: by plain lines if all of its lines are plain, and otherwise as `csv` reads it. Fault 1 if an allocation
/// fails, and otherwise what is wrong with the text.
pub fn read_text(alloc: Global, text: &[u8]) -> Result<Traces, Fault>
    ensures { MatchResult result
        (λ traces. (trace_fault text.now ≡ None) × ((s : _) → shown (sent_by traces s) ≡ sent s (pairs_of text.now)) × (packets_in traces ≤ MAX_RECORDS))
        (λ fault. (fault ≡ Memory) ⊎ (trace_fault text.now ≡ Some fault)) }
{
    if text.len() > MAX_TRACE_BYTES {
        return Err(Fault::TooLarge);
    }
    if let Some(traces) = read_plain(alloc, text)? {
        return Ok(traces);
    }
    let mut reader = ReaderBuilder::new()
        .has_headers(false)
        .flexible(true)
        .from_reader(alloc, text);
    let mut fields = ByteRecord::new(alloc);
    let mut traces = Traces::new(alloc);
    for row in 1..MAX_RECORDS + 2 {
        // Over bytes in memory, a read fails only if an allocation fails.
        let Ok(found) = reader.read_byte_record(&mut fields) else {
            return Err(Fault::Memory);
        };
        if !found {
            return Ok(traces);
        }
        let (sender, length) = read_record(row, &fields)?;
        traces.add(alloc, sender, length)?;
    }
    unreachable!()
}

/// The sender and the length that the record of this number says, or what is wrong with it.
fn read_record(row: u32, fields: &ByteRecord) -> Result<(u16, Length), Fault>
    ensures { MatchResult result
        (λ pair. (record_fault row (fields_of fields.now) ≡ None) × (pair_in (fields_of fields.now) ≡ Some (pair.0, pair.1.bytes)))
        (λ fault. record_fault row (fields_of fields.now) ≡ Some fault) }
{
    if row > MAX_RECORDS {
        return Err(Fault::TooLarge);
    }
    match pair_in(fields) {
        Some(pair) => Ok(pair),
        None => Err(Fault::BadTrace { row }),
    }
}

/// The sender and the length that a record says, if it says them.
fn pair_in(fields: &ByteRecord) -> Option<(u16, Length)>
    ensures { MatchOption result (pair_in (fields_of fields.now) ≡ None) (λ pair. pair_in (fields_of fields.now) ≡ Some (pair.0, pair.1.bytes)) }
{
    if fields.len() != 2 {
        return None;
    }
    let sender = number_in(fields.get(0)?, 0, MAX_SENDER)?;
    let length = number_in(fields.get(1)?, 1, MAX_LENGTH)?;
    Some((
        sender as u16,
        Length {
            bytes: length as u16,
        },
    ))
}
