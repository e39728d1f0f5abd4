//! Traces all of whose lines are plain: a sender's number, a comma, a length and a line feed, in digits alone.

ghost use Rattle.std.specs.Prelude.{◌≡◌, ◌≤◌, None, IfSome, MatchResult};
ghost use Rattle.clk_packet.specs.declared.fault.Fault.TheVariants.{Memory};
ghost use Rattle.clk_packet.specs.declared.limits.TheConstants.{MAX_SENDER, MAX_RECORDS};
ghost use Rattle.clk_packet.specs.Numbers.{BeginsWithNumber};
ghost use Rattle.clk_packet.specs.inside.Plain.{IsPlainLine};
ghost use Rattle.clk_packet.specs.Trace.{first_fault, packets_in, pairs_of, records_of, sent, sent_by, shown};

use crate::fault::Fault;
use crate::lengths::Length;
use crate::limits::{MAX_LENGTH, MAX_RECORDS, MAX_SENDER};
use crate::number::number_before;
use crate::traces::Traces;
use std::alloc::Global;

/// Reads the text of a trace by plain lines. `None` if a line isn't plain, or if there are too many lines. Fault 1 if an allocation fails.
pub fn read_plain(alloc: Global, text: &[u8]) -> Result<Option<Traces>, Fault>
    ensures { MatchResult result
        (λ found. IfSome found
        (λ traces. (first_fault 1 (records_of text.now) ≡ None) × ((s : _) → shown (sent_by traces s) ≡ sent s (pairs_of text.now)) × (packets_in traces ≤ MAX_RECORDS)))
        (λ fault. fault ≡ Memory) }
{
    let mut traces = Traces::new(alloc);
    let mut rest = text;
    for _ in 0..MAX_RECORDS {
        let Some((sender, length, after)) = plain_record(rest) else {
            break;
        };
        traces.add(alloc, sender, length)?;
        rest = after;
    }
    if !rest.is_empty() {
        return Ok(None);
    }
    Ok(Some(traces))
}

/// The sender and the length that a plain line at the front of a text says, and what follows the line. `None` if no plain line is there.
fn plain_record(text: &[u8]) -> Option<(u16, Length, &[u8])>
    ensures { IfSome result (λ r. IsPlainLine text.now r.0 r.1.bytes r.2.now) }
{
    let (sender, text) = sender_before(text)?;
    let (length, rest) = number_before(text, b'\n', 1, MAX_LENGTH)?;
    let length = Length {
        bytes: length as u16,
    };
    Some((sender as u16, length, rest))
}

/// The number of a sender that a text begins with, before a comma, and what follows the comma. `None` if the text doesn't begin so.
fn sender_before(text: &[u8]) -> Option<(u64, &[u8])>
    ensures { IfSome result (λ r. BeginsWithNumber text.now 44 0 MAX_SENDER r.0 r.1.now) }
{
    match text {
        // A trace of few senders has a digit and a comma at the front of each line.
        [digit @ b'0'..=b'9', b',', rest @ ..] => Some((u64::from(*digit - b'0'), rest)),
        _ => number_before(text, b',', 0, MAX_SENDER),
    }
}
