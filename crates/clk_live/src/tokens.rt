//! The tokens of the packets inside a queue.

ghost use Rattle.std.specs.Prelude.{◌≡◌, ◌+◌, ◌<◌, ◌≤◌, ◌++◌, length, take, drop, Some, slice_get};
ghost use Rattle.circular_buffer.specs.Buffer.{buffer};
ghost use Rattle.clk_live.specs.inside.Noted.{CanNote, IsNoted};

use crate::taking::OfferOutcome;
use circular_buffer::HeapCircularBuffer;
use clk_packet::Offered;

// Notes, among the tokens of a queue of `capacity` packets, that a packet with this token was offered with this outcome. Returns the
// outcome, with the token of the packet that was evicted, if one was.
pub(crate) fn note_offer(
    tokens: &mut HeapCircularBuffer<u64>,
    capacity: usize,
    token: u64,
    outcome: Offered,
) -> OfferOutcome
    requires { CanNote tokens.old capacity outcome }
    ensures { IsNoted tokens.old capacity token outcome result tokens.new }
{
    match outcome {
        Offered::Accepted => {
            tokens.push_back(token);
            OfferOutcome::Accepted
        }
        Offered::Refused(_) => OfferOutcome::Refused,
        Offered::Evicted(packet) => {
            // The evicted packet stands right behind the heads. Its queue is full, so all tokens inside beyond `capacity` are of heads.
            let heads = tokens.len() - capacity;
            let evicted = take_out(tokens, heads);
            tokens.push_back(token);
            OfferOutcome::Evicted {
                packet,
                token: evicted,
            }
        }
    }
}

// Takes out the token at a place.
fn take_out(tokens: &mut HeapCircularBuffer<u64>, place: usize) -> u64
    requires there { place < length tokens.old.items }
    requires fits { length tokens.old.items ≤ tokens.old.capacity }
    ensures token { slice_get tokens.old.items place ≡ Some result }
    ensures others { tokens.new ≡ buffer (take place tokens.old.items ++ drop (place + 1) tokens.old.items) tokens.old.capacity }
{
    let first = tokens.pop_front().unwrap();
    if place == 0 {
        return first;
    }
    let token = take_out(tokens, place - 1);
    tokens.push_front(first);
    token
}
