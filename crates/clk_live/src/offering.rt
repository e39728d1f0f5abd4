//! Packets that came from an inlet are offered to their queue.

ghost use Rattle.std.specs.Prelude.{◌≡◌, ◌+◌, ◌≤◌, ◌++◌, List, false, length, take, drop, slice_set};
ghost use Rattle.clk_inlet.specs.Items.{has_end, AreShort, IsShort};
ghost use Rattle.clk_inlet.specs.declared.item.Item.{Item};
ghost use Rattle.clk_live.specs.declared.taking.Taken.{Taken};
ghost use Rattle.clk_live.specs.State.{Seen};
ghost use Rattle.clk_live.specs.Taking.{AreTaken, AreOf};
ghost use Rattle.clk_live.specs.inside.Kept.{IsKept};
ghost use Rattle.clk_live.specs.inside.Room.{StayFull};
ghost use Rattle.clk_live.specs.inside.Runs.{CanRun, IsOffered};

use crate::taking::Taken;
use crate::tokens::note_offer;
use circular_buffer::HeapCircularBuffer;
use clk_inlet::Item;
use clk_router::CountingRouter;

// Offers the packet that comes next from the inlet of the sender at a place, and notes its token.
#[inline(always)]
pub(crate) fn offer_next(
    router: &mut CountingRouter,
    tokens: &mut Vec<HeapCircularBuffer<u64>>,
    place: usize,
    item: Item,
) -> Taken
    requires can { (items : List (List Item)) × (before : List Item) × CanRun router.old tokens.old.items items place before 1 }
    requires has_length { 1 ≤ item.length }
    requires short { IsShort item }
    ensures offered { (items : List (List Item)) (before : List Item) → CanRun router.old tokens.old.items items place before 1 → IsOffered place (record { course = router.old; items = items }) before item result router.new tokens.new.items }
    ensures full { StayFull router.old router.new }
{
    // These laws, which do nothing, say how the packets inside each queue change.
    router.queues_go_on();
    router.has_happened();
    let _ = router.senders();
    let (packet, outcome) = router.offer(place, item.bytes());
    router.has_happened();
    let queue = router.accounts()[place].queue;
    let capacity = router.queue(queue).capacity;
    let its_tokens = &mut tokens[usize::from(queue)];
    let outcome = note_offer(its_tokens, capacity, item.token, outcome);
    Taken {
        packet,
        token: item.token,
        outcome,
    }
}

// Offers a run of packets that come next from the inlet of the sender at a place, in order. Fills in each with its token and outcome, from
// place `from` of `taken` on.
pub(crate) fn offer_run(
    router: &mut CountingRouter,
    tokens: &mut Vec<HeapCircularBuffer<u64>>,
    place: usize,
    run: &[Item],
    taken: &mut [Taken],
    from: usize,
)
    requires can { (items : List (List Item)) × (before : List Item) × CanRun router.old tokens.old.items items place before (length run.now) }
    requires packets { has_end run.now ≡ false }
    requires short { AreShort run.now }
    requires within { from + length run.now ≤ length taken.old }
    ensures kept { (items : List (List Item)) (before : List Item) → CanRun router.old tokens.old.items items place before (length run.now) → IsKept router.new (slice_set items place (before ++ run.now)) tokens.new.items }
    ensures taken { (items : List (List Item)) (before : List Item) → CanRun router.old tokens.old.items items place before (length run.now)
        → (old : Seen) (slots : List Taken) → AreTaken old (record { course = router.old; items = items }) slots taken.old from → AreTaken old (record { course = router.new; items = slice_set items place (before ++ run.now) }) slots taken.new (from + length run.now) }
    ensures of_sender { AreOf router.old.setup place (drop from (take (from + length run.now) taken.new)) }
    ensures front { take from taken.new ≡ take from taken.old }
    ensures full { StayFull router.old router.new }
    ensures setup { router.new.setup ≡ router.old.setup }
{
    let mut done = 0;
    while done < run.len() {
        taken[from + done] = offer_next(router, tokens, place, run[done]);
        done += 1;
    }
}
