//! Lines and sessions, as the tests make them.

ghost use Rattle.std.specs.Prelude.{◌≡◌, ◌≤◌, [], true, map, IfOk};
ghost use Rattle.std.specs.List.{AllByRecursion};
ghost use Rattle.clk_packet.specs.declared.limits.TheConstants.{MAX_CAPACITY};
ghost use Rattle.clk_packet.specs.Lists.{are_distinct, AreRising};
ghost use Rattle.clk_ruled.specs.Rooms.{named_in, rooms_in_all};
ghost use Rattle.clk_ruled.specs.Settle.{AreOpenedTogether, closing};
ghost use Rattle.clk_sched.specs.declared.limits.TheConstants.{MAX_LEFT};
ghost use Rattle.clk_sched.specs.Tree.{root, leaves, leaves_distinct, queue};
ghost use Rattle.clk_drain.specs.Line.{leaves_of, seats_in, senders_at};
ghost use Rattle.clk_drain.specs.Closing.{accepted_over};

use clk_drain::{Drained, Line, Lines, close_and_drain};
use clk_packet::{Fault, Kind, Packet};
use clk_ruled::{Opened, RuledQueue, Seat, Tap, calls_keep_together};
use clk_sched::{END_OF_DRAINS, Session, Tree, Visit};
use std::alloc::Global;
use std::process::Abort;
use std::sync::Wait;

/// How many packets may be accepted at most.
const MOST_LEFT: usize = 1_000_000;

/// The packet of this number from this sender, of 1 to 65,535 bytes.
pub fn packet(sender: u16, number: u32, length: u16) -> Packet
    requires { 1 ≤ length }
    ensures { (result.sender ≡ sender) × (result.number ≡ number) }
{
    Packet {
        number,
        sender,
        length,
    }
}

/// The queues of these numbers.
pub fn queues(alloc: Global, numbers: &[u16]) -> Result<Vec<Tree>, Fault>
    ensures { IfOk result (λ trees. trees.items ≡ map queue numbers.now) }
{
    Ok(numbers.iter().map(|q| Tree::leaf(*q)).collect(alloc)?)
}

// The seat at this place offers its sender's next packet, of this length.
fn offer<R: Abort + Wait>(
    rt: &R,
    queue: &RuledQueue,
    tap: &Tap,
    seats: &mut [Seat],
    place: usize,
    length: u16,
)
    requires { AreOpenedTogether queue.now tap.now (map closing seats.old) }
    ensures { AreOpenedTogether queue.now tap.now (map closing seats.new) }
{
    calls_keep_together();
    let _ = tap;
    assert!(rt; length >= 1);
    assert!(rt; place < seats.len());
    let seat = &mut seats[place];
    assert!(rt; seat.next() < seat.room());
    let next = packet(seat.sender(), seat.next(), length);
    seat.offer(queue, rt, next);
}

/// The line of a queue at this leaf, after these offers: each is made by the seat at a place, of a packet of a length.
pub fn line<R: Abort + Wait>(
    rt: &R,
    alloc: Global,
    leaf: u16,
    kind: Kind,
    capacity: u32,
    senders: &[(u16, u32)],
    offers: &[(usize, u16)],
) -> Result<Line, Fault>
    requires capacity { (1 ≤ capacity) × (capacity ≤ MAX_CAPACITY) }
    requires rising { AreRising (named_in senders.now) }
    requires room { rooms_in_all senders.now ≤ MAX_CAPACITY }
    ensures leaf { IfOk result (λ line. line.leaf ≡ leaf) }
    ensures fresh { IfOk result (λ line. line.tap.taken ≡ []) }
{
    calls_keep_together();
    let Opened {
        queue,
        mut seats,
        tap,
    } = RuledQueue::open(alloc, kind, capacity, senders)?;
    for (place, length) in offers {
        offer(rt, &queue, &tap, &mut seats, *place, *length);
    }
    let mut closed = Vec::new(alloc);
    for seat in seats {
        closed.push(seat.close())?;
    }
    Ok(Line {
        leaf,
        queue,
        tap,
        closed,
    })
}

// Fails unless no sender is there twice.
fn assert_apart(rt: &impl Abort, senders: &[u16])
    ensures { are_distinct senders.now ≡ true }
{
    let [first, rest @ ..] = senders else {
        return;
    };
    assert!(rt; !rest.contains(first));
    assert_apart(rt, rest);
}

// The senders of all seats. Fails unless their queues accepted few enough packets.
fn senders(rt: &impl Abort, alloc: Global, lines: &[Line]) -> Result<Vec<u16>, Fault>
    ensures senders { IfOk result (λ senders. senders.items ≡ senders_at (seats_in lines.now)) }
    ensures few { IfOk result (λ _. accepted_over lines.now ≤ MAX_LEFT) }
{
    let mut senders = Vec::new(alloc);
    let mut spare = MOST_LEFT;
    for line in lines {
        for seat in &line.closed {
            let more = seat.count_accepted();
            assert!(rt; more <= spare);
            spare -= more;
            senders.push(seat.sender())?;
        }
    }
    Ok(senders)
}

/// Drains a session of this tree over its lines. Before that it pulls the session at moment 0 once for each of these packets, and fails
/// unless the pulls give them.
pub fn close<R: Abort + Wait>(
    rt: &R,
    alloc: Global,
    tree: Tree,
    lines: Vec<Line>,
    before: &[Packet],
    moment: u64,
) -> Result<Drained, Fault>
    requires leaves { leaves_of lines.items ≡ leaves (root tree) }
    requires rise { AreRising (leaves (root tree)) }
    requires distinct { leaves_distinct tree ≡ true }
    requires fresh { AllByRecursion (λ line. line.tap.taken ≡ []) lines.items }
{
    let mut session = Session::new(alloc, tree)?;
    let mut lines = Lines::new(rt, lines);
    for packet in before {
        assert_eq!(rt; lines.pull(&mut session, 0)?, Some(*packet));
    }
    let lines = lines.into_vec();
    assert_apart(rt, &senders(rt, alloc, &lines)?);
    assert!(rt; session.now().max(moment) < END_OF_DRAINS);
    close_and_drain(alloc, rt, session, lines, moment)
}

/// An expected tally: its sender, and the packets that were accepted, refused and evicted.
pub type Expected<'a> = (u16, &'a [Packet], &'a [Packet], &'a [Packet]);

/// Fails unless a drained session has these packets, these visits and these tallies.
pub fn assert_drained(
    rt: &impl Abort,
    drained: &Drained,
    emitted: &[Packet],
    log: &[Visit],
    tallies: &[Expected],
) {
    assert_eq!(rt; drained.emitted.as_slice(), emitted);
    assert_eq!(rt; drained.log.as_slice(), log);
    assert_eq!(rt; drained.tallies.len(), tallies.len());
    for (tally, (sender, accepted, refused, evicted)) in drained.tallies.iter().zip(tallies) {
        assert_eq!(rt; tally.sender, *sender);
        assert_eq!(rt; tally.accepted.as_slice(), *accepted);
        assert_eq!(rt; tally.refused.as_slice(), *refused);
        assert_eq!(rt; tally.evicted.as_slice(), *evicted);
    }
}
