//! The trees of the rows.

/// A PrioSched over two queues of two packets. The program runs it when it gets no arguments.
pub const PRIO_OVER_ROOM_FOR_TWO: &str = "s0 :: Sender(0); s1 :: Sender(1);
q0 :: Queue(2); q1 :: Queue(2);
p :: PrioSched;
out :: ToDevice(link);
s0 -> q0 -> p -> out;
s1 -> q1 -> [1] p;
";

/// A PrioSched over a queue of one packet.
pub const PRIO_OVER_ROOM_FOR_ONE: &str =
    "s0 :: Sender(0); q0 :: Queue(1); x :: PrioSched; d :: ToDevice(link);
s0 -> q0 -> [0] x; x -> d;";

/// A PrioSched over a FrontDropQueue of two packets.
pub const PRIO_OVER_FRONT_DROP: &str =
    "s0 :: Sender(0); q0 :: FrontDropQueue(2); x :: PrioSched; d :: ToDevice(link);
s0 -> q0 -> [0] x; x -> d;";

/// A FrontDropQueue of one packet, to which two senders send.
pub const SHARED_FRONT_DROP: &str =
    "s :: Sender(0); t :: Sender(1); q :: FrontDropQueue(1); d :: ToDevice(link);
s -> q -> d; t -> q;";

/// A RoundRobinSched over three queues.
pub const ROUND_ROBIN_OVER_THREE: &str =
    "s0 :: Sender(0); q0 :: Queue; s1 :: Sender(1); q1 :: Queue; s2 :: Sender(2); q2 :: Queue;
x :: RoundRobinSched; d :: ToDevice(link);
s0 -> q0 -> [0] x; s1 -> q1 -> [1] x; s2 -> q2 -> [2] x; x -> d;";

/// A DRRSched of quantum 1 over a queue.
pub const DRR_1_OVER_ONE: &str =
    "s0 :: Sender(0); q0 :: Queue; x :: DRRSched(1); d :: ToDevice(link);
s0 -> q0 -> [0] x; x -> d;";

/// A DRRSched of quantum 500 over a queue.
pub const DRR_500_OVER_ONE: &str =
    "s0 :: Sender(0); q0 :: Queue; x :: DRRSched(500); d :: ToDevice(link);
s0 -> q0 -> [0] x; x -> d;";

/// A DRRSched over two queues, of quantum 500 for each.
pub const DRR_500_OVER_TWO: &str =
    "s0 :: Sender(0); q0 :: Queue; s1 :: Sender(1); q1 :: Queue; x :: DRRSched(500); d :: ToDevice(link);
s0 -> q0 -> [0] x; s1 -> q1 -> [1] x; x -> d;";

/// A DRRSched over two queues, of quantum 500 for the first and 1000 for the second.
pub const DRR_500_1000: &str =
    "s0 :: Sender(0); q0 :: Queue; s1 :: Sender(1); q1 :: Queue; x :: DRRSched(500, 1000); d :: ToDevice(link);
s0 -> q0 -> [0] x; s1 -> q1 -> [1] x; x -> d;";

/// A DRRSched of quantum 500 over one of quantum 300 over a queue.
pub const DRR_OVER_DRR: &str =
    "s :: Sender(0); q :: Queue; y :: DRRSched(300); x :: DRRSched(500); d :: ToDevice(link);
s -> q -> y -> x -> d;";

/// A StrideSched over two queues, with two tickets for the first and one for the second.
pub const STRIDE_2_1: &str =
    "s0 :: Sender(0); q0 :: Queue; s1 :: Sender(1); q1 :: Queue; x :: StrideSched(2, 1); d :: ToDevice(link);
s0 -> q0 -> [0] x; s1 -> q1 -> [1] x; x -> d;";

/// A Shaper of rate 1 and burst 1 over a queue.
pub const SHAPER_1_1: &str =
    "s0 :: Sender(0); q0 :: Queue; x :: Shaper(1, 1); d :: ToDevice(link); s0 -> q0 -> [0] x; x -> d;";

/// A Shaper of rate 1 and burst 2 over a queue.
pub const SHAPER_1_2: &str =
    "s0 :: Sender(0); q0 :: Queue; x :: Shaper(1, 2); d :: ToDevice(link); s0 -> q0 -> [0] x; x -> d;";

/// Two devices, each with a queue and a sender of its own.
pub const TWO_DEVICES: &str =
    "s :: Sender(0); t :: Sender(1); p, q :: Queue; a, b :: ToDevice(x); s -> p -> a; t -> q -> b;";

/// Eight senders to a queue.
pub const EIGHT_SENDERS: &str = "s0 :: Sender(0); s1 :: Sender(1); s2 :: Sender(2); s3 :: Sender(3);
s4 :: Sender(4); s5 :: Sender(5); s6 :: Sender(6); s7 :: Sender(7); q :: Queue(1000); d :: ToDevice(link);
s0 -> q; s1 -> q; s2 -> q; s3 -> q; s4 -> q; s5 -> q; s6 -> q; s7 -> q; q -> d;";

/// Four senders to the queue of one device, and four to that of another.
pub const FOUR_AT_EACH: &str = "s0 :: Sender(0); s1 :: Sender(1); s2 :: Sender(2); s3 :: Sender(3);
s4 :: Sender(4); s5 :: Sender(5); s6 :: Sender(6); s7 :: Sender(7); p, q :: Queue(1000); a, b :: ToDevice(link);
s0 -> p; s1 -> p; s2 -> p; s3 -> p; p -> a; s4 -> q; s5 -> q; s6 -> q; s7 -> q; q -> b;";

/// A queue to which none sends.
pub const NO_SENDER: &str = "q :: Queue; d :: ToDevice(x); q -> d;";

/// A tree with a Shaper and a comment.
pub const COMMENTED: &str =
    "s :: Sender(0); q :: Queue; sh :: Shaper(5); d :: ToDevice(eth0); s -> q -> sh /* 5 per tick */ -> d;";
