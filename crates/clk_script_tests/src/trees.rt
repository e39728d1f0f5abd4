//! Trees of rows that only this crate has.

/// A queue.
pub const ONE: &str = "s0 :: Sender(0); q0 :: Queue; d :: ToDevice(link); s0 -> q0 -> d;";

/// A PrioSched over a queue.
pub const PRIO_OVER_ONE: &str = "s0 :: Sender(0); q0 :: Queue; x :: PrioSched; d :: ToDevice(link);
s0 -> q0 -> [0] x; x -> d;";

/// A PrioSched over two queues.
pub const PRIO_OVER_TWO: &str =
    "s0 :: Sender(0); q0 :: Queue; s1 :: Sender(1); q1 :: Queue; x :: PrioSched; d :: ToDevice(link);
s0 -> q0 -> [0] x; s1 -> q1 -> [1] x; x -> d;";

/// A queue of two packets, to which the senders of the least and the greatest number send.
pub const SHARED_BY_FIRST_AND_LAST: &str =
    "t :: Sender(65535); s :: Sender(0); q :: Queue(2); d :: ToDevice(link);
t -> q -> d; s -> q;";

/// A RoundRobinSched over two queues.
pub const ROUND_ROBIN_OVER_TWO: &str =
    "s0 :: Sender(0); q0 :: Queue; s1 :: Sender(1); q1 :: Queue; x :: RoundRobinSched; d :: ToDevice(link);
s0 -> q0 -> [0] x; s1 -> q1 -> [1] x; x -> d;";

/// A PrioSched over twelve queues.
pub const PRIO_OVER_TWELVE: &str =
    "s0 :: Sender(0); s1 :: Sender(1); s2 :: Sender(2); s3 :: Sender(3); s4 :: Sender(4); s5 :: Sender(5);
s6 :: Sender(6); s7 :: Sender(7); s8 :: Sender(8); s9 :: Sender(9); s10 :: Sender(10); s11 :: Sender(11);
q0, q1, q2, q3, q4, q5, q6, q7, q8, q9, q10, q11 :: Queue; x :: PrioSched; d :: ToDevice(link);
s0 -> q0 -> [0] x; s1 -> q1 -> [1] x; s2 -> q2 -> [2] x; s3 -> q3 -> [3] x; s4 -> q4 -> [4] x; s5 -> q5 -> [5] x;
s6 -> q6 -> [6] x; s7 -> q7 -> [7] x; s8 -> q8 -> [8] x; s9 -> q9 -> [9] x; s10 -> q10 -> [10] x; s11 -> q11 -> [11] x;
x -> d;";

/// A RoundRobinSched over twelve queues.
pub const ROUND_ROBIN_OVER_TWELVE: &str =
    "s0 :: Sender(0); s1 :: Sender(1); s2 :: Sender(2); s3 :: Sender(3); s4 :: Sender(4); s5 :: Sender(5);
s6 :: Sender(6); s7 :: Sender(7); s8 :: Sender(8); s9 :: Sender(9); s10 :: Sender(10); s11 :: Sender(11);
q0, q1, q2, q3, q4, q5, q6, q7, q8, q9, q10, q11 :: Queue; x :: RoundRobinSched; d :: ToDevice(link);
s0 -> q0 -> [0] x; s1 -> q1 -> [1] x; s2 -> q2 -> [2] x; s3 -> q3 -> [3] x; s4 -> q4 -> [4] x; s5 -> q5 -> [5] x;
s6 -> q6 -> [6] x; s7 -> q7 -> [7] x; s8 -> q8 -> [8] x; s9 -> q9 -> [9] x; s10 -> q10 -> [10] x; s11 -> q11 -> [11] x;
x -> d;";

/// A DRRSched of quantum 3 over a RoundRobinSched and a PrioSched of two queues each, and a queue.
pub const DRR_OVER_TWO_SCHEDULERS: &str =
    "s0 :: Sender(0); s1 :: Sender(1); s2 :: Sender(2); s3 :: Sender(3); s4 :: Sender(4);
q0, q1, q2, q3, q4 :: Queue; r :: RoundRobinSched; p :: PrioSched; x :: DRRSched(3); d :: ToDevice(link);
s0 -> q0 -> [0] r; s1 -> q1 -> [1] r; s2 -> q2 -> [0] p; s3 -> q3 -> [1] p; s4 -> q4 -> [2] x;
r -> [0] x; p -> [1] x; x -> d;";

/// A StrideSched over twelve queues, the first with two tickets, the last with four and the others with one.
pub const STRIDE_OVER_TWELVE: &str =
    "s0 :: Sender(0); s1 :: Sender(1); s2 :: Sender(2); s3 :: Sender(3); s4 :: Sender(4); s5 :: Sender(5);
s6 :: Sender(6); s7 :: Sender(7); s8 :: Sender(8); s9 :: Sender(9); s10 :: Sender(10); s11 :: Sender(11);
q0, q1, q2, q3, q4, q5, q6, q7, q8, q9, q10, q11 :: Queue; x :: StrideSched(2, 1, 1, 1, 1, 1, 1, 1, 1, 1, 1, 4); d :: ToDevice(link);
s0 -> q0 -> [0] x; s1 -> q1 -> [1] x; s2 -> q2 -> [2] x; s3 -> q3 -> [3] x; s4 -> q4 -> [4] x; s5 -> q5 -> [5] x;
s6 -> q6 -> [6] x; s7 -> q7 -> [7] x; s8 -> q8 -> [8] x; s9 -> q9 -> [9] x; s10 -> q10 -> [10] x; s11 -> q11 -> [11] x;
x -> d;";

/// A DRRSched of quantum 3 over twelve queues.
pub const DRR_OVER_TWELVE: &str =
    "s0 :: Sender(0); s1 :: Sender(1); s2 :: Sender(2); s3 :: Sender(3); s4 :: Sender(4); s5 :: Sender(5);
s6 :: Sender(6); s7 :: Sender(7); s8 :: Sender(8); s9 :: Sender(9); s10 :: Sender(10); s11 :: Sender(11);
q0, q1, q2, q3, q4, q5, q6, q7, q8, q9, q10, q11 :: Queue; x :: DRRSched(3); d :: ToDevice(link);
s0 -> q0 -> [0] x; s1 -> q1 -> [1] x; s2 -> q2 -> [2] x; s3 -> q3 -> [3] x; s4 -> q4 -> [4] x; s5 -> q5 -> [5] x;
s6 -> q6 -> [6] x; s7 -> q7 -> [7] x; s8 -> q8 -> [8] x; s9 -> q9 -> [9] x; s10 -> q10 -> [10] x; s11 -> q11 -> [11] x;
x -> d;";

/// A DRRSched over two queues, with a quantum of 500 for the first, and of 1 for the second.
pub const DRR_500_1: &str =
    "s0 :: Sender(0); q0 :: Queue; s1 :: Sender(1); q1 :: Queue; x :: DRRSched(500, 1); d :: ToDevice(link);
s0 -> q0 -> [0] x; s1 -> q1 -> [1] x; x -> d;";

/// A DRRSched of quantum 500 over a Shaper of rate 1 and burst 1 over a queue.
pub const DRR_OVER_SHAPER: &str =
    "s :: Sender(0); q :: Queue; x :: DRRSched(500); y :: Shaper(1, 1); d :: ToDevice(l);
s -> q -> y -> x -> d;";

/// A Shaper of rate 1 and burst 3 over a queue.
pub const SHAPER_1_3: &str =
    "s0 :: Sender(0); q0 :: Queue; x :: Shaper(1, 3); d :: ToDevice(link); s0 -> q0 -> [0] x; x -> d;";

/// A Shaper of rate 2 and burst 2 over a queue.
pub const SHAPER_2_2: &str =
    "s0 :: Sender(0); q0 :: Queue; x :: Shaper(2, 2); d :: ToDevice(link); s0 -> q0 -> [0] x; x -> d;";

/// A Shaper of rate 5 and burst 2 over a queue.
pub const SHAPER_5_2: &str =
    "s0 :: Sender(0); q0 :: Queue; x :: Shaper(5, 2); d :: ToDevice(link); s0 -> q0 -> [0] x; x -> d;";

/// A StrideSched over two queues, with a ticket for each.
pub const STRIDE_1_1: &str =
    "s0 :: Sender(0); q0 :: Queue; s1 :: Sender(1); q1 :: Queue; x :: StrideSched(1, 1); d :: ToDevice(link);
s0 -> q0 -> [0] x; s1 -> q1 -> [1] x; x -> d;";

/// A StrideSched over two queues, with three tickets for the first and one for the second.
pub const STRIDE_3_1: &str =
    "s0 :: Sender(0); q0 :: Queue; s1 :: Sender(1); q1 :: Queue; x :: StrideSched(3, 1); d :: ToDevice(link);
s0 -> q0 -> [0] x; s1 -> q1 -> [1] x; x -> d;";

/// A StrideSched over two queues of 40,000 packets, with 32,768 tickets for the first, the most that there may be, and one for the second.
pub const STRIDE_32768_1: &str =
    "s0 :: Sender(0); q0 :: Queue(40000); s1 :: Sender(1); q1 :: Queue(40000); x :: StrideSched(32768, 1); d :: ToDevice(link);
s0 -> q0 -> [0] x; s1 -> q1 -> [1] x; x -> d;";

/// A StrideSched with a ticket for queue 1 and one for a DRRSched of quantum 10 over queue 0.
pub const STRIDE_OVER_DEFICIT: &str =
    "s :: Sender(0); t :: Sender(1); q, r :: Queue; y :: DRRSched(10); x :: StrideSched(1, 1); d :: ToDevice(l);
t -> r -> x -> d; s -> q -> y -> [1] x;";

/// Two devices. The first sender's queue goes to the second, and the second sender's to the first.
pub const CROSSED_DEVICES: &str =
    "s :: Sender(0); p :: Queue; t :: Sender(1); q :: Queue; a, b :: ToDevice(x); s -> p -> b; t -> q -> a;";

/// Three devices. The second has a queue without a sender.
pub const THREE_DEVICES: &str =
    "s :: Sender(0); t :: Sender(1); p, n, q :: Queue; a, b, c :: ToDevice(x);
s -> p -> a; n -> b; t -> q -> c;";

/// A FrontDropQueue of two packets, to which two senders send, at one device, and a queue of one packet at another.
pub const FULL_AT_TWO_DEVICES: &str = "s :: Sender(7); t :: Sender(3); u :: Sender(5);
p :: FrontDropQueue(2); q :: Queue(1); a, b :: ToDevice(x);
s -> p -> a; u -> p; t -> q -> b;";
