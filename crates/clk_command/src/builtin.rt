//! The plan that a script runs over.

/// Two queues of two packets below a PrioSched, each with a sender of its own.
pub const TEXT: &str = "s0 :: Sender(0); s1 :: Sender(1);
q0 :: Queue(2); q1 :: Queue(2);
p :: PrioSched;
out :: ToDevice(link);
s0 -> q0 -> p -> out;
s1 -> q1 -> [1] p;
";
