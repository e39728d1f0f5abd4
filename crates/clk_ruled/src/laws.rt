//! What the rule of a shared queue says: a law is a function that does nothing and whose contract is the law.

ghost use Rattle.clk_ruled.specs.Laws.{KeepsAccount, KeepsTogether};

/// Between any two steps of those who use a shared queue, however many they are, its account is kept. It has the lists of each seat and of
/// the tap, and of each seat that the tap gathered.
pub fn queues_keep_account()
    ensures { KeepsAccount }
{}

/// A queue, its seats and its tap are opened together, and no call parts them. An offer, a pull, the closing of a seat and its gathering
/// each find what they require, and leave it so.
pub fn calls_keep_together()
    ensures { KeepsTogether }
{}
