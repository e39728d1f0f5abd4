//! What the definitions of an inlet's items say of worked examples. The functions do nothing.

ghost use Rattle.std.specs.Prelude.{◌≡◌, [], ◌∷◌, List, length};
ghost use Rattle.rtrb.specs.Fifo.{Allowed};
ghost use Rattle.clk_inlet.specs.declared.item.Item.{Item};
ghost use Rattle.clk_inlet.specs.declared.limits.TheConstants.{MAX_PACKETS};
ghost use Rattle.clk_inlet.specs.Items.{packets, MayFollow, IsWhole};
ghost use Rattle.clk_inlet.specs.Examples.{first, second, longest, too_long, the_end, one_packet, just_ended, ended, ended_early};

/// Which items may follow others: a packet or the end follows packets, nothing follows the end, no packet is longer than 65,535 bytes, and
/// none comes after as many as an inlet takes in all.
pub fn order_examples()
    ensures packet { MayFollow one_packet second }
    ensures same_packet { MayFollow one_packet first }
    ensures end { MayFollow one_packet the_end }
    ensures end_at_once { MayFollow [] the_end }
    ensures in_order { Allowed MayFollow [] ended }
    ensures longest { MayFollow one_packet longest }
    ensures not_too_long { ¬ (MayFollow one_packet too_long) }
    ensures not_after_end { ¬ (MayFollow ended second) }
    ensures not_ended_twice { ¬ (MayFollow just_ended the_end) }
    ensures not_ended_early { ¬ (Allowed MayFollow [] ended_early) }
    ensures not_one_too_many { (before : List Item) → length (packets before) ≡ MAX_PACKETS → ¬ (MayFollow before first) }
{}

/// Which lists are all that a sender ever sent: those that have the end.
pub fn whole_examples()
    ensures ended { IsWhole ended }
    ensures just_ended { IsWhole just_ended }
    ensures not_without_end { ¬ (IsWhole one_packet) }
    ensures not_empty { ¬ (IsWhole []) }
{}
