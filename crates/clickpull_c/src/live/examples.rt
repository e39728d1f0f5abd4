//! What the definition of places that are filled in says of worked examples. The function does nothing.

ghost use Rattle.std.specs.Prelude.{[]};
ghost use Rattle.clickpull_c.specs.Filled.{IsFilled};
ghost use Rattle.clickpull_c.specs.live.Examples.{places, one_value, one_filled, filled_behind, two_filled, four_values};

/// Values are filled in at the front, and all other places are unchanged.
pub fn filled_examples()
    ensures one { IsFilled places one_filled one_value }
    ensures none { IsFilled places places [] }
    ensures not_unfilled { ¬ (IsFilled places places one_value) }
    ensures not_behind { ¬ (IsFilled places filled_behind one_value) }
    ensures not_another { ¬ (IsFilled places two_filled one_value) }
    ensures not_too_many { ¬ (IsFilled places four_values four_values) }
{}
