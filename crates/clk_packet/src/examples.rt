//! What the definition of a text that was written (`Wrote`) says of worked examples: which endings of a write meet it, and which don't.
//! The function does nothing.

ghost use Rattle.std.specs.Prelude.{[], Some, None, Err};
ghost use Rattle.clk_packet.specs.declared.fault.Fault.TheVariants.{Memory, Write};
ghost use Rattle.clk_packet.specs.Bytes.{Wrote};
ghost use Rattle.clk_packet.specs.Examples.{text, first_byte, second_byte, success};

/// Which endings of a write of a text of two bytes meet the definition, after two earlier failures. If it succeeds, the whole text was
/// taken and no failure is counted. If it fails, a front was taken, one failure is counted, and the result is fault 20.
pub fn writing_examples()
    ensures is_whole { Wrote (Some []) (Some text) 2 2 success text }
    ensures is_cut { Wrote (Some []) (Some first_byte) 2 3 (Err Write) text }
    ensures is_none { Wrote (Some []) (Some []) 2 3 (Err Write) text }
    ensures is_unknown { Wrote None None 2 3 (Err Write) text }
    ensures not_cut_in_success { ¬ (Wrote (Some []) (Some first_byte) 2 2 success text) }
    ensures not_failure_in_success { ¬ (Wrote (Some []) (Some text) 2 3 success text) }
    ensures not_end_alone { ¬ (Wrote (Some []) (Some second_byte) 2 3 (Err Write) text) }
    ensures not_other_fault { ¬ (Wrote (Some []) (Some first_byte) 2 3 (Err Memory) text) }
    ensures not_failure_uncounted { ¬ (Wrote (Some []) (Some first_byte) 2 2 (Err Write) text) }
    ensures not_failure_counted_twice { ¬ (Wrote (Some []) (Some first_byte) 2 4 (Err Write) text) }
{}
