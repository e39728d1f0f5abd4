//! Examples of trees that were read, and of what is written with visits. The functions do nothing; their contracts are the examples.

ghost use Rattle.std.specs.Prelude.{◌≡◌, ◌∷◌, [], ⊤, List, Some, true, false, codes};
ghost use Rattle.clk_packet.specs.declared.fault.Fault.TheVariants.{Memory, Read, Write};
ghost use Rattle.clk_packet.specs.Examples.{success};
ghost use Rattle.clk_script.specs.Examples.{failed};
ghost use Rattle.clk_command.specs.Examples.{IsOneByteEach, sink_of, taken_by};
ghost use Rattle.clk_tree.specs.Plan.{Planned};
ghost use Rattle.clk_command.specs.Tasks.{GoesOut, IsPlanIn, WasTreeRead, WroteBetween, WroteBoth, builtin_text};

/// A tree that was read, and two that were not: the source of a sound text failed, and a text breaks the grammar.
pub fn tree_examples()
    ensures is_read { (plan : List Planned) → IsPlanIn (Some builtin_text) plan → WasTreeRead (Some builtin_text) 0 0 }
    ensures not_after_a_failure { ¬ (WasTreeRead (Some builtin_text) 0 1) }
    ensures not_with_a_fault { ¬ (WasTreeRead (Some (codes "s")) 0 0) }
{}

/// How no task with visits ends, whose text and visit file have one byte each. It doesn't succeed without its visits. It doesn't write the
/// visits without the text, or leave the text out since their sink failed. If an allocation failed or at another fault, it writes neither,
/// and doesn't touch the sink of the visits. On standard output visits follow the text exactly if they go there.
pub fn visits_examples()
    ensures follow { GoesOut true (λ text. text ≡ 65 ∷ []) IsOneByteEach (65 ∷ 66 ∷ []) }
    ensures not_left_out { ¬ (GoesOut true (λ text. text ≡ 65 ∷ []) IsOneByteEach (65 ∷ [])) }
    ensures not_first { ¬ (GoesOut true (λ text. text ≡ 65 ∷ []) IsOneByteEach (66 ∷ 65 ∷ [])) }
    ensures not_uncalled { ¬ (GoesOut false (λ text. text ≡ 65 ∷ []) IsOneByteEach (65 ∷ 66 ∷ [])) }
    ensures not_without_visits { ¬ (WroteBoth IsOneByteEach (Some []) (Some (65 ∷ [])) success taken_by (sink_of [] 0) (sink_of [] 0)) }
    ensures not_visits_alone { ¬ (WroteBoth IsOneByteEach (Some []) (Some []) (failed Write) taken_by (sink_of [] 0) (sink_of (66 ∷ []) 1)) }
    ensures not_cut_by_the_visits { ¬ (WroteBoth IsOneByteEach (Some []) (Some []) (failed Write) taken_by (sink_of [] 0) (sink_of [] 1)) }
    ensures not_visits_alone_without_memory { ¬ (WroteBoth IsOneByteEach (Some []) (Some []) (failed Memory) taken_by (sink_of [] 0) (sink_of (66 ∷ []) 0)) }
    ensures not_touched_without_memory { ¬ (WroteBoth IsOneByteEach (Some []) (Some []) (failed Memory) taken_by (sink_of [] 0) (sink_of [] 1)) }
    ensures not_text_alone_without_memory { ¬ (WroteBoth IsOneByteEach (Some []) (Some (65 ∷ [])) (failed Memory) taken_by (sink_of [] 0) (sink_of [] 0)) }
    ensures not_at_another_fault { ¬ (WroteBoth IsOneByteEach (Some []) (Some (65 ∷ [])) (failed Read) taken_by (sink_of [] 0) (sink_of [] 0)) }
{}

/// How a script of one byte is written between two texts, and how it isn't. Its sink may fail once the first text is whole. A call that
/// succeeds writes it. No call writes anything else to its sink. Its sink isn't touched before the first text is whole, and the last text
/// isn't begun before the script is whole.
pub fn record_examples()
    ensures fails { WroteBetween (67 ∷ []) (failed Write) taken_by (sink_of [] 0) (sink_of [] 1) ⊤ ⊤ }
    ensures not_left_out { ¬ (WroteBetween (67 ∷ []) success taken_by (sink_of [] 0) (sink_of [] 0) ⊤ ⊤) }
    ensures not_another { ¬ (WroteBetween (67 ∷ []) (failed Write) taken_by (sink_of [] 0) (sink_of (66 ∷ []) 0) ⊤ ⊤) }
    ensures not_first { ¬ (WroteBetween (67 ∷ []) (failed Write) taken_by (sink_of [] 0) (sink_of [] 1) ⊥ ⊤) }
    ensures not_last { ¬ (WroteBetween (67 ∷ []) (failed Write) taken_by (sink_of [] 0) (sink_of [] 1) ⊤ ⊥) }
{}
