//! Which warnings elements and plans have, and which they don't. The functions do nothing; their contracts are the examples.

ghost use Rattle.std.specs.Prelude.{◌≡◌, ◌∷◌, [], None, Some, true, false};
ghost use Rattle.clk_packet.specs.declared.packet.Kind.TheVariants.{TailDrop};
ghost use Rattle.clk_packet.specs.Scheduler.{drr, prio, shaper, stride};
ghost use Rattle.clk_syntax.specs.Classes.{queue, scheduler};
ghost use Rattle.clk_lint.specs.Examples.{both, plain, plan_over, preferred, shared, three};
ghost use Rattle.clk_lint.specs.Load.{longest_below};
ghost use Rattle.clk_lint.specs.Warnings.{class_warnings, warnings};
ghost use Rattle.clk_lint.specs.declared.warning.Warning.TheVariants.{SmallQuantum, SmallBurst, UnusedQueue, SameStride, OneInput, SmallQueue};

/// Element 3 with each warning that needs no trace, and with a near miss.
pub fn element_examples()
    ensures quantum { class_warnings [] None preferred (1 ∷ 2 ∷ []) (scheduler (drr (1499 ∷ 1500 ∷ []))) ≡ SmallQuantum 3 0 1499 1500 true ∷ [] }
    ensures each_quantum { class_warnings [] None plain (1 ∷ 2 ∷ []) (scheduler (drr (9 ∷ []))) ≡ SmallQuantum 3 0 9 1500 false ∷ SmallQuantum 3 1 9 1500 false ∷ [] }
    ensures not_quantum { class_warnings [] None preferred (1 ∷ 2 ∷ []) (scheduler (drr (1500 ∷ []))) ≡ [] }
    ensures burst { class_warnings [] None plain (1 ∷ []) (scheduler (shaper 3 2)) ≡ SmallBurst 3 3 2 ∷ [] }
    ensures not_burst { class_warnings [] None plain (1 ∷ []) (scheduler (shaper 3 3)) ≡ [] }
    ensures queue { class_warnings [] None plain [] (queue TailDrop 1) ≡ UnusedQueue 3 ∷ [] }
    ensures not_queue { class_warnings [] None plain (1 ∷ []) (queue TailDrop 1) ≡ [] }
    ensures stride { class_warnings [] None plain (1 ∷ 2 ∷ 4 ∷ []) (scheduler (stride (300 ∷ 301 ∷ 302 ∷ []))) ≡ SameStride 3 2 1 217 ∷ [] }
    ensures not_stride { class_warnings [] None plain (1 ∷ 2 ∷ []) (scheduler (stride (301 ∷ 301 ∷ []))) ≡ [] }
    ensures input { class_warnings [] None plain (1 ∷ []) (scheduler prio) ≡ OneInput 3 ∷ [] }
    ensures not_input { class_warnings [] None plain (1 ∷ 2 ∷ []) (scheduler prio) ≡ [] }
{}

/// A plan with its DRRSched at the first or at the last input of a PrioSched, without and with a trace.
pub fn plan_examples()
    ensures first { warnings (plan_over (2 ∷ 3 ∷ [])) None ≡ SmallQuantum 2 0 9 1500 true ∷ OneInput 2 ∷ UnusedQueue 3 ∷ [] }
    ensures last { warnings (plan_over (3 ∷ 2 ∷ [])) None ≡ UnusedQueue 3 ∷ SmallQuantum 2 0 9 1500 false ∷ OneInput 2 ∷ [] }
    ensures traced { warnings (plan_over (2 ∷ 3 ∷ [])) (Some three) ≡ OneInput 2 ∷ SmallQueue 1 2 0 3 ∷ UnusedQueue 3 ∷ [] }
{}

/// The longest packet that reaches each input of a DRRSched, and its warnings: a long packet of one input says nothing of another input.
pub fn length_examples()
    ensures short { longest_below shared (Some both) 2 ≡ 9 }
    ensures long { longest_below shared (Some both) 3 ≡ 10 }
    ensures all { longest_below shared (Some both) 4 ≡ 10 }
    ensures idle { longest_below shared (Some three) 3 ≡ 0 }
    ensures usual { longest_below shared None 2 ≡ 1500 }
    ensures told { warnings shared (Some both) ≡ SmallQuantum 4 1 9 10 false ∷ [] }
    ensures not_told { warnings shared (Some []) ≡ [] }
{}
