//! What the definitions say of worked examples: which fault a text has, and which it hasn't. The functions do nothing.

ghost use Rattle.std.specs.Prelude.{◌≡◌, ◌≤◌, ◌<◌, ℕ, Some};
ghost use Rattle.clk_packet.specs.declared.fault.Fault.TheVariants.{BadText, UnknownClass, BadArgument, NameTwice, UnknownName, BadPort, PortTwice, PortMissing, WrongKind, NoDevice, NotATree, TooLarge};
ghost use Rattle.clk_syntax.specs.declared.limits.TheConstants.{MAX_TREE_BYTES};
ghost use Rattle.clk_syntax.specs.Faults.{shape_fault};
ghost use Rattle.clk_syntax.specs.Reading.{HasFault};
ghost use Rattle.clk_syntax.specs.Examples.{spaces, question_marks, unknown_names, twice_then_broken, unknown_class_then_twice, bad_argument_then_unknown_class, unknown_name_then_bad_argument, bad_port_then_unknown_name, port_twice_then_bad_port, port_missing_then_twice, wrong_kind_then_port_missing, wrong_kind_and_no_device, not_a_tree_and_no_device, device_and_loop, loop_at_64};

/// Which faults texts of worked examples have. Spaces declare no device, but a text of too many spaces doesn't have that fault. A text has
/// no fault of other statements than its own.
pub fn fault_examples()
    ensures is_no_device { (n : ℕ) → n ≤ MAX_TREE_BYTES → HasFault (spaces n) NoDevice }
    ensures not_too_long { (n : ℕ) → MAX_TREE_BYTES < n → ¬ (HasFault (spaces n) NoDevice) }
    ensures is_unknown_name { HasFault unknown_names (UnknownName 0) }
    ensures not_of_other_statements { ¬ (HasFault unknown_names NoDevice) }
    ensures not_of_other_name { ¬ (HasFault unknown_names (UnknownName 5)) }
{}

/// Which fault a text has, of two that stand next to each other in the order of faults.
pub fn order_examples()
    ensures too_large_first { (n : ℕ) → MAX_TREE_BYTES < n → HasFault (question_marks n) TooLarge }
    ensures bad_text { (n : ℕ) → 1 ≤ n → n ≤ MAX_TREE_BYTES → HasFault (question_marks n) (BadText 0) }
    ensures bad_text_first { HasFault twice_then_broken (BadText 24) }
    ensures name_twice_first { HasFault unknown_class_then_twice (NameTwice 10) }
    ensures unknown_class_first { HasFault bad_argument_then_unknown_class (UnknownClass 20) }
    ensures bad_argument_first { HasFault unknown_name_then_bad_argument (BadArgument 13) }
    ensures unknown_name_first { HasFault bad_port_then_unknown_name (UnknownName 24) }
    ensures bad_port_first { HasFault port_twice_then_bad_port (BadPort 48) }
    ensures port_twice_first { HasFault port_missing_then_twice (PortTwice 36) }
    ensures port_missing_first { HasFault wrong_kind_then_port_missing (PortMissing 42) }
    ensures wrong_kind_first { HasFault wrong_kind_and_no_device (WrongKind 32) }
    ensures no_device_first { HasFault not_a_tree_and_no_device NoDevice }
    ensures not_a_tree_first { shape_fault device_and_loop loop_at_64 ≡ Some (NotATree 18) }
{}
