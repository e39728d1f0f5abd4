//! Examples of what words ask for. The function does nothing; its contract is the examples.

ghost use Rattle.std.specs.Prelude.{◌≡◌, ◌∷◌, [], None, Some, true, false, codes};
ghost use Rattle.clap.specs.Faults.{fault_of};
ghost use Rattle.clap.specs.declared.error.kind.ErrorKind.TheVariants.{DisplayHelp, DisplayVersion, MissingRequiredArgument, ValueValidation, UnknownArgument, InvalidSubcommand};
ghost use Rattle.clk_words.specs.Words.{program_words, task_in, is_explained, builtin, check, lint, over, lint_trace, script, run, live, AreApart, MayClash};

/// What some words ask for, which kinds of error some wrong words cause, and which tasks would overwrite a file of theirs.
pub fn word_examples()
    ensures none { (fault_of program_words [] ≡ []) × (task_in [] ≡ builtin) }
    ensures checks { (fault_of program_words (codes "check" ∷ codes "T" ∷ []) ≡ []) × (task_in (codes "check" ∷ codes "T" ∷ []) ≡ check (codes "T")) }
    ensures lints { task_in (codes "lint" ∷ codes "T" ∷ []) ≡ lint (codes "T") }
    ensures lints_traces { task_in (codes "lint" ∷ codes "T" ∷ codes "R" ∷ []) ≡ over (codes "T") (codes "R") lint_trace }
    ensures scripts { task_in (codes "script" ∷ codes "T" ∷ codes "S" ∷ []) ≡ over (codes "T") (codes "S") (script None) }
    ensures follows { task_in (codes "script" ∷ codes "T" ∷ codes "S" ∷ codes "--visits" ∷ codes "-" ∷ []) ≡ over (codes "T") (codes "S") (script (Some (codes "-"))) }
    ensures visits { task_in (codes "script" ∷ codes "--visits" ∷ codes "V" ∷ codes "T" ∷ codes "S" ∷ []) ≡ over (codes "T") (codes "S") (script (Some (codes "V"))) }
    ensures runs { task_in (codes "run" ∷ codes "T" ∷ codes "R" ∷ []) ≡ over (codes "T") (codes "R") (run 1 1000 None) }
    ensures paces { task_in (codes "run" ∷ codes "T" ∷ codes "--step=10" ∷ codes "R" ∷ codes "--limit" ∷ codes "7" ∷ []) ≡ over (codes "T") (codes "R") (run 10 7 None) }
    ensures lives { task_in (codes "live" ∷ codes "T" ∷ codes "R" ∷ []) ≡ over (codes "T") (codes "R") (live 1 1000 None None) }
    ensures records { task_in (codes "live" ∷ codes "--record" ∷ codes "S" ∷ codes "T" ∷ codes "R" ∷ codes "--step" ∷ codes "3" ∷ codes "--limit=9" ∷ codes "--visits=V" ∷ []) ≡ over (codes "T") (codes "R") (live 3 9 (Some (codes "S")) (Some (codes "V"))) }
    ensures explains { (is_explained (codes "check" ∷ codes "--explain" ∷ codes "T" ∷ []) ≡ true) × (task_in (codes "check" ∷ codes "--explain" ∷ codes "T" ∷ []) ≡ check (codes "T")) }
    ensures explains_first { (is_explained (codes "--explain" ∷ codes "check" ∷ codes "T" ∷ []) ≡ true) × (is_explained (codes "--explain" ∷ []) ≡ true) }
    ensures unexplained { (is_explained [] ≡ false) × (is_explained (codes "check" ∷ codes "T" ∷ []) ≡ false) }
    ensures apart { AreApart (over (codes "T") (codes "-") (live 1 1 (Some (codes "S")) (Some (codes "V")))) }
    ensures not_over_the_script { ¬ (AreApart (over (codes "T") (codes "S") (script (Some (codes "S"))))) }
    ensures not_over_the_tree { ¬ (AreApart (over (codes "T") (codes "R") (run 1 1 (Some (codes "T"))))) }
    ensures not_over_the_trace { ¬ (AreApart (over (codes "T") (codes "R") (live 1 1 (Some (codes "R")) None))) }
    ensures not_over_the_record { ¬ (AreApart (over (codes "T") (codes "R") (live 1 1 (Some (codes "V")) (Some (codes "V"))))) }
    ensures not_over_standard_input { ¬ (AreApart (over (codes "T") (codes "R") (live 1 1 (Some (codes "-")) None))) }
    ensures follows_apart { AreApart (over (codes "-") (codes "R") (live 1 1 (Some (codes "S")) (Some (codes "-")))) }
    ensures follows_without_a_clash { ¬ (MayClash (over (codes "T") (codes "S") (script (Some (codes "-"))))) }
    ensures not_two_inputs { ¬ (AreApart (over (codes "-") (codes "-") (script None))) }
    ensures no_trace { fault_of program_words (codes "run" ∷ codes "T" ∷ []) ≡ MissingRequiredArgument ∷ [] }
    ensures no_step { fault_of program_words (codes "run" ∷ codes "T" ∷ codes "R" ∷ codes "--step" ∷ codes "0" ∷ []) ≡ ValueValidation ∷ [] }
    ensures no_record_of_a_run { fault_of program_words (codes "run" ∷ codes "T" ∷ codes "R" ∷ codes "--record" ∷ codes "S" ∷ []) ≡ UnknownArgument ∷ [] }
    ensures one_too_many { fault_of program_words (codes "check" ∷ codes "T" ∷ codes "U" ∷ []) ≡ UnknownArgument ∷ [] }
    ensures no_command { fault_of program_words (codes "frob" ∷ []) ≡ UnknownArgument ∷ InvalidSubcommand ∷ [] }
    ensures help { fault_of program_words (codes "--help" ∷ []) ≡ DisplayHelp ∷ [] }
    ensures version { fault_of program_words (codes "--version" ∷ []) ≡ DisplayVersion ∷ [] }
{}
