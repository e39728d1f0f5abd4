//! What the definitions of the texts say. A law is a function that does nothing and whose contract is the law.

ghost use Rattle.std.specs.Prelude.{◌≡◌, ℕ, ◌++◌, ◌∷◌, [], List, map, Option, None, true, false};
ghost use Rattle.std.specs.List.{flat_map};
ghost use Rattle.clk_packet.specs.declared.packet.Packet.{Packet};
ghost use Rattle.clk_packet.specs.declared.tally.Tally.{Tally};
ghost use Rattle.csv.specs.Writing.{default_writer, row_text};
ghost use Rattle.clk_sched.specs.declared.visit.Visit.{Visit};
ghost use Rattle.clk_packet.specs.Counts.{counts_of};
ghost use Rattle.clk_report.specs.Counts.{counts_text};
ghost use Rattle.clk_report.specs.Report.{report_text};
ghost use Rattle.clk_report.specs.VisitCsv.{columns, devices_text, header_of, header_text, rows_text, visits_text};

/// The lines of the counts of tallies are the report of the tallies.
pub fn counts_tell_tallies()
    ensures { (emitted : List Packet) (tallies : List Tally) → flat_map counts_text (map (counts_of emitted) tallies) ≡ report_text emitted tallies }
{}

/// The visit CSV of one log has a row for each visit, with only the visit's columns and no device.
pub fn one_device_is_not_told()
    ensures { (log : List Visit) → visits_text (log ∷ []) ≡ header_text ++ flat_map (λ v. row_text default_writer (columns v)) log }
{}

/// The rows of a log are those of its parts, one after the other, and the visit CSV of logs is its header line and their rows. So it may be
/// written while a log grows.
pub fn visits_come_in_pieces()
    ensures parts { (device : Option ℕ) (before after : List Visit) → rows_text device (before ++ after) ≡ rows_text device before ++ rows_text device after }
    ensures one { (log : List Visit) → visits_text (log ∷ []) ≡ header_of false ++ rows_text None log }
    ensures several { (log other : List Visit) (logs : List (List Visit)) → visits_text (log ∷ other ∷ logs) ≡ header_of true ++ devices_text 0 (log ∷ other ∷ logs) }
{}
