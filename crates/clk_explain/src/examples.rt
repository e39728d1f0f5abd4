//! What the definitions say of worked examples. The functions do nothing.

ghost use Rattle.std.specs.Prelude.{◌≡◌, ◌++◌, codes, replicate};
ghost use Rattle.clk_packet.specs.declared.fault.Fault.TheVariants.{NoDevice, UnknownName};
ghost use Rattle.clk_explain.specs.Position.{line_at, column_at};
ghost use Rattle.clk_explain.specs.Explanation.{Explains, filled, source};
ghost use Rattle.clk_explain.specs.Words.{quoted};

/// A line feed ends the line on which it stands, and an offset beyond a text counts as its end.
pub fn position_examples()
    ensures front { (line_at (codes "ab\ncd") 0 ≡ 1) × (column_at (codes "ab\ncd") 0 ≡ 1) }
    ensures line_feed { (line_at (codes "ab\ncd") 2 ≡ 1) × (column_at (codes "ab\ncd") 2 ≡ 3) }
    ensures next_line { (line_at (codes "ab\ncd") 3 ≡ 2) × (column_at (codes "ab\ncd") 3 ≡ 1) }
    ensures end { (line_at (codes "ab\ncd") 5 ≡ 2) × (column_at (codes "ab\ncd") 5 ≡ 3) }
    ensures beyond { (line_at (codes "ab\ncd") 9 ≡ 2) × (column_at (codes "ab\ncd") 9 ≡ 3) }
    ensures empty { (line_at (codes "") 0 ≡ 1) × (column_at (codes "") 0 ≡ 1) }
{}

/// The line of the fault is shown, without its end, and the caret stands below the fault. A buffer gets what fits. Of a word of 41 bytes 40
/// are quoted.
pub fn explanation_examples()
    ensures shown { source (codes "ab\n\tc\r\nd") 4 ≡ codes "     c\n     ^\n" }
    ensures shown_at_end { source (codes "ab\nc") 4 ≡ codes "    c\n     ^\n" }
    ensures explains { Explains (codes "a\nb") (UnknownName 2) (codes "2:1: w\n    b\n    ^\ne\n") }
    ensures not_other_line { ¬ (Explains (codes "a\nb") (UnknownName 2) (codes "1:2: w\n    b\n    ^\ne\n")) }
    ensures not_placed { ¬ (Explains (codes "a\nb") NoDevice (codes "w")) }
    ensures part { filled (codes "abc") (codes "xy") ≡ codes "ab" }
    ensures whole { filled (codes "ab") (codes "xyz") ≡ codes "abz" }
    ensures word { quoted (codes "abc") ≡ codes "'abc'" }
    ensures longest_word { quoted (replicate 40 97) ≡ codes "'" ++ replicate 40 97 ++ codes "'" }
    ensures long_word { quoted (replicate 41 97) ≡ codes "'" ++ replicate 40 97 ++ codes "..'" }
{}
