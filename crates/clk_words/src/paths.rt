//! The path that stands for a standard stream.

ghost use Rattle.std.specs.Prelude.{◌≡◌, true};
ghost use Rattle.std.specs.Str.{bytes_eq};
ghost use Rattle.clk_words.specs.Words.{dash};

/// The path that stands for standard input, and for standard output as the path of visits.
pub const DASH: &str = "-";

/// Whether a path stands for standard input, or for standard output if it is the path of visits.
pub fn is_standard(path: &str) -> bool
    ensures tested { result ≡ bytes_eq path.now dash }
    ensures dash { result ≡ true → path.now ≡ dash }
{
    path == DASH
}
