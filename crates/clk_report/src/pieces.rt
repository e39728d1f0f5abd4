//! The pieces of a line that is written from its end to its front.

ghost use Rattle.std.specs.Prelude.{◌≡◌, ◌+◌, ◌≤◌, ◌++◌, decimal, drop, length, take};

/// Puts a number, of at most 20 digits, before the place `end`. Returns where it starts.
#[inline]
pub fn put_number(line: &mut [u8], number: u64, end: usize) -> usize
    requires room { 20 ≤ end }
    requires within { end ≤ length line.old }
    ensures piece { drop result line.new ≡ decimal number ++ drop end line.old }
    ensures front { take result line.new ≡ take result line.old }
    ensures near { end ≤ result + 20 }
    ensures before { result ≤ end }
{
    itoa::write_digits(number, line, end)
}

/// Puts some bytes before the place `end`. Returns where they start.
#[inline(always)]
pub fn put(line: &mut [u8], piece: &[u8], end: usize) -> usize
    requires room { length piece.now ≤ end }
    requires within { end ≤ length line.old }
    ensures piece { drop result line.new ≡ piece.now ++ drop end line.old }
    ensures front { take result line.new ≡ take result line.old }
    ensures start { result + length piece.now ≡ end }
{
    let start = end - piece.len();
    line[start..end].copy_from_slice(piece);
    start
}
