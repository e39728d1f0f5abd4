//! Numbers in texts.

ghost use Rattle.std.specs.Prelude.{◌≡◌, ◌<◌, ◌≤◌, ◌^◌, length, false, IfNone, IfSome};
ghost use Rattle.std.specs.Char.{is_ascii_digit};
ghost use Rattle.std.specs.Str.Parse.{digits_value};
ghost use Rattle.clk_packet.specs.Numbers.{BeginsWithNumber, leading_digits, number_in};

/// The code of the digit 0.
const ZERO: u64 = 48;

/// How many bytes at the front of a text are looked at first: enough for any number of seven digits and the byte after it.
const FIRST_BYTES: usize = 8;

/// The number that these digits are, if it is from `least` to `most`. Any number of zeros may lead it. `None` if a byte is no digit, if
/// there is no byte, or if the number isn't in the range.
pub fn number_in(digits: &[u8], least: u64, most: u64) -> Option<u64>
    requires { most < 2 ^ 60 }
    ensures { result ≡ number_in least most digits.now }
{
    let (number, len) = leading_number(digits, most)?;
    if len < digits.len() || len == 0 || number < least {
        return None;
    }
    Some(number)
}

/// The number in this range whose digits a text begins with, if the byte `end`, which is no digit, comes right after them; and what follows
/// that byte. `None` if the text doesn't begin so.
#[inline(always)]
pub fn number_before(text: &[u8], end: u8, least: u64, most: u64) -> Option<(u64, &[u8])>
    requires limit { most < 2 ^ 60 }
    requires end { is_ascii_digit end ≡ false }
    ensures found { IfSome result (λ r. BeginsWithNumber text.now end least most r.0 r.1.now) }
    ensures none { IfNone result ((number : _) → (rest : _) → BeginsWithNumber text.now end least most number rest → ⊥) }
{
    match number_in_front(text, end, least, most) {
        Some(found) => Some(found),
        None => number_anywhere(text, end, least, most),
    }
}

/// As `number_before`, for a number and an end byte within the first `FIRST_BYTES` bytes. These are known to be there, so that none is
/// tested for the end of the text. `None` also if the text is shorter, or the number longer.
#[inline(always)]
fn number_in_front(text: &[u8], end: u8, least: u64, most: u64) -> Option<(u64, &[u8])>
    requires limit { most < 2 ^ 60 }
    requires end { is_ascii_digit end ≡ false }
    ensures { IfSome result (λ r. BeginsWithNumber text.now end least most r.0 r.1.now) }
{
    let (front, _) = text.split_first_chunk::<FIRST_BYTES>()?;
    let (number, left) = number_anywhere(front, end, least, most)?;
    let (_, rest) = text.split_at(FIRST_BYTES - left.len());
    Some((number, rest))
}

/// As `number_before`, for a text of any length, byte by byte.
#[inline(always)]
fn number_anywhere(text: &[u8], end: u8, least: u64, most: u64) -> Option<(u64, &[u8])>
    requires limit { most < 2 ^ 60 }
    requires end { is_ascii_digit end ≡ false }
    ensures found { IfSome result (λ r. BeginsWithNumber text.now end least most r.0 r.1.now) }
    ensures none { IfNone result ((number : _) → (rest : _) → BeginsWithNumber text.now end least most number rest → ⊥) }
{
    let (number, len) = leading_number(text, most)?;
    if len == 0 || len == text.len() || number < least {
        return None;
    }
    if text[len] != end {
        return None;
    }
    let (_, rest) = text.split_at(len + 1);
    Some((number, rest))
}

/// The number whose digits a text begins with, 0 if it begins with none, and how many digits these are. `None` if the number is above
/// `most`.
#[inline(always)]
pub fn leading_number(text: &[u8], most: u64) -> Option<(u64, usize)>
    requires { most < 2 ^ 60 }
    ensures number { IfSome result (λ r. r.0 ≡ digits_value 10 (leading_digits text.now)) }
    ensures digits { IfSome result (λ r. r.1 ≡ length (leading_digits text.now)) }
    ensures within { IfSome result (λ r. r.0 ≤ most) }
    ensures inside { IfSome result (λ r. r.1 ≤ length text.now) }
    ensures large { IfNone result (most < digits_value 10 (leading_digits text.now)) }
{
    let mut number = 0;
    let mut len = 0;
    for byte in text {
        // What isn't from 0 to 9 is no digit: a byte below '0' wraps round to a large number.
        let digit = u64::from(*byte).wrapping_sub(ZERO);
        if digit > 9 {
            break;
        }
        number = number * 10 + digit;
        if number > most {
            return None;
        }
        len += 1;
    }
    Some((number, len))
}
