//! The numbers that a field writes: whole numbers, and decimals as millionths.
//! The lines of a file are read by them; the limits of each number are the caller's.
ghost use Rattle.std.specs.Prelude.{◌≡◌, true, false, slice_index, ◌≤◌, ◌<◌, ◌^◌, ◌*◌, ◌-◌, ◌+◌, ◌==◌, length, take, IfSome, position};
ghost use Rattle.std.specs.Option.{option_map};
ghost use Rattle.std.specs.Char.{is_ascii_digit};
ghost use Rattle.std.specs.Str.{all_ascii_digits};
ghost use Rattle.std.specs.Str.Parse.{digits_value};
ghost use Rattle.minelib_reader.specs.Number.{digits_of, whole_of, cut_at, millionths_of, decimal_of, signed_of, IsBounded};

use memchr::memchr;

/// A decimal, as a whole number of millionths.
pub type Decimal = i128;

/// The most digits of a whole number.
pub(crate) const MOST_DIGITS: usize = 10;

/// The number of digits that always fit into a word of 64 bits.
const MOST_IN_WORD: usize = 19;

/// The number that the digits at the front write, and how many they are; of more than `most`, the first `most`.
#[inline(always)]
pub(crate) fn front_digits(text: &[u8], most: usize) -> (u64, usize)
    requires { most ≤ 19 }
    ensures inside { result.1 ≤ length text.now }
    ensures stops { result.1 < length text.now → result.1 < most → is_ascii_digit (slice_index text.now result.1) ≡ false }
    ensures digits { all_ascii_digits (take result.1 text.now) ≡ true }
    ensures value { result.0 ≡ digits_value 10 (take result.1 text.now) }
    ensures small { result.0 < 10 ^ result.1 }
{
    let end = text.len().min(most);
    let mut value = 0u64;
    for i in 0..end {
        if !text[i].is_ascii_digit() {
            return (value, i);
        }
        value = value * 10 + u64::from(text[i] - b'0');
    }
    (value, end)
}

/// Returns what `digits` returns, at any length.
#[tactic(auto, unfolding(crate::specs::Number::digits_of))]
fn long_digits(text: &[u8], most: usize) -> Option<u128>
    requires { most ≤ 38 }
    ensures value { result ≡ digits_of most text.now }
    ensures small { IfSome result (λ n. n < 10 ^ length text.now) }
    ensures short { IfSome result (λ _. length text.now ≤ most) }
    ensures bounded { IfSome result (λ n. n < 10 ^ most) }
{
    if text.is_empty() || text.len() > most {
        return None;
    }
    let mut value = 0u128;
    for i in 0..text.len() {
        if !text[i].is_ascii_digit() {
            return None;
        }
        value = value * 10 + u128::from(text[i] - b'0');
    }
    Some(value)
}

/// The number that 1 to `most` digits write, which stand alone in the text.
pub fn digits(text: &[u8], most: usize) -> Option<u128>
    requires { most ≤ 38 }
    ensures value { result ≡ digits_of most text.now }
    ensures small { IfSome result (λ n. n < 10 ^ length text.now) }
    ensures short { IfSome result (λ _. length text.now ≤ most) }
    ensures bounded { IfSome result (λ n. n < 10 ^ most) }
{
    if text.is_empty() || text.len() > most || text.len() > MOST_IN_WORD {
        return long_digits(text, most);
    }
    let (value, len) = front_digits(text, MOST_IN_WORD);
    if len < text.len() {
        return None;
    }
    Some(u128::from(value))
}

/// A whole number: 1 to 10 digits.
pub fn whole_number(field: &[u8]) -> Option<u64>
    ensures value { result ≡ whole_of field.now }
    ensures bounded { IfSome result (λ n. n < 10 ^ 10) }
{
    Some(digits(field, MOST_DIGITS)? as u64)
}

/// A sign `-` or none, and 1 to 10 digits.
#[tactic(auto, unfolding(crate::specs::Number::signed_of))]
pub(crate) fn signed(field: &[u8]) -> Option<i64>
    ensures value { result ≡ signed_of field.now }
{
    match field {
        [b'-', rest @ ..] => Some(-(whole_number(rest)? as i64)),
        _ => Some(whole_number(field)? as i64),
    }
}

/// The place of the first such byte.
fn place_of(text: &[u8], byte: u8) -> Option<usize>
    ensures value { result ≡ position (λ x. x == byte) text.now }
    ensures inside { IfSome result (λ at. at < length text.now) }
{
    memchr(byte, text)
}

/// What stands before and after the first such byte.
#[tactic(auto, unfolding(crate::specs::Number::cut_at))]
pub fn cut(text: &[u8], byte: u8) -> Option<(&[u8], &[u8])>
    ensures parts { option_map (λ p. (p.0.now, p.1.now)) result ≡ cut_at byte text.now }
    ensures shorter { IfSome result (λ p. length p.1.now < length text.now) }
{
    match place_of(text, byte) {
        None => None,
        Some(at) => Some((&text[..at], &text[at + 1..])),
    }
}

/// Returns `len` digits after the point, in millionths.
fn scaled(part: u128, len: usize) -> u128
    requires short { len ≤ 6 }
    requires small { part < 10 ^ len }
    ensures value { result ≡ part * 10 ^ (6 - len) }
    ensures small { result < 1000000 }
{
    part * 10u128.pow(6 - len as u32)
}

/// 1 to 12 digits, and behind a point 1 to 6 more, as millionths.
#[tactic(auto, unfolding(crate::specs::Number::millionths_of))]
fn millionths(text: &[u8]) -> Option<u128>
    ensures value { result ≡ millionths_of text.now }
    ensures bounded { IfSome result (λ m. m < 10 ^ 18) }
{
    match cut(text, b'.') {
        None => Some(digits(text, 12)? * 1_000_000),
        Some((whole, part)) => {
            let units = digits(whole, 12)?;
            let rest = digits(part, 6)?;
            Some(units * 1_000_000 + scaled(rest, part.len()))
        }
    }
}

/// A sign or none, and 1 to 12 digits with up to 6 more behind a point, in millionths.
#[tactic(auto, unfolding(crate::specs::Number::decimal_of))]
pub fn decimal(field: &[u8]) -> Option<Decimal>
    ensures value { result ≡ decimal_of field.now }
    ensures bounded { IfSome result (IsBounded (10 ^ 18)) }
{
    match field {
        [b'-', rest @ ..] => Some(-(millionths(rest)? as i128)),
        [b'+', rest @ ..] => Some(millionths(rest)? as i128),
        _ => Some(millionths(field)? as i128),
    }
}
