//! Numbers as text: whole ones, and those of a unit of a power of ten with their decimals.
ghost use Rattle.std.specs.Prelude.{◌≡◌, ◌≤◌, ◌^◌, length};
ghost use Rattle.pit_model.specs.PitText.{last_digits, sign_text, with_decimals, with_six_decimals};
ghost use Rattle.pit_model.specs.ShellText.{with_nine_decimals};
ghost use Rattle.report.specs.ExampleNumbers.{PrintedExamples};
ghost use Rattle.report.specs.PrintedNumbers.{NumbersReadBack};
ghost use Rattle.report.specs.Puts.{IsReady, Puts};

use crate::out::{Out, put};
use itoa::{Buffer, Integer};
use minelib_reader::OutBytes;

/// Writes a whole number.
pub fn put_number<W: OutBytes, I: Integer>(writer: &mut W, out: &mut Out, number: I)
    requires { IsReady (W.progress writer.old) out.old }
    ensures puts { Puts (W.progress writer.old) out.old (W.progress writer.new) out.new (I.text number) }
    ensures ready { IsReady (W.progress writer.new) out.new }
{
    let mut buffer = Buffer::new();
    put(writer, out, buffer.format(number).as_bytes());
}

/// Fills a place with the last digits of a number.
fn write_last_digits(number: u128, digits: &mut [u8])
    ensures { digits.new ≡ last_digits (length digits.old) number }
{
    let mut rest = number;
    for i in (0..digits.len()).rev() {
        digits[i] = b'0' + (rest % 10) as u8;
        rest /= 10;
    }
}

fn sign_of(number: i128) -> &'static [u8]
    ensures text { result.now ≡ sign_text number }
    ensures short { length result.now ≤ 1 }
{
    if number < 0 { b"-" } else { b"" }
}

/// Writes a number of units, `unit` of them to 1, with as many decimals as there is place for digits.
fn put_with_decimals<W: OutBytes>(
    writer: &mut W,
    out: &mut Out,
    number: i128,
    unit: u128,
    digits: &mut [u8],
)
    requires ready { IsReady (W.progress writer.old) out.old }
    requires unit { unit ≡ 10 ^ length digits.old }
    requires short { length digits.old ≤ 9 }
    ensures puts { Puts (W.progress writer.old) out.old (W.progress writer.new) out.new (with_decimals (length digits.old) number) }
    ensures ready { IsReady (W.progress writer.new) out.new }
{
    let size = number.unsigned_abs();
    write_last_digits(size, digits);
    put(writer, out, sign_of(number));
    put_number(writer, out, size / unit);
    put(writer, out, b".");
    put(writer, out, digits);
}

/// Writes a number of millionths with six decimals.
pub fn put_millionths<W: OutBytes>(writer: &mut W, out: &mut Out, number: i128)
    requires { IsReady (W.progress writer.old) out.old }
    ensures puts { Puts (W.progress writer.old) out.old (W.progress writer.new) out.new (with_six_decimals number) }
    ensures ready { IsReady (W.progress writer.new) out.new }
{
    put_with_decimals(writer, out, number, 1_000_000, &mut [0; 6]);
}

/// Writes a number of billionths with nine decimals.
pub fn put_billionths<W: OutBytes>(writer: &mut W, out: &mut Out, number: i128)
    requires { IsReady (W.progress writer.old) out.old }
    ensures puts { Puts (W.progress writer.old) out.old (W.progress writer.new) out.new (with_nine_decimals number) }
    ensures ready { IsReady (W.progress writer.new) out.new }
{
    put_with_decimals(writer, out, number, 1_000_000_000, &mut [0; 9]);
}

/// A number that is printed with decimals reads back as itself.
pub fn printed_numbers_read_back()
    ensures { NumbersReadBack }
{}

/// Numbers that are printed and read back by hand, and texts that are no such numbers.
pub fn printed_examples()
    ensures { PrintedExamples }
{}
