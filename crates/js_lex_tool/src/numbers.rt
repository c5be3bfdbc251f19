//! Numbers in decimal. The numbers of a report rise, so that most begin with the digits of the one before.

ghost use Rattle.std.specs.Prelude.{◌≡◌, ◌+◌, ◌<◌, ◌≤◌, ◌++◌, true, length, drop};
ghost use Rattle.std.specs.Fmt.{decimal};
ghost use Rattle.js_lex_tool.specs.Numbers.{HasDigits, HasFirstDigits, three_digits};

use crate::put::{put_end_of_4, put_end_of_16};
use itoa::write_digits;

/// The last three digits of a number, behind a byte of no meaning.
type Digits = [u8; 4];

/// The last three digits of all numbers, by what is left of them behind the thousands.
#[derive(Drop)]
pub(crate) struct LastDigits {
    digits: [Digits; 1000],
    ghost of_each: { HasDigits digits },
}

fn digit(number: usize) -> u8
    requires { number < 10 }
    ensures { result ≡ 48 + number }
{
    b'0' + number as u8
}

fn three_digits(number: usize) -> Digits
    requires { number < 1000 }
    ensures { drop 1 result ≡ three_digits number }
{
    [
        b'0',
        digit(number / 100),
        digit(number / 10 % 10),
        digit(number % 10),
    ]
}

fn all_digits() -> [Digits; 1000]
    ensures { HasDigits result }
{
    let mut digits = [[b'0'; 4]; 1000];
    for number in 0..1000 {
        digits[number] = three_digits(number);
    }
    digits
}

impl LastDigits {
    /// Those of all numbers.
    pub fn new() -> LastDigits {
        LastDigits {
            digits: all_digits(),
        }
    }

    /// Those of a number below 1000.
    #[inline(always)]
    fn of(&self, number: usize) -> &Digits
        requires { number < 1000 }
        ensures { drop 1 result.now ≡ three_digits number }
    {
        &self.digits[number]
    }
}

/// Of numbers from 1000 up to here the first digits are kept.
const MOST: u64 = 100_000_000_000;

/// The first digits of a number, which are all but the last three: they end a room.
#[derive(Drop)]
pub(crate) struct FirstDigits {
    /// The least number with these digits.
    first: u64,
    room: [u8; 16],
    len: usize,
    ghost of_first: { HasFirstDigits first room len },
}

impl FirstDigits {
    /// Those of 1000.
    pub fn new() -> FirstDigits {
        FirstDigits {
            first: 1000,
            room: *b"0000000000000001",
            len: 1,
        }
    }

    /// Whether a number has these first digits, and three more.
    #[inline(always)]
    fn begin(&self, number: u64) -> bool
        ensures { result ≡ true → (self.now.first ≤ number) × (number < self.now.first + 1000) }
    {
        number.wrapping_sub(self.first) < 1000
    }

    /// Keeps those of a number in the place of these, if it has more than three digits and not too many.
    fn follow(&mut self, number: u64) {
        if number < 1000 || number >= MOST {
            return;
        }
        let thousands = number / 1000;
        let mut room = [b'0'; 16];
        let start = write_digits(thousands, &mut room, 16);
        *self = FirstDigits {
            first: thousands * 1000,
            room,
            len: 16 - start,
        };
    }
}

/// Puts a number, with other first digits than the one before.
#[inline(never)]
fn put_other(first: &mut FirstDigits, bytes: &mut [u8], at: usize, number: u64) -> usize
    requires { (20 ≤ at) × (at ≤ length bytes.old) }
    ensures start { result + length (decimal number) ≡ at }
    ensures written { drop result bytes.new ≡ decimal number ++ drop at bytes.old }
{
    first.follow(number);
    write_digits(number, bytes, at)
}

/// Puts a number before what stands from a place on, and gives the place where it begins. Its first digits are kept, and
/// copied where the next number has them too.
#[inline(always)]
pub(crate) fn put_number(
    first: &mut FirstDigits,
    last: &LastDigits,
    bytes: &mut [u8],
    at: usize,
    number: u64,
) -> usize
    requires { (20 ≤ at) × (at ≤ length bytes.old) }
    ensures start { result + length (decimal number) ≡ at }
    ensures written { drop result bytes.new ≡ decimal number ++ drop at bytes.old }
{
    if !first.begin(number) {
        return put_other(first, bytes, at, number);
    }
    let behind = put_end_of_4(bytes, at, last.of((number - first.first) as usize), 3);
    put_end_of_16(bytes, behind, &first.room, first.len)
}
