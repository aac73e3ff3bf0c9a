//! Digits of kets, and the values of numbers.
ghost use Rattle.std.specs.Prelude.{◌≡◌, ◌≤◌, length};
ghost use Rattle.std.specs.List.{prefix_len};
ghost use Rattle.aq_lex.specs.Bytes.{value};
ghost use Rattle.aq_set_parse.specs.Rules.{is_bit};
ghost use Rattle.aq_set_parse.specs.Fronts.{number_class};

use crate::token::{SetClass, SetKind};

/// The greatest number that a set file may write, `2^127 - 1`.
const GREATEST: u128 = 170_141_183_460_469_231_731_687_303_715_884_105_727;

/// The greatest number that may have one more digit behind it.
const GREATEST_TENTH: u128 = 17_014_118_346_046_923_173_168_730_371_588_410_572;

/// Whether the byte is the digit 0 or 1.
fn is_bit(byte: u8) -> bool
    ensures { result ≡ is_bit byte }
{
    byte == b'0' || byte == b'1'
}

/// How many digits 0 and 1 stand at the front.
pub(crate) fn bits_len(bytes: &[u8]) -> usize
    ensures value { result ≡ prefix_len is_bit bytes.now }
    ensures within { result ≤ length bytes.now }
{
    bytes.iter().take_while(|b| is_bit(**b)).count()
}

/// What digits are: a Number with their value, or a LongNumber.
pub(crate) fn number_class(digits: &[u8]) -> SetClass
    ensures { result ≡ number_class (value digits.now) }
{
    let mut number: u128 = 0;
    for digit in digits {
        if number > GREATEST_TENTH {
            return SetClass::LongNumber;
        }
        number = 10 * number + u128::from(digit.saturating_sub(b'0'));
        if number > GREATEST {
            return SetClass::LongNumber;
        }
    }
    SetClass::Token(SetKind::Number(number))
}
