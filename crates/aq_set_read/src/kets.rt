//! The digits of kets.
ghost use Rattle.std.specs.Prelude.{◌≡◌, ◌≤◌, length};
ghost use Rattle.aq_set_read.specs.Meaning.{digits_of, binary};

/// The digits of a ket, which stand between its `|` and its `>`.
pub(crate) fn digits_of(ket: &[u8]) -> &[u8]
    ensures { result.now ≡ digits_of ket.now }
{
    if ket.len() < 2 {
        return &ket[..0];
    }
    &ket[1..ket.len() - 1]
}

/// The number that the digits are the binary form of.
pub(crate) fn binary(digits: &[u8]) -> u64
    requires { length digits.now ≤ 16 }
    ensures { result ≡ binary digits.now }
{
    let mut number = 0;
    for digit in digits {
        number = 2 * number + u64::from(*digit == b'1');
    }
    number
}
