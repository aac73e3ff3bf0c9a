//! The amplitudes of terms.
ghost use Rattle.std.specs.Prelude.{◌≡◌, ◌<◌, ◌^◌, SomeIff};
ghost use Rattle.aq_ring.specs.Amplitudes.{lowest_form};
ghost use Rattle.aq_ring.specs.Quads.{turned_by};
ghost use Rattle.aq_set_parse.specs.Numbers.{FitsNumber, FitsScalar, FitsCoef};
ghost use Rattle.aq_set_read.specs.Coefs.{
  signed,
  int_of,
  whole,
  turns_of,
  quad_of_scalar,
  roots_of,
  numerator,
  amplitude_of,
};

use aq_ring::Amp;
use aq_set_parse::{SetCoef, SetInt, SetScalar, SetTurn};

/// The number, negated or not. None exactly where it is above `2^127 - 1`.
fn signed(minus: bool, number: u128) -> Option<i128>
    ensures { SomeIff result (FitsNumber number) (signed minus number) }
{
    let value = i128::try_from(number).ok()?;
    Some(if minus { -value } else { value })
}

/// The number. None exactly where it is out of range.
fn int_of(int: SetInt) -> Option<i128>
    ensures { SomeIff result (FitsNumber int.number) (int_of int) }
{
    signed(int.minus, int.number)
}

/// By how many eighths of the circle it turns, whole circles left out.
fn turns_of(turn: SetTurn) -> u8
    ensures turns { result ≡ turns_of turn }
    ensures few { result < 8 }
{
    match turn {
        SetTurn::Omega(exponent) => (exponent % 8) as u8,
        SetTurn::Imaginary => 2,
    }
}

/// The number, divided so many times by the square root of 2. None exactly where it is out of range.
fn whole(number: u128, roots: u32) -> Option<Amp>
    ensures { SomeIff result (FitsNumber number) (lowest_form roots (whole number)) }
{
    let value = signed(false, number)?;
    Amp::from_parts([value, 0, 0, 0], roots)
}

/// The number, turned and divided so many times by the square root of 2. None exactly where the number is out of range.
#[tactic(auto, using(crate::proofs::CoefLaws::turn_of_lowest))]
fn turned(times: u128, turn: SetTurn, roots: u32) -> Option<Amp>
    ensures { SomeIff result (FitsNumber times) (lowest_form roots (turned_by (turns_of turn) (whole times))) }
{
    let value = whole(times, roots)?;
    Some(value.turn(turns_of(turn)))
}

/// The scalar, divided so many times by the square root of 2. None exactly where a number in it is out of range.
fn scalar_over(scalar: SetScalar, roots: u32) -> Option<Amp>
    ensures { SomeIff result (FitsScalar scalar) (lowest_form roots (quad_of_scalar scalar)) }
{
    match scalar {
        SetScalar::Number(number) => whole(number, roots),
        SetScalar::Turned { times, turn } => turned(times, turn, roots),
        SetScalar::Quadruple { a, b, c, d } => {
            let coefs = [int_of(a)?, int_of(b)?, int_of(c)?, int_of(d)?];
            Amp::from_parts(coefs, roots)
        }
    }
}

/// The coefficient's numerator, divided so many times by the square root of 2. None exactly where a number in it is
/// out of range.
fn coef_over(coef: Option<SetCoef>, roots: u32) -> Option<Amp>
    ensures { SomeIff result (FitsCoef coef) (lowest_form roots (numerator coef)) }
{
    match coef {
        Some(coef) => scalar_over(coef.scalar, roots),
        None => Amp::from_parts([1, 0, 0, 0], roots),
    }
}

/// The amplitude of a term whose coefficient is divided so many times by the square root of 2. None exactly where a
/// number in it is out of range.
#[tactic(auto, using(crate::proofs::CoefLaws::opposite_of_lowest), unfolding(crate::specs::Coefs::amplitude_of))]
pub(crate) fn amplitude_of(minus: bool, coef: Option<SetCoef>, roots: u32) -> Option<Amp>
    requires { roots ≡ roots_of coef }
    ensures { SomeIff result (FitsCoef coef) (amplitude_of minus coef) }
{
    let value = coef_over(coef, roots)?;
    Some(if minus { value.turn(4) } else { value })
}
