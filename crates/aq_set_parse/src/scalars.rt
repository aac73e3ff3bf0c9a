ghost use Rattle.std.specs.Prelude.{◌≡◌};
ghost use Rattle.aq_grammar.specs.Readers.{optional};
ghost use Rattle.aq_grammar.specs.Results.{Gives};
ghost use Rattle.aq_set_parse.specs.Tokens.{begins, begins_number, begins_ket};
ghost use Rattle.aq_set_parse.specs.Reading.{
  sign_at,
  int_at,
  exponent_at,
  maybe_exponent_at,
  omega_at,
  imaginary_at,
  turn_at,
  begins_turn,
  counted_at,
  next_int_at,
  quadruple_at,
  uncounted_at,
  scalar_at,
  roots_at,
  coef_at,
  no_ket,
};
ghost use Rattle.aq_set_parse.specs.declared.mark.SetMark.TheVariants as marks;

use crate::lexeme::SetLexeme;
use crate::mark::SetMark;
use crate::reader::{Halt, mark, number, starts, starts_ket, starts_number};
use crate::tree::{SetCoef, SetInt, SetScalar, SetTurn};

/// Whether there is a minus, which may be left out.
#[tactic(auto, unfolding(crate::specs::Reading::sign_at, aq_grammar::specs::Readers::mapped, aq_grammar::specs::Readers::optional))]
pub(crate) fn sign<'a>(tokens: &'a [SetLexeme<'a>]) -> Result<(bool, &'a [SetLexeme<'a>]), Halt<'a>>
    ensures { Gives (λ x. (x.0, x.1.now)) result (sign_at tokens.now) }
{
    if starts(tokens, SetMark::Minus) {
        let rest = mark(tokens, SetMark::Minus)?;
        return Ok((true, rest));
    }
    Ok((false, tokens))
}

#[tactic(auto, unfolding(crate::specs::Reading::int_at, aq_grammar::specs::Readers::mapped, aq_grammar::specs::Readers::both))]
fn int<'a>(tokens: &'a [SetLexeme<'a>]) -> Result<(SetInt, &'a [SetLexeme<'a>]), Halt<'a>>
    ensures { Gives (λ x. (x.0, x.1.now)) result (int_at tokens.now) }
{
    let (minus, rest) = sign(tokens)?;
    let (number, rest) = number(rest)?;
    Ok((SetInt { minus, number }, rest))
}

#[tactic(auto, unfolding(crate::specs::Reading::exponent_at, aq_grammar::specs::Readers::after))]
pub(crate) fn exponent<'a>(
    tokens: &'a [SetLexeme<'a>],
) -> Result<(u128, &'a [SetLexeme<'a>]), Halt<'a>>
    ensures { Gives (λ x. (x.0, x.1.now)) result (exponent_at tokens.now) }
{
    number(mark(tokens, SetMark::Caret)?)
}

/// An exponent, which is 1 where it is not written.
#[tactic(auto, unfolding(crate::specs::Reading::maybe_exponent_at, aq_grammar::specs::Readers::mapped, aq_grammar::specs::Readers::optional))]
fn maybe_exponent<'a>(tokens: &'a [SetLexeme<'a>]) -> Result<(u128, &'a [SetLexeme<'a>]), Halt<'a>>
    ensures { Gives (λ x. (x.0, x.1.now)) result (maybe_exponent_at tokens.now) }
{
    if starts(tokens, SetMark::Caret) {
        return exponent(tokens);
    }
    Ok((1, tokens))
}

#[tactic(auto, unfolding(crate::specs::Reading::omega_at, aq_grammar::specs::Readers::mapped, aq_grammar::specs::Readers::after))]
fn omega<'a>(tokens: &'a [SetLexeme<'a>]) -> Result<(SetTurn, &'a [SetLexeme<'a>]), Halt<'a>>
    ensures { Gives (λ x. (x.0, x.1.now)) result (omega_at tokens.now) }
{
    let rest = mark(tokens, SetMark::Omega)?;
    let (exponent, rest) = maybe_exponent(rest)?;
    Ok((SetTurn::Omega(exponent), rest))
}

#[tactic(auto, unfolding(crate::specs::Reading::imaginary_at, aq_grammar::specs::Readers::mapped))]
fn imaginary<'a>(tokens: &'a [SetLexeme<'a>]) -> Result<(SetTurn, &'a [SetLexeme<'a>]), Halt<'a>>
    ensures { Gives (λ x. (x.0, x.1.now)) result (imaginary_at tokens.now) }
{
    let rest = mark(tokens, SetMark::Imaginary)?;
    Ok((SetTurn::Imaginary, rest))
}

#[tactic(auto, unfolding(crate::specs::Reading::turn_at, aq_grammar::specs::Readers::choice))]
fn turn<'a>(tokens: &'a [SetLexeme<'a>]) -> Result<(SetTurn, &'a [SetLexeme<'a>]), Halt<'a>>
    ensures { Gives (λ x. (x.0, x.1.now)) result (turn_at tokens.now) }
{
    if starts(tokens, SetMark::Omega) {
        return omega(tokens);
    }
    imaginary(tokens)
}

#[tactic(auto, unfolding(aq_grammar::specs::Readers::optional))]
fn maybe_turn<'a>(
    tokens: &'a [SetLexeme<'a>],
) -> Result<(Option<SetTurn>, &'a [SetLexeme<'a>]), Halt<'a>>
    ensures { Gives (λ x. (x.0, x.1.now)) result (optional begins_turn turn_at tokens.now) }
{
    if starts(tokens, SetMark::Omega) || starts(tokens, SetMark::Imaginary) {
        let (turn, rest) = turn(tokens)?;
        return Ok((Some(turn), rest));
    }
    Ok((None, tokens))
}

#[tactic(auto, unfolding(crate::specs::Reading::counted_at, aq_grammar::specs::Readers::mapped, aq_grammar::specs::Readers::both))]
fn counted<'a>(tokens: &'a [SetLexeme<'a>]) -> Result<(SetScalar, &'a [SetLexeme<'a>]), Halt<'a>>
    ensures { Gives (λ x. (x.0, x.1.now)) result (counted_at tokens.now) }
{
    let (times, rest) = number(tokens)?;
    let (turn, rest) = maybe_turn(rest)?;
    if let Some(turn) = turn {
        return Ok((SetScalar::Turned { times, turn }, rest));
    }
    Ok((SetScalar::Number(times), rest))
}

#[tactic(auto, unfolding(crate::specs::Reading::next_int_at, aq_grammar::specs::Readers::after))]
fn next_int<'a>(tokens: &'a [SetLexeme<'a>]) -> Result<(SetInt, &'a [SetLexeme<'a>]), Halt<'a>>
    ensures { Gives (λ x. (x.0, x.1.now)) result (next_int_at tokens.now) }
{
    int(mark(tokens, SetMark::Comma)?)
}

#[tactic(auto, unfolding(crate::specs::Reading::quadruple_at, aq_grammar::specs::Readers::mapped, aq_grammar::specs::Readers::after, aq_grammar::specs::Readers::both, aq_grammar::specs::Readers::before))]
fn quadruple<'a>(tokens: &'a [SetLexeme<'a>]) -> Result<(SetScalar, &'a [SetLexeme<'a>]), Halt<'a>>
    ensures { Gives (λ x. (x.0, x.1.now)) result (quadruple_at tokens.now) }
{
    let rest = mark(tokens, SetMark::ParenOpen)?;
    let (a, rest) = int(rest)?;
    let (b, rest) = next_int(rest)?;
    let (c, rest) = next_int(rest)?;
    let (d, rest) = next_int(rest)?;
    let rest = mark(rest, SetMark::ParenClose)?;
    Ok((SetScalar::Quadruple { a, b, c, d }, rest))
}

#[tactic(auto, unfolding(crate::specs::Reading::uncounted_at, aq_grammar::specs::Readers::choice, aq_grammar::specs::Readers::mapped))]
fn uncounted<'a>(tokens: &'a [SetLexeme<'a>]) -> Result<(SetScalar, &'a [SetLexeme<'a>]), Halt<'a>>
    ensures { Gives (λ x. (x.0, x.1.now)) result (uncounted_at tokens.now) }
{
    if starts(tokens, SetMark::ParenOpen) {
        return quadruple(tokens);
    }
    let (turn, rest) = turn(tokens)?;
    Ok((SetScalar::Turned { times: 1, turn }, rest))
}

#[tactic(auto, unfolding(crate::specs::Reading::scalar_at, aq_grammar::specs::Readers::choice))]
fn scalar<'a>(tokens: &'a [SetLexeme<'a>]) -> Result<(SetScalar, &'a [SetLexeme<'a>]), Halt<'a>>
    ensures { Gives (λ x. (x.0, x.1.now)) result (scalar_at tokens.now) }
{
    if starts_number(tokens) {
        return counted(tokens);
    }
    uncounted(tokens)
}

#[tactic(auto, unfolding(crate::specs::Reading::roots_at, aq_grammar::specs::Readers::after))]
fn roots<'a>(tokens: &'a [SetLexeme<'a>]) -> Result<(u128, &'a [SetLexeme<'a>]), Halt<'a>>
    ensures { Gives (λ x. (x.0, x.1.now)) result (roots_at tokens.now) }
{
    let rest = mark(tokens, SetMark::Slash)?;
    let rest = mark(rest, SetMark::Root)?;
    maybe_exponent(rest)
}

#[tactic(auto, unfolding(aq_grammar::specs::Readers::optional))]
fn maybe_roots<'a>(
    tokens: &'a [SetLexeme<'a>],
) -> Result<(Option<u128>, &'a [SetLexeme<'a>]), Halt<'a>>
    ensures { Gives (λ x. (x.0, x.1.now)) result (optional (begins marks.Slash) roots_at tokens.now) }
{
    if starts(tokens, SetMark::Slash) {
        let (roots, rest) = roots(tokens)?;
        return Ok((Some(roots), rest));
    }
    Ok((None, tokens))
}

#[tactic(auto, unfolding(crate::specs::Reading::coef_at, aq_grammar::specs::Readers::mapped, aq_grammar::specs::Readers::both))]
fn coef<'a>(tokens: &'a [SetLexeme<'a>]) -> Result<(SetCoef, &'a [SetLexeme<'a>]), Halt<'a>>
    ensures { Gives (λ x. (x.0, x.1.now)) result (coef_at tokens.now) }
{
    let (scalar, rest) = scalar(tokens)?;
    let (roots, rest) = maybe_roots(rest)?;
    let roots = roots.unwrap_or(0);
    Ok((SetCoef { scalar, roots }, rest))
}

/// A coefficient, which may be left out before a ket.
#[tactic(auto, unfolding(aq_grammar::specs::Readers::optional))]
pub(crate) fn maybe_coef<'a>(
    tokens: &'a [SetLexeme<'a>],
) -> Result<(Option<SetCoef>, &'a [SetLexeme<'a>]), Halt<'a>>
    ensures { Gives (λ x. (x.0, x.1.now)) result (optional no_ket coef_at tokens.now) }
{
    if !starts_ket(tokens) {
        let (coef, rest) = coef(tokens)?;
        return Ok((Some(coef), rest));
    }
    Ok((None, tokens))
}
