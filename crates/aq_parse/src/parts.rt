ghost use Rattle.std.specs.Prelude.{◌≡◌, true};
ghost use Rattle.aq_grammar.specs.Readers.{optional, after};
ghost use Rattle.aq_grammar.specs.Results.{Gives};
ghost use Rattle.aq_parse.specs.Tokens.{begins, mark_at};
ghost use Rattle.aq_parse.specs.Reading.{
  size_at,
  maybe_size_at,
  spot_at,
  spots_at,
  source_at,
  target_at,
  divisor_at,
  turn_at,
  times_turn_at,
  counted_at,
  amount_at,
  sign_at,
  angle_at,
  angled_at,
  equals_at,
  clear_at,
  equal_at,
  test_at,
  head_at,
};
ghost use Rattle.aq_parse.specs.Grammar.{or_one};
ghost use Rattle.aq_parse.specs.declared.mark.Mark.TheVariants as marks;

use crate::lexeme::Lexeme;
use crate::mark::Mark;
use crate::reader::{Halt, mark, name, number, pi, place, starts, starts_number, value};
use crate::tree::{Angle, Spot, Test};
use sqlite_items::Items;
use std::alloc::Global;

#[tactic(auto, unfolding(crate::specs::Reading::size_at, aq_grammar::specs::Readers::after, aq_grammar::specs::Readers::before))]
fn size<'a>(tokens: &'a [Lexeme<'a>]) -> Result<(u32, &'a [Lexeme<'a>]), Halt<'a>>
    ensures { Gives (λ x. (x.0, x.1.now)) result (size_at tokens.now) }
{
    let rest = mark(tokens, Mark::BracketOpen)?;
    let (number, rest) = number(rest)?;
    let rest = mark(rest, Mark::BracketClose)?;
    Ok((number, rest))
}

/// A size or an index in brackets, which may be left out.
#[tactic(auto, unfolding(aq_grammar::specs::Readers::optional))]
pub(crate) fn maybe_size<'a>(
    tokens: &'a [Lexeme<'a>],
) -> Result<(Option<u32>, &'a [Lexeme<'a>]), Halt<'a>>
    ensures { Gives (λ x. (x.0, x.1.now)) result (maybe_size_at tokens.now) }
{
    if starts(tokens, Mark::BracketOpen) {
        let (number, rest) = size(tokens)?;
        return Ok((Some(number), rest));
    }
    Ok((None, tokens))
}

#[tactic(auto, unfolding(crate::specs::Reading::spot_at, aq_grammar::specs::Readers::mapped, aq_grammar::specs::Readers::both))]
pub(crate) fn spot<'a>(
    alloc: Global,
    tokens: &'a [Lexeme<'a>],
) -> Result<(Spot, &'a [Lexeme<'a>]), Halt<'a>>
    ensures { Gives (λ x. (x.0, x.1.now)) result (spot_at tokens.now) }
{
    let (name, rest) = name(alloc, tokens)?;
    let (index, rest) = maybe_size(rest)?;
    Ok((Spot { name, index }, rest))
}

#[tactic(auto, unfolding(aq_grammar::specs::Readers::after))]
fn next_spot<'a>(
    alloc: Global,
    tokens: &'a [Lexeme<'a>],
) -> Result<(Spot, &'a [Lexeme<'a>]), Halt<'a>>
    ensures { Gives (λ x. (x.0, x.1.now)) result (after (mark_at marks.Comma) spot_at tokens.now) }
{
    spot(alloc, mark(tokens, Mark::Comma)?)
}

/// One spot or more, with commas.
#[tactic(auto, unfolding(crate::specs::Reading::spots_at, aq_grammar::specs::Readers::separated, aq_grammar::specs::Readers::mapped, aq_grammar::specs::Readers::both))]
pub(crate) fn spots<'a>(
    alloc: Global,
    tokens: &'a [Lexeme<'a>],
) -> Result<(Items<Spot>, &'a [Lexeme<'a>]), Halt<'a>>
    ensures { Gives (λ x. (x.0, x.1.now)) result (spots_at tokens.now) }
{
    let (first, mut rest) = spot(alloc, tokens)?;
    let mut spots = Items::new(alloc);
    spots.push(first)?;
    while starts(rest, Mark::Comma) {
        let (next, after) = next_spot(alloc, rest)?;
        spots.push(next)?;
        rest = after;
    }
    Ok((spots, rest))
}

/// What a bit is measured from, behind it.
#[tactic(auto, unfolding(crate::specs::Reading::source_at, aq_grammar::specs::Readers::after))]
pub(crate) fn source<'a>(
    alloc: Global,
    tokens: &'a [Lexeme<'a>],
) -> Result<(Spot, &'a [Lexeme<'a>]), Halt<'a>>
    ensures { Gives (λ x. (x.0, x.1.now)) result (source_at tokens.now) }
{
    let rest = mark(tokens, Mark::Assign)?;
    let rest = mark(rest, Mark::Measure)?;
    spot(alloc, rest)
}

#[tactic(auto, unfolding(aq_grammar::specs::Readers::optional))]
pub(crate) fn maybe_source<'a>(
    alloc: Global,
    tokens: &'a [Lexeme<'a>],
) -> Result<(Option<Spot>, &'a [Lexeme<'a>]), Halt<'a>>
    ensures { Gives (λ x. (x.0, x.1.now)) result (optional (begins marks.Assign) source_at tokens.now) }
{
    if starts(tokens, Mark::Assign) {
        let (from, rest) = source(alloc, tokens)?;
        return Ok((Some(from), rest));
    }
    Ok((None, tokens))
}

#[tactic(auto, unfolding(crate::specs::Reading::target_at, aq_grammar::specs::Readers::after))]
fn target<'a>(alloc: Global, tokens: &'a [Lexeme<'a>]) -> Result<(Spot, &'a [Lexeme<'a>]), Halt<'a>>
    ensures { Gives (λ x. (x.0, x.1.now)) result (target_at tokens.now) }
{
    spot(alloc, mark(tokens, Mark::Arrow)?)
}

/// What a spot is measured into, behind it.
#[tactic(auto, unfolding(aq_grammar::specs::Readers::optional))]
pub(crate) fn maybe_target<'a>(
    alloc: Global,
    tokens: &'a [Lexeme<'a>],
) -> Result<(Option<Spot>, &'a [Lexeme<'a>]), Halt<'a>>
    ensures { Gives (λ x. (x.0, x.1.now)) result (optional (begins marks.Arrow) target_at tokens.now) }
{
    if starts(tokens, Mark::Arrow) {
        let (into, rest) = target(alloc, tokens)?;
        return Ok((Some(into), rest));
    }
    Ok((None, tokens))
}

#[tactic(auto, unfolding(crate::specs::Reading::divisor_at, aq_grammar::specs::Readers::after))]
fn divisor<'a>(tokens: &'a [Lexeme<'a>]) -> Result<(u32, &'a [Lexeme<'a>]), Halt<'a>>
    ensures { Gives (λ x. (x.0, x.1.now)) result (divisor_at tokens.now) }
{
    number(mark(tokens, Mark::Slash)?)
}

#[tactic(auto, unfolding(aq_grammar::specs::Readers::optional))]
fn maybe_divisor<'a>(tokens: &'a [Lexeme<'a>]) -> Result<(Option<u32>, &'a [Lexeme<'a>]), Halt<'a>>
    ensures { Gives (λ x. (x.0, x.1.now)) result (optional (begins marks.Slash) divisor_at tokens.now) }
{
    if starts(tokens, Mark::Slash) {
        let (over, rest) = divisor(tokens)?;
        return Ok((Some(over), rest));
    }
    Ok((None, tokens))
}

#[tactic(auto, unfolding(crate::specs::Reading::turn_at, aq_grammar::specs::Readers::after))]
fn turn<'a>(tokens: &'a [Lexeme<'a>]) -> Result<(Option<u32>, &'a [Lexeme<'a>]), Halt<'a>>
    ensures { Gives (λ x. (x.0, x.1.now)) result (turn_at tokens.now) }
{
    maybe_divisor(pi(tokens)?)
}

#[tactic(auto, unfolding(crate::specs::Reading::times_turn_at, aq_grammar::specs::Readers::after))]
fn times_turn<'a>(tokens: &'a [Lexeme<'a>]) -> Result<(Option<u32>, &'a [Lexeme<'a>]), Halt<'a>>
    ensures { Gives (λ x. (x.0, x.1.now)) result (times_turn_at tokens.now) }
{
    turn(mark(tokens, Mark::Star)?)
}

#[tactic(auto, unfolding(aq_grammar::specs::Readers::optional))]
fn maybe_times_turn<'a>(
    tokens: &'a [Lexeme<'a>],
) -> Result<(Option<Option<u32>>, &'a [Lexeme<'a>]), Halt<'a>>
    ensures { Gives (λ x. (x.0, x.1.now)) result (optional (begins marks.Star) times_turn_at tokens.now) }
{
    if starts(tokens, Mark::Star) {
        let (over, rest) = times_turn(tokens)?;
        return Ok((Some(over), rest));
    }
    Ok((None, tokens))
}

/// An angle without its sign and place.
struct Amount {
    times: u32,
    pi: bool,
    over: u32,
}

fn with_turn(times: u32, over: Option<u32>) -> Amount
    ensures times { result.times ≡ times }
    ensures pi { result.pi ≡ true }
    ensures over { result.over ≡ or_one over }
{
    Amount {
        times,
        pi: true,
        over: over.unwrap_or(1),
    }
}

#[tactic(auto, unfolding(crate::specs::Reading::counted_at, aq_grammar::specs::Readers::mapped, aq_grammar::specs::Readers::both))]
fn counted<'a>(tokens: &'a [Lexeme<'a>]) -> Result<(Amount, &'a [Lexeme<'a>]), Halt<'a>>
    ensures { Gives (λ x. ((x.0.times, (x.0.pi, x.0.over)), x.1.now)) result (counted_at tokens.now) }
{
    let (times, rest) = number(tokens)?;
    let (turn, rest) = maybe_times_turn(rest)?;
    if let Some(over) = turn {
        return Ok((with_turn(times, over), rest));
    }
    let amount = Amount {
        times,
        pi: false,
        over: 1,
    };
    Ok((amount, rest))
}

#[tactic(auto, unfolding(crate::specs::Reading::amount_at, aq_grammar::specs::Readers::choice, aq_grammar::specs::Readers::mapped))]
fn unsigned<'a>(tokens: &'a [Lexeme<'a>]) -> Result<(Amount, &'a [Lexeme<'a>]), Halt<'a>>
    ensures { Gives (λ x. ((x.0.times, (x.0.pi, x.0.over)), x.1.now)) result (amount_at tokens.now) }
{
    if starts_number(tokens) {
        return counted(tokens);
    }
    let (over, rest) = turn(tokens)?;
    Ok((with_turn(1, over), rest))
}

#[tactic(auto, unfolding(crate::specs::Reading::sign_at, aq_grammar::specs::Readers::mapped, aq_grammar::specs::Readers::optional))]
fn sign<'a>(tokens: &'a [Lexeme<'a>]) -> Result<(bool, &'a [Lexeme<'a>]), Halt<'a>>
    ensures { Gives (λ x. (x.0, x.1.now)) result (sign_at tokens.now) }
{
    if starts(tokens, Mark::Minus) {
        let rest = mark(tokens, Mark::Minus)?;
        return Ok((true, rest));
    }
    Ok((false, tokens))
}

#[tactic(auto, unfolding(crate::specs::Reading::angle_at, aq_grammar::specs::Readers::mapped, aq_grammar::specs::Readers::placed, aq_grammar::specs::Readers::both))]
fn angle<'a>(tokens: &'a [Lexeme<'a>]) -> Result<(Angle, &'a [Lexeme<'a>]), Halt<'a>>
    ensures { Gives (λ x. (x.0, x.1.now)) result (angle_at tokens.now) }
{
    let at = place(tokens);
    let (minus, rest) = sign(tokens)?;
    let (amount, rest) = unsigned(rest)?;
    let Amount { times, pi, over } = amount;
    let angle = Angle {
        at,
        minus,
        times,
        pi,
        over,
    };
    Ok((angle, rest))
}

#[tactic(auto, unfolding(crate::specs::Reading::angled_at, aq_grammar::specs::Readers::after, aq_grammar::specs::Readers::before))]
fn angled<'a>(tokens: &'a [Lexeme<'a>]) -> Result<(Angle, &'a [Lexeme<'a>]), Halt<'a>>
    ensures { Gives (λ x. (x.0, x.1.now)) result (angled_at tokens.now) }
{
    let rest = mark(tokens, Mark::ParenOpen)?;
    let (angle, rest) = angle(rest)?;
    let rest = mark(rest, Mark::ParenClose)?;
    Ok((angle, rest))
}

/// An angle in parentheses, which may be left out.
#[tactic(auto, unfolding(aq_grammar::specs::Readers::optional))]
pub(crate) fn maybe_angle<'a>(
    tokens: &'a [Lexeme<'a>],
) -> Result<(Option<Angle>, &'a [Lexeme<'a>]), Halt<'a>>
    ensures { Gives (λ x. (x.0, x.1.now)) result (optional (begins marks.ParenOpen) angled_at tokens.now) }
{
    if starts(tokens, Mark::ParenOpen) {
        let (angle, rest) = angled(tokens)?;
        return Ok((Some(angle), rest));
    }
    Ok((None, tokens))
}

#[tactic(auto, unfolding(crate::specs::Reading::equals_at, aq_grammar::specs::Readers::after))]
fn equals<'a>(tokens: &'a [Lexeme<'a>]) -> Result<(bool, &'a [Lexeme<'a>]), Halt<'a>>
    ensures { Gives (λ x. (x.0, x.1.now)) result (equals_at tokens.now) }
{
    value(mark(tokens, Mark::Equals)?)
}

#[tactic(auto, unfolding(aq_grammar::specs::Readers::optional))]
fn maybe_equals<'a>(tokens: &'a [Lexeme<'a>]) -> Result<(Option<bool>, &'a [Lexeme<'a>]), Halt<'a>>
    ensures { Gives (λ x. (x.0, x.1.now)) result (optional (begins marks.Equals) equals_at tokens.now) }
{
    if starts(tokens, Mark::Equals) {
        let (value, rest) = equals(tokens)?;
        return Ok((Some(value), rest));
    }
    Ok((None, tokens))
}

#[tactic(auto, unfolding(crate::specs::Reading::clear_at, aq_grammar::specs::Readers::mapped, aq_grammar::specs::Readers::after))]
fn clear<'a>(alloc: Global, tokens: &'a [Lexeme<'a>]) -> Result<(Test, &'a [Lexeme<'a>]), Halt<'a>>
    ensures { Gives (λ x. (x.0, x.1.now)) result (clear_at tokens.now) }
{
    let (spot, rest) = spot(alloc, mark(tokens, Mark::Bang)?)?;
    let test = Test { spot, value: false };
    Ok((test, rest))
}

#[tactic(auto, unfolding(crate::specs::Reading::equal_at, aq_grammar::specs::Readers::mapped, aq_grammar::specs::Readers::both))]
fn equal<'a>(alloc: Global, tokens: &'a [Lexeme<'a>]) -> Result<(Test, &'a [Lexeme<'a>]), Halt<'a>>
    ensures { Gives (λ x. (x.0, x.1.now)) result (equal_at tokens.now) }
{
    let (spot, rest) = spot(alloc, tokens)?;
    let (value, rest) = maybe_equals(rest)?;
    let value = value.unwrap_or(true);
    Ok((Test { spot, value }, rest))
}

#[tactic(auto, unfolding(crate::specs::Reading::test_at, aq_grammar::specs::Readers::choice))]
fn test<'a>(alloc: Global, tokens: &'a [Lexeme<'a>]) -> Result<(Test, &'a [Lexeme<'a>]), Halt<'a>>
    ensures { Gives (λ x. (x.0, x.1.now)) result (test_at tokens.now) }
{
    if starts(tokens, Mark::Bang) {
        return clear(alloc, tokens);
    }
    equal(alloc, tokens)
}

/// The test in parentheses behind `if` or `while`.
#[tactic(auto, unfolding(crate::specs::Reading::head_at, aq_grammar::specs::Readers::after, aq_grammar::specs::Readers::before))]
pub(crate) fn head<'a>(
    alloc: Global,
    tokens: &'a [Lexeme<'a>],
    word: Mark,
) -> Result<(Test, &'a [Lexeme<'a>]), Halt<'a>>
    ensures { Gives (λ x. (x.0, x.1.now)) result (head_at word tokens.now) }
{
    let rest = mark(tokens, word)?;
    let rest = mark(rest, Mark::ParenOpen)?;
    let (test, rest) = test(alloc, rest)?;
    let rest = mark(rest, Mark::ParenClose)?;
    Ok((test, rest))
}
