ghost use Rattle.std.specs.Prelude.{◌≡◌};
ghost use Rattle.aq_grammar.specs.Readers.{optional, after};
ghost use Rattle.aq_grammar.specs.Results.{Gives};
ghost use Rattle.aq_set_parse.specs.Tokens.{begins, mark_at};
ghost use Rattle.aq_set_parse.specs.Reading.{
  vector_at,
  basis_at,
  named_at,
  atom_at,
  power_at,
  powered_at,
  link_at,
  factor_of,
  factors_at,
  tensor_at,
  part_of,
  parts_at,
  inside_at,
  group_at,
  expr_at,
};
ghost use Rattle.aq_set_parse.specs.declared.mark.SetMark.TheVariants as marks;

use crate::lexeme::SetLexeme;
use crate::mark::SetMark;
use crate::reader::{Fault, Halt, Opening, mark, name, next_opening, number, place, starts};
use crate::scalars::exponent;
use crate::terms::bracket;
use crate::tree::{SetExpr, SetFactor, SetPart, SetPower};
use aq_grammar::Stop;
use sqlite_items::Items;
use std::alloc::Global;

#[tactic(auto, unfolding(aq_grammar::specs::Readers::mapped, aq_grammar::specs::Readers::placed))]
fn vector<'a>(
    alloc: Global,
    tokens: &'a [SetLexeme<'a>],
) -> Result<(SetExpr, &'a [SetLexeme<'a>]), Halt<'a>>
    ensures { Gives (λ x. (x.0, x.1.now)) result (vector_at tokens.now) }
{
    let at = place(tokens);
    let (terms, rest) = bracket(alloc, tokens)?;
    Ok((SetExpr::Bracket { at, terms }, rest))
}

#[tactic(auto, unfolding(crate::specs::Reading::all_at, aq_grammar::specs::Readers::mapped, aq_grammar::specs::Readers::placed, aq_grammar::specs::Readers::after))]
fn basis<'a>(tokens: &'a [SetLexeme<'a>]) -> Result<(SetExpr, &'a [SetLexeme<'a>]), Halt<'a>>
    ensures { Gives (λ x. (x.0, x.1.now)) result (basis_at tokens.now) }
{
    let at = place(tokens);
    let rest = mark(tokens, SetMark::All)?;
    let (number, rest) = number(rest)?;
    Ok((SetExpr::All { at, number }, rest))
}

#[tactic(auto, unfolding(aq_grammar::specs::Readers::mapped))]
fn named<'a>(
    alloc: Global,
    tokens: &'a [SetLexeme<'a>],
) -> Result<(SetExpr, &'a [SetLexeme<'a>]), Halt<'a>>
    ensures { Gives (λ x. (x.0, x.1.now)) result (named_at tokens.now) }
{
    let (word, rest) = name(alloc, tokens)?;
    Ok((SetExpr::Name(word), rest))
}

/// What an expression is made of, in which parentheses nest at most so deep.
#[cycle(expressions)]
#[tactic(auto, unfolding(crate::specs::Reading::atom_at, aq_grammar::specs::Readers::switch))]
fn atom<'a>(
    alloc: Global,
    tokens: &'a [SetLexeme<'a>],
    room: u32,
) -> Result<(SetExpr, &'a [SetLexeme<'a>]), Halt<'a>>
    ensures { Gives (λ x. (x.0, x.1.now)) result (atom_at (group_at room) tokens.now) }
{
    match next_opening(tokens) {
        Opening::Bracket => vector(alloc, tokens),
        Opening::All => basis(tokens),
        Opening::Group => group(alloc, tokens, room),
        Opening::Name => named(alloc, tokens),
    }
}

#[tactic(auto, unfolding(crate::specs::Reading::power_at, aq_grammar::specs::Readers::mapped, aq_grammar::specs::Readers::placed, aq_grammar::specs::Readers::optional))]
fn maybe_power<'a>(
    tokens: &'a [SetLexeme<'a>],
) -> Result<(Option<SetPower>, &'a [SetLexeme<'a>]), Halt<'a>>
    ensures { Gives (λ x. (x.0, x.1.now)) result (optional (begins marks.Caret) power_at tokens.now) }
{
    if starts(tokens, SetMark::Caret) {
        let at = place(tokens);
        let (number, rest) = exponent(tokens)?;
        return Ok((Some(SetPower { at, number }), rest));
    }
    Ok((None, tokens))
}

/// The first operand of a tensor product.
#[cycle(expressions)]
#[tactic(auto, unfolding(crate::specs::Reading::link_at, crate::specs::Reading::powered_at, aq_grammar::specs::Readers::mapped, aq_grammar::specs::Readers::placed, aq_grammar::specs::Readers::both))]
fn factor<'a>(
    alloc: Global,
    tokens: &'a [SetLexeme<'a>],
    room: u32,
) -> Result<(SetFactor, &'a [SetLexeme<'a>]), Halt<'a>>
    ensures { Gives (λ x. (x.0, x.1.now)) result (link_at factor_of (powered_at (group_at room)) tokens.now) }
{
    let at = place(tokens);
    let (expr, rest) = atom(alloc, tokens, room)?;
    let (power, rest) = maybe_power(rest)?;
    Ok((SetFactor { at, expr, power }, rest))
}

#[cycle(expressions)]
#[tactic(auto, unfolding(crate::specs::Reading::link_at, crate::specs::Reading::powered_at, aq_grammar::specs::Readers::mapped, aq_grammar::specs::Readers::placed, aq_grammar::specs::Readers::after, aq_grammar::specs::Readers::both))]
fn next_factor<'a>(
    alloc: Global,
    tokens: &'a [SetLexeme<'a>],
    room: u32,
) -> Result<(SetFactor, &'a [SetLexeme<'a>]), Halt<'a>>
    ensures { Gives (λ x. (x.0, x.1.now)) result (link_at factor_of (after (mark_at marks.Star) (powered_at
        (group_at room))) tokens.now) }
{
    let at = place(tokens);
    let rest = mark(tokens, SetMark::Star)?;
    let (expr, rest) = atom(alloc, rest, room)?;
    let (power, rest) = maybe_power(rest)?;
    Ok((SetFactor { at, expr, power }, rest))
}

#[cycle(expressions)]
#[tactic(auto, unfolding(crate::specs::Reading::factors_at, crate::specs::Reading::chain_at, aq_grammar::specs::Readers::mapped, aq_grammar::specs::Readers::both))]
fn factors<'a>(
    alloc: Global,
    tokens: &'a [SetLexeme<'a>],
    room: u32,
) -> Result<(Items<SetFactor>, &'a [SetLexeme<'a>]), Halt<'a>>
    ensures { Gives (λ x. (x.0, x.1.now)) result (factors_at (group_at room) tokens.now) }
{
    let (first, mut rest) = factor(alloc, tokens, room)?;
    let mut factors = Items::new(alloc);
    factors.push(first)?;
    while starts(rest, SetMark::Star) {
        let (next, after) = next_factor(alloc, rest, room)?;
        factors.push(next)?;
        rest = after;
    }
    Ok((factors, rest))
}

/// The first operand of a union.
#[cycle(expressions)]
#[tactic(auto, unfolding(crate::specs::Reading::link_at, crate::specs::Reading::tensor_at, aq_grammar::specs::Readers::mapped, aq_grammar::specs::Readers::placed))]
fn part<'a>(
    alloc: Global,
    tokens: &'a [SetLexeme<'a>],
    room: u32,
) -> Result<(SetPart, &'a [SetLexeme<'a>]), Halt<'a>>
    ensures { Gives (λ x. (x.0, x.1.now)) result (link_at part_of (tensor_at (group_at room)) tokens.now) }
{
    let at = place(tokens);
    let (factors, rest) = factors(alloc, tokens, room)?;
    let expr = SetExpr::Tensor(factors);
    Ok((SetPart { at, expr }, rest))
}

#[cycle(expressions)]
#[tactic(auto, unfolding(crate::specs::Reading::link_at, crate::specs::Reading::tensor_at, aq_grammar::specs::Readers::mapped, aq_grammar::specs::Readers::placed, aq_grammar::specs::Readers::after))]
fn next_part<'a>(
    alloc: Global,
    tokens: &'a [SetLexeme<'a>],
    room: u32,
) -> Result<(SetPart, &'a [SetLexeme<'a>]), Halt<'a>>
    ensures { Gives (λ x. (x.0, x.1.now)) result (link_at part_of (after (mark_at marks.Union) (tensor_at
        (group_at room))) tokens.now) }
{
    let at = place(tokens);
    let rest = mark(tokens, SetMark::Union)?;
    let (factors, rest) = factors(alloc, rest, room)?;
    let expr = SetExpr::Tensor(factors);
    Ok((SetPart { at, expr }, rest))
}

#[cycle(expressions)]
#[tactic(auto, unfolding(crate::specs::Reading::parts_at, crate::specs::Reading::chain_at, aq_grammar::specs::Readers::mapped, aq_grammar::specs::Readers::both))]
fn parts<'a>(
    alloc: Global,
    tokens: &'a [SetLexeme<'a>],
    room: u32,
) -> Result<(Items<SetPart>, &'a [SetLexeme<'a>]), Halt<'a>>
    ensures { Gives (λ x. (x.0, x.1.now)) result (parts_at (group_at room) tokens.now) }
{
    let (first, mut rest) = part(alloc, tokens, room)?;
    let mut parts = Items::new(alloc);
    parts.push(first)?;
    while starts(rest, SetMark::Union) {
        let (next, after) = next_part(alloc, rest, room)?;
        parts.push(next)?;
        rest = after;
    }
    Ok((parts, rest))
}

/// An expression, in which parentheses nest at most so deep.
#[cycle(expressions)]
#[tactic(auto, unfolding(crate::specs::Reading::expr_at, crate::specs::Reading::union_at, aq_grammar::specs::Readers::mapped))]
pub(crate) fn expr<'a>(
    alloc: Global,
    tokens: &'a [SetLexeme<'a>],
    room: u32,
) -> Result<(SetExpr, &'a [SetLexeme<'a>]), Halt<'a>>
    ensures { Gives (λ x. (x.0, x.1.now)) result (expr_at room tokens.now) }
{
    let (parts, rest) = parts(alloc, tokens, room)?;
    Ok((SetExpr::Union(parts), rest))
}

/// An expression in parentheses, in which others nest at most so deep.
#[cycle(expressions)]
#[tactic(auto, unfolding(crate::specs::Reading::inside_at, crate::specs::Reading::expr_at, aq_grammar::specs::Readers::after, aq_grammar::specs::Readers::before))]
fn inside<'a>(
    alloc: Global,
    tokens: &'a [SetLexeme<'a>],
    room: u32,
) -> Result<(SetExpr, &'a [SetLexeme<'a>]), Halt<'a>>
    ensures { Gives (λ x. (x.0, x.1.now)) result (inside_at (group_at room) tokens.now) }
{
    let rest = mark(tokens, SetMark::ParenOpen)?;
    let (expr, rest) = expr(alloc, rest, room)?;
    let rest = mark(rest, SetMark::ParenClose)?;
    Ok((expr, rest))
}

/// An expression in parentheses, which nest at most so deep, themselves included.
#[cycle(expressions)]
fn group<'a>(
    alloc: Global,
    tokens: &'a [SetLexeme<'a>],
    room: u32,
) -> Result<(SetExpr, &'a [SetLexeme<'a>]), Halt<'a>>
    ensures { Gives (λ x. (x.0, x.1.now)) result (group_at room tokens.now) }
{
    if room == 0 {
        return Err(Stop::At(Fault::TooDeep, tokens));
    }
    inside(alloc, tokens, room - 1)
}
