ghost use Rattle.std.specs.Prelude.{◌≡◌, []};
ghost use Rattle.aq_base.specs.Limits.{most_nested};
ghost use Rattle.aq_grammar.specs.Readers.{optional, after, many};
ghost use Rattle.aq_grammar.specs.Results.{Gives};
ghost use Rattle.aq_set_parse.specs.Tokens.{begins, mark_at};
ghost use Rattle.aq_set_parse.specs.Reading.{
  index_at,
  cond_at,
  conds_at,
  when_at,
  case_at,
  cases_at,
  head_at,
  set_at,
  claim_at,
  item_at,
  goes_on,
  file_at,
  whole_at,
};
ghost use Rattle.aq_set_parse.specs.declared.mark.SetMark.TheVariants as marks;

use crate::exprs::expr;
use crate::lexeme::SetLexeme;
use crate::mark::SetMark;
use crate::reader::{Fault, Halt, begin, mark, name, number, place, starts, value};
use crate::tree::{SetCase, SetCond, SetItem, SetTree, SetWord};
use aq_base::MOST_NESTED;
use aq_grammar::Stop;
use sqlite_items::Items;
use std::alloc::Global;

#[tactic(auto, unfolding(crate::specs::Reading::index_at, aq_grammar::specs::Readers::after, aq_grammar::specs::Readers::before))]
fn index<'a>(tokens: &'a [SetLexeme<'a>]) -> Result<(u128, &'a [SetLexeme<'a>]), Halt<'a>>
    ensures { Gives (λ x. (x.0, x.1.now)) result (index_at tokens.now) }
{
    let rest = mark(tokens, SetMark::BracketOpen)?;
    let (number, rest) = number(rest)?;
    let rest = mark(rest, SetMark::BracketClose)?;
    Ok((number, rest))
}

#[tactic(auto, unfolding(aq_grammar::specs::Readers::optional))]
fn maybe_index<'a>(
    tokens: &'a [SetLexeme<'a>],
) -> Result<(Option<u128>, &'a [SetLexeme<'a>]), Halt<'a>>
    ensures { Gives (λ x. (x.0, x.1.now)) result (optional (begins marks.BracketOpen) index_at tokens.now) }
{
    if starts(tokens, SetMark::BracketOpen) {
        let (number, rest) = index(tokens)?;
        return Ok((Some(number), rest));
    }
    Ok((None, tokens))
}

#[tactic(auto, unfolding(crate::specs::Reading::cond_at, aq_grammar::specs::Readers::mapped, aq_grammar::specs::Readers::both, aq_grammar::specs::Readers::after))]
fn cond<'a>(
    alloc: Global,
    tokens: &'a [SetLexeme<'a>],
) -> Result<(SetCond, &'a [SetLexeme<'a>]), Halt<'a>>
    ensures { Gives (λ x. (x.0, x.1.now)) result (cond_at tokens.now) }
{
    let (name, rest) = name(alloc, tokens)?;
    let (index, rest) = maybe_index(rest)?;
    let rest = mark(rest, SetMark::Equals)?;
    let (value, rest) = value(rest)?;
    Ok((SetCond { name, index, value }, rest))
}

#[tactic(auto, unfolding(aq_grammar::specs::Readers::after))]
fn next_cond<'a>(
    alloc: Global,
    tokens: &'a [SetLexeme<'a>],
) -> Result<(SetCond, &'a [SetLexeme<'a>]), Halt<'a>>
    ensures { Gives (λ x. (x.0, x.1.now)) result (after (mark_at marks.And) cond_at tokens.now) }
{
    cond(alloc, mark(tokens, SetMark::And)?)
}

/// One condition or more, with `and`.
#[tactic(auto, unfolding(crate::specs::Reading::conds_at, aq_grammar::specs::Readers::separated, aq_grammar::specs::Readers::mapped, aq_grammar::specs::Readers::both))]
fn conds<'a>(
    alloc: Global,
    tokens: &'a [SetLexeme<'a>],
) -> Result<(Items<SetCond>, &'a [SetLexeme<'a>]), Halt<'a>>
    ensures { Gives (λ x. (x.0, x.1.now)) result (conds_at tokens.now) }
{
    let (first, mut rest) = cond(alloc, tokens)?;
    let mut conds = Items::new(alloc);
    conds.push(first)?;
    while starts(rest, SetMark::And) {
        let (next, after) = next_cond(alloc, rest)?;
        conds.push(next)?;
        rest = after;
    }
    Ok((conds, rest))
}

/// The conditions of a case, of which there may be none.
#[tactic(auto, unfolding(crate::specs::Reading::when_at, aq_grammar::specs::Readers::mapped, aq_grammar::specs::Readers::optional, aq_grammar::specs::Readers::after))]
fn when<'a>(
    alloc: Global,
    tokens: &'a [SetLexeme<'a>],
) -> Result<(Items<SetCond>, &'a [SetLexeme<'a>]), Halt<'a>>
    ensures { Gives (λ x. (x.0, x.1.now)) result (when_at tokens.now) }
{
    if starts(tokens, SetMark::When) {
        let rest = mark(tokens, SetMark::When)?;
        return conds(alloc, rest);
    }
    Ok((Items::new(alloc), tokens))
}

#[tactic(auto, unfolding(crate::specs::Reading::case_at, aq_grammar::specs::Readers::mapped, aq_grammar::specs::Readers::placed, aq_grammar::specs::Readers::both))]
fn case<'a>(
    alloc: Global,
    tokens: &'a [SetLexeme<'a>],
    room: u32,
) -> Result<(SetCase, &'a [SetLexeme<'a>]), Halt<'a>>
    ensures { Gives (λ x. (x.0, x.1.now)) result (case_at room tokens.now) }
{
    let at = place(tokens);
    let (expr, rest) = expr(alloc, tokens, room)?;
    let (when, rest) = when(alloc, rest)?;
    Ok((SetCase { at, expr, when }, rest))
}

#[tactic(auto, unfolding(aq_grammar::specs::Readers::after))]
fn next_case<'a>(
    alloc: Global,
    tokens: &'a [SetLexeme<'a>],
    room: u32,
) -> Result<(SetCase, &'a [SetLexeme<'a>]), Halt<'a>>
    ensures { Gives (λ x. (x.0, x.1.now)) result (after (mark_at marks.Comma) (case_at room) tokens.now) }
{
    case(alloc, mark(tokens, SetMark::Comma)?, room)
}

/// One case or more, with commas.
#[tactic(auto, unfolding(crate::specs::Reading::cases_at, aq_grammar::specs::Readers::separated, aq_grammar::specs::Readers::mapped, aq_grammar::specs::Readers::both))]
fn cases<'a>(
    alloc: Global,
    tokens: &'a [SetLexeme<'a>],
    room: u32,
) -> Result<(Items<SetCase>, &'a [SetLexeme<'a>]), Halt<'a>>
    ensures { Gives (λ x. (x.0, x.1.now)) result (cases_at room tokens.now) }
{
    let (first, mut rest) = case(alloc, tokens, room)?;
    let mut cases = Items::new(alloc);
    cases.push(first)?;
    while starts(rest, SetMark::Comma) {
        let (next, after) = next_case(alloc, rest, room)?;
        cases.push(next)?;
        rest = after;
    }
    Ok((cases, rest))
}

/// The name of an item, between its word and `=`.
#[tactic(auto, unfolding(crate::specs::Reading::head_at, aq_grammar::specs::Readers::after, aq_grammar::specs::Readers::before))]
fn head<'a>(
    alloc: Global,
    tokens: &'a [SetLexeme<'a>],
    word: SetMark,
) -> Result<(SetWord, &'a [SetLexeme<'a>]), Halt<'a>>
    ensures { Gives (λ x. (x.0, x.1.now)) result (head_at word tokens.now) }
{
    let rest = mark(tokens, word)?;
    let (name, rest) = name(alloc, rest)?;
    let rest = mark(rest, SetMark::Assign)?;
    Ok((name, rest))
}

#[tactic(auto, unfolding(crate::specs::Reading::set_at, aq_grammar::specs::Readers::mapped, aq_grammar::specs::Readers::both, aq_grammar::specs::Readers::before))]
fn set<'a>(
    alloc: Global,
    tokens: &'a [SetLexeme<'a>],
    room: u32,
) -> Result<(SetItem, &'a [SetLexeme<'a>]), Halt<'a>>
    ensures { Gives (λ x. (x.0, x.1.now)) result (set_at room tokens.now) }
{
    let (name, rest) = head(alloc, tokens, SetMark::Set)?;
    let (expr, rest) = expr(alloc, rest, room)?;
    let rest = mark(rest, SetMark::Semicolon)?;
    Ok((SetItem::Set { name, expr }, rest))
}

#[tactic(auto, unfolding(crate::specs::Reading::claim_at, aq_grammar::specs::Readers::mapped, aq_grammar::specs::Readers::both, aq_grammar::specs::Readers::before))]
fn claim<'a>(
    alloc: Global,
    tokens: &'a [SetLexeme<'a>],
    room: u32,
) -> Result<(SetItem, &'a [SetLexeme<'a>]), Halt<'a>>
    ensures { Gives (λ x. (x.0, x.1.now)) result (claim_at room tokens.now) }
{
    let (name, rest) = head(alloc, tokens, SetMark::Claim)?;
    let (cases, rest) = cases(alloc, rest, room)?;
    let rest = mark(rest, SetMark::Semicolon)?;
    Ok((SetItem::Claim { name, cases }, rest))
}

#[tactic(auto, unfolding(crate::specs::Reading::item_at, aq_grammar::specs::Readers::choice))]
fn item<'a>(
    alloc: Global,
    tokens: &'a [SetLexeme<'a>],
    room: u32,
) -> Result<(SetItem, &'a [SetLexeme<'a>]), Halt<'a>>
    ensures { Gives (λ x. (x.0, x.1.now)) result (item_at room tokens.now) }
{
    if starts(tokens, SetMark::Set) {
        return set(alloc, tokens, room);
    }
    claim(alloc, tokens, room)
}

/// The items up to the end of the text.
fn items<'a>(
    alloc: Global,
    tokens: &'a [SetLexeme<'a>],
    room: u32,
) -> Result<(Items<SetItem>, &'a [SetLexeme<'a>]), Halt<'a>>
    ensures { Gives (λ x. (x.0, x.1.now)) result (many goes_on (item_at room) tokens.now) }
{
    let (mut items, mut rest) = begin::<SetItem>(alloc, tokens)?;
    while !starts(rest, SetMark::End) {
        let (next, after) = item(alloc, rest, room)?;
        items.push(next)?;
        rest = after;
    }
    Ok((items, rest))
}

#[tactic(auto, unfolding(crate::specs::Reading::file_at, aq_grammar::specs::Readers::mapped, aq_grammar::specs::Readers::before))]
fn file<'a>(
    alloc: Global,
    tokens: &'a [SetLexeme<'a>],
    room: u32,
) -> Result<(SetTree, &'a [SetLexeme<'a>]), Halt<'a>>
    ensures { Gives (λ x. (x.0, x.1.now)) result (file_at room tokens.now) }
{
    let (items, rest) = items(alloc, tokens, room)?;
    let rest = mark(rest, SetMark::End)?;
    Ok((SetTree { items }, rest))
}

/// A set file, and nothing behind it.
#[tactic(auto, unfolding(crate::specs::Reading::whole_at))]
pub(crate) fn whole<'a>(alloc: Global, tokens: &'a [SetLexeme<'a>]) -> Result<SetTree, Halt<'a>>
    ensures { Gives (λ tree. (tree, [])) result (whole_at most_nested tokens.now) }
{
    let (tree, rest) = file(alloc, tokens, MOST_NESTED)?;
    if !rest.is_empty() {
        return Err(Stop::At(Fault::Unexpected, rest));
    }
    Ok(tree)
}
