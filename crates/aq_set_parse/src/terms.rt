ghost use Rattle.aq_grammar.specs.Readers.{optional};
ghost use Rattle.aq_grammar.specs.Results.{Gives};
ghost use Rattle.aq_set_parse.specs.Reading.{first_term_at, later_term_at, terms_at, bracket_at};

use crate::lexeme::SetLexeme;
use crate::mark::SetMark;
use crate::reader::{Halt, ket, mark, place, plus_or_minus, starts_sign};
use crate::scalars::{maybe_coef, sign};
use crate::tree::SetTerm;
use sqlite_items::Items;
use std::alloc::Global;

#[tactic(auto, unfolding(crate::specs::Reading::first_term_at, crate::specs::Reading::term_at, aq_grammar::specs::Readers::mapped, aq_grammar::specs::Readers::both, aq_grammar::specs::Readers::placed))]
fn first_term<'a>(
    alloc: Global,
    tokens: &'a [SetLexeme<'a>],
) -> Result<(SetTerm, &'a [SetLexeme<'a>]), Halt<'a>>
    ensures { Gives (λ x. (x.0, x.1.now)) result (first_term_at tokens.now) }
{
    let (minus, rest) = sign(tokens)?;
    let at = place(rest);
    let (coef, rest) = maybe_coef(rest)?;
    let (ket, rest) = ket(alloc, rest)?;
    let term = SetTerm {
        minus,
        at,
        coef,
        ket,
    };
    Ok((term, rest))
}

#[tactic(auto, unfolding(crate::specs::Reading::later_term_at, crate::specs::Reading::term_at, aq_grammar::specs::Readers::mapped, aq_grammar::specs::Readers::both, aq_grammar::specs::Readers::placed))]
fn later_term<'a>(
    alloc: Global,
    tokens: &'a [SetLexeme<'a>],
) -> Result<(SetTerm, &'a [SetLexeme<'a>]), Halt<'a>>
    ensures { Gives (λ x. (x.0, x.1.now)) result (later_term_at tokens.now) }
{
    let (minus, rest) = plus_or_minus(tokens)?;
    let at = place(rest);
    let (coef, rest) = maybe_coef(rest)?;
    let (ket, rest) = ket(alloc, rest)?;
    let term = SetTerm {
        minus,
        at,
        coef,
        ket,
    };
    Ok((term, rest))
}

#[tactic(auto, unfolding(crate::specs::Reading::terms_at, aq_grammar::specs::Readers::mapped, aq_grammar::specs::Readers::both))]
fn terms<'a>(
    alloc: Global,
    tokens: &'a [SetLexeme<'a>],
) -> Result<(Items<SetTerm>, &'a [SetLexeme<'a>]), Halt<'a>>
    ensures { Gives (λ x. (x.0, x.1.now)) result (terms_at tokens.now) }
{
    let (first, mut rest) = first_term(alloc, tokens)?;
    let mut terms = Items::new(alloc);
    terms.push(first)?;
    while starts_sign(rest) {
        let (next, after) = later_term(alloc, rest)?;
        terms.push(next)?;
        rest = after;
    }
    Ok((terms, rest))
}

/// The terms of a bracket.
#[tactic(auto, unfolding(crate::specs::Reading::bracket_at, aq_grammar::specs::Readers::after, aq_grammar::specs::Readers::before))]
pub(crate) fn bracket<'a>(
    alloc: Global,
    tokens: &'a [SetLexeme<'a>],
) -> Result<(Items<SetTerm>, &'a [SetLexeme<'a>]), Halt<'a>>
    ensures { Gives (λ x. (x.0, x.1.now)) result (bracket_at tokens.now) }
{
    let rest = mark(tokens, SetMark::BracketOpen)?;
    let (terms, rest) = terms(alloc, rest)?;
    let rest = mark(rest, SetMark::BracketClose)?;
    Ok((terms, rest))
}
