ghost use Rattle.std.specs.Prelude.{◌≡◌};
ghost use Rattle.std.proofs.Common.{inl, inr};
ghost use Rattle.aq_grammar.specs.Readers.{mapped};
ghost use Rattle.aq_grammar.specs.Results.{Gives};
ghost use Rattle.aq_parse.specs.Reading.{
  include_at,
  qubit_at,
  register_at,
  qreg_at,
  creg_at,
  bit_at,
  measure_at,
  reset_at,
  maybe_spots_at,
  barrier_at,
  assign_tail_at,
  call_tail_at,
  named_at,
  simple_at,
};

use crate::lexeme::Lexeme;
use crate::mark::Mark;
use crate::parts::{maybe_angle, maybe_size, maybe_source, maybe_target, source, spot, spots};
use crate::reader::{Halt, Start, library, mark, name, next_start, starts, starts_name};
use crate::tree::{Angle, Node, Spot, Word};
use sqlite_items::Items;
use std::alloc::Global;

#[tactic(auto, unfolding(crate::specs::Reading::include_at, aq_grammar::specs::Readers::mapped, aq_grammar::specs::Readers::after, aq_grammar::specs::Readers::before))]
fn include<'a>(tokens: &'a [Lexeme<'a>]) -> Result<(Node, &'a [Lexeme<'a>]), Halt<'a>>
    ensures { Gives (λ x. (x.0, x.1.now)) result (include_at tokens.now) }
{
    let rest = mark(tokens, Mark::Include)?;
    let rest = library(rest)?;
    let rest = mark(rest, Mark::Semicolon)?;
    Ok((Node::Include, rest))
}

#[tactic(auto, unfolding(crate::specs::Reading::qubit_at, aq_grammar::specs::Readers::mapped, aq_grammar::specs::Readers::after, aq_grammar::specs::Readers::both, aq_grammar::specs::Readers::before))]
fn qubit<'a>(alloc: Global, tokens: &'a [Lexeme<'a>]) -> Result<(Node, &'a [Lexeme<'a>]), Halt<'a>>
    ensures { Gives (λ x. (x.0, x.1.now)) result (qubit_at tokens.now) }
{
    let rest = mark(tokens, Mark::Qubit)?;
    let (size, rest) = maybe_size(rest)?;
    let (name, rest) = name(alloc, rest)?;
    let rest = mark(rest, Mark::Semicolon)?;
    Ok((Node::Qubits { name, size }, rest))
}

#[tactic(auto, unfolding(crate::specs::Reading::register_at, aq_grammar::specs::Readers::after, aq_grammar::specs::Readers::both, aq_grammar::specs::Readers::before))]
fn register<'a>(
    alloc: Global,
    tokens: &'a [Lexeme<'a>],
    word: Mark,
) -> Result<((Word, Option<u32>), &'a [Lexeme<'a>]), Halt<'a>>
    ensures { Gives (λ x. (x.0, x.1.now)) result (register_at word tokens.now) }
{
    let rest = mark(tokens, word)?;
    let (name, rest) = name(alloc, rest)?;
    let (size, rest) = maybe_size(rest)?;
    let rest = mark(rest, Mark::Semicolon)?;
    Ok(((name, size), rest))
}

#[tactic(auto, unfolding(crate::specs::Reading::qreg_at, aq_grammar::specs::Readers::mapped))]
fn qreg<'a>(alloc: Global, tokens: &'a [Lexeme<'a>]) -> Result<(Node, &'a [Lexeme<'a>]), Halt<'a>>
    ensures { Gives (λ x. (x.0, x.1.now)) result (qreg_at tokens.now) }
{
    let ((name, size), rest) = register(alloc, tokens, Mark::Qreg)?;
    Ok((Node::Qubits { name, size }, rest))
}

#[tactic(auto, unfolding(crate::specs::Reading::creg_at, aq_grammar::specs::Readers::mapped))]
fn creg<'a>(alloc: Global, tokens: &'a [Lexeme<'a>]) -> Result<(Node, &'a [Lexeme<'a>]), Halt<'a>>
    ensures { Gives (λ x. (x.0, x.1.now)) result (creg_at tokens.now) }
{
    let ((name, size), rest) = register(alloc, tokens, Mark::Creg)?;
    let node = Node::Bits {
        name,
        size,
        from: None,
    };
    Ok((node, rest))
}

#[tactic(auto, unfolding(crate::specs::Reading::bit_at, aq_grammar::specs::Readers::mapped, aq_grammar::specs::Readers::after, aq_grammar::specs::Readers::both, aq_grammar::specs::Readers::before))]
fn bit<'a>(alloc: Global, tokens: &'a [Lexeme<'a>]) -> Result<(Node, &'a [Lexeme<'a>]), Halt<'a>>
    ensures { Gives (λ x. (x.0, x.1.now)) result (bit_at tokens.now) }
{
    let rest = mark(tokens, Mark::Bit)?;
    let (size, rest) = maybe_size(rest)?;
    let (name, rest) = name(alloc, rest)?;
    let (from, rest) = maybe_source(alloc, rest)?;
    let rest = mark(rest, Mark::Semicolon)?;
    Ok((Node::Bits { name, size, from }, rest))
}

#[tactic(auto, unfolding(crate::specs::Reading::measure_at, aq_grammar::specs::Readers::mapped, aq_grammar::specs::Readers::after, aq_grammar::specs::Readers::both, aq_grammar::specs::Readers::before))]
fn measure<'a>(
    alloc: Global,
    tokens: &'a [Lexeme<'a>],
) -> Result<(Node, &'a [Lexeme<'a>]), Halt<'a>>
    ensures { Gives (λ x. (x.0, x.1.now)) result (measure_at tokens.now) }
{
    let rest = mark(tokens, Mark::Measure)?;
    let (from, rest) = spot(alloc, rest)?;
    let (into, rest) = maybe_target(alloc, rest)?;
    let rest = mark(rest, Mark::Semicolon)?;
    let node = Node::Measure {
        from,
        into,
        into_first: false,
    };
    Ok((node, rest))
}

#[tactic(auto, unfolding(crate::specs::Reading::reset_at, aq_grammar::specs::Readers::mapped, aq_grammar::specs::Readers::after, aq_grammar::specs::Readers::before))]
fn reset<'a>(alloc: Global, tokens: &'a [Lexeme<'a>]) -> Result<(Node, &'a [Lexeme<'a>]), Halt<'a>>
    ensures { Gives (λ x. (x.0, x.1.now)) result (reset_at tokens.now) }
{
    let rest = mark(tokens, Mark::Reset)?;
    let (spot, rest) = spot(alloc, rest)?;
    let rest = mark(rest, Mark::Semicolon)?;
    Ok((Node::Reset(spot), rest))
}

#[tactic(auto, unfolding(crate::specs::Reading::maybe_spots_at, aq_grammar::specs::Readers::mapped, aq_grammar::specs::Readers::optional))]
fn maybe_spots<'a>(
    alloc: Global,
    tokens: &'a [Lexeme<'a>],
) -> Result<(Items<Spot>, &'a [Lexeme<'a>]), Halt<'a>>
    ensures { Gives (λ x. (x.0, x.1.now)) result (maybe_spots_at tokens.now) }
{
    if starts_name(tokens) {
        return spots(alloc, tokens);
    }
    Ok((Items::new(alloc), tokens))
}

#[tactic(auto, unfolding(crate::specs::Reading::barrier_at, aq_grammar::specs::Readers::mapped, aq_grammar::specs::Readers::after, aq_grammar::specs::Readers::before))]
fn barrier<'a>(
    alloc: Global,
    tokens: &'a [Lexeme<'a>],
) -> Result<(Node, &'a [Lexeme<'a>]), Halt<'a>>
    ensures { Gives (λ x. (x.0, x.1.now)) result (barrier_at tokens.now) }
{
    let rest = mark(tokens, Mark::Barrier)?;
    let (spots, rest) = maybe_spots(alloc, rest)?;
    let rest = mark(rest, Mark::Semicolon)?;
    Ok((Node::Barrier(spots), rest))
}

/// The rest of an assignment, behind the name.
#[tactic(auto, unfolding(crate::specs::Reading::assign_tail_at, aq_grammar::specs::Readers::both, aq_grammar::specs::Readers::before))]
fn assign_tail<'a>(
    alloc: Global,
    tokens: &'a [Lexeme<'a>],
) -> Result<((Option<u32>, Spot), &'a [Lexeme<'a>]), Halt<'a>>
    ensures { Gives (λ x. (x.0, x.1.now)) result (assign_tail_at tokens.now) }
{
    let (index, rest) = maybe_size(tokens)?;
    let (from, rest) = source(alloc, rest)?;
    let rest = mark(rest, Mark::Semicolon)?;
    Ok(((index, from), rest))
}

/// The rest of a call, behind the name.
#[tactic(auto, unfolding(crate::specs::Reading::call_tail_at, aq_grammar::specs::Readers::both, aq_grammar::specs::Readers::before))]
fn call_tail<'a>(
    alloc: Global,
    tokens: &'a [Lexeme<'a>],
) -> Result<((Option<Angle>, Items<Spot>), &'a [Lexeme<'a>]), Halt<'a>>
    ensures { Gives (λ x. (x.0, x.1.now)) result (call_tail_at tokens.now) }
{
    let (angle, rest) = maybe_angle(tokens)?;
    let (spots, rest) = spots(alloc, rest)?;
    let rest = mark(rest, Mark::Semicolon)?;
    Ok(((angle, spots), rest))
}

/// A statement that begins with a name.
#[tactic(auto, unfolding(crate::specs::Reading::named_at, aq_grammar::specs::Readers::mapped, aq_grammar::specs::Readers::both, aq_grammar::specs::Readers::choice))]
fn named<'a>(alloc: Global, tokens: &'a [Lexeme<'a>]) -> Result<(Node, &'a [Lexeme<'a>]), Halt<'a>>
    ensures { Gives (λ x. (x.0, x.1.now)) result (named_at tokens.now) }
{
    let (name, rest) = name(alloc, tokens)?;
    if starts(rest, Mark::BracketOpen) || starts(rest, Mark::Assign) {
        let ((index, from), rest) = assign_tail(alloc, rest)?;
        let node = Node::Measure {
            from,
            into: Some(Spot { name, index }),
            into_first: true,
        };
        return Ok((node, rest));
    }
    let ((angle, spots), rest) = call_tail(alloc, rest)?;
    Ok((Node::Call { name, angle, spots }, rest))
}

/// A statement without a body.
#[tactic(auto, unfolding(crate::specs::Reading::simple_at, aq_grammar::specs::Readers::switch))]
pub(crate) fn simple<'a>(
    alloc: Global,
    tokens: &'a [Lexeme<'a>],
) -> Result<(Node, &'a [Lexeme<'a>]), Halt<'a>>
    ensures { Gives (λ x. (x.0, x.1.now)) result (simple_at tokens.now) }
{
    match next_start(tokens) {
        Start::Include => include(tokens),
        Start::Qubit => qubit(alloc, tokens),
        Start::Qreg => qreg(alloc, tokens),
        Start::Bit => bit(alloc, tokens),
        Start::Creg => creg(alloc, tokens),
        Start::Measure => measure(alloc, tokens),
        Start::Reset => reset(alloc, tokens),
        Start::Barrier => barrier(alloc, tokens),
        Start::Named => named(alloc, tokens),
    }
}
