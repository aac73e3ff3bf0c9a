ghost use Rattle.std.specs.Prelude.{◌≡◌, []};
ghost use Rattle.aq_base.specs.Limits.{most_nested};
ghost use Rattle.aq_grammar.specs.Readers.{many, optional};
ghost use Rattle.aq_grammar.specs.Results.{Gives};
ghost use Rattle.aq_parse.specs.Tokens.{begins};
ghost use Rattle.aq_parse.specs.Reading.{
  if_at,
  while_at,
  bare_at,
  notes_at,
  item_at,
  open_inside,
  open_outside,
  block_at,
  inside_at,
  body_at,
  version_at,
  maybe_version_at,
  program_at,
  whole_at,
};
ghost use Rattle.aq_parse.specs.declared.mark.Mark.TheVariants as marks;

use crate::lexeme::Lexeme;
use crate::mark::Mark;
use crate::parts::head;
use crate::reader::{
    Fault, Halt, Opening, begin, end, mark, next_opening, note, place, starts, starts_note, three,
};
use crate::simple::simple;
use crate::tree::{Item, Node, Note, Tree};
use aq_base::MOST_NESTED;
use aq_grammar::Stop;
use sqlite_items::Items;
use std::alloc::Global;

#[cycle(statements)]
#[tactic(auto, unfolding(crate::specs::Reading::if_at, aq_grammar::specs::Readers::mapped, aq_grammar::specs::Readers::both, aq_grammar::specs::Readers::then_maybe, aq_grammar::specs::Readers::optional, aq_grammar::specs::Readers::after))]
fn branch<'a>(
    alloc: Global,
    tokens: &'a [Lexeme<'a>],
    room: u32,
) -> Result<(Node, &'a [Lexeme<'a>]), Halt<'a>>
    ensures { Gives (λ x. (x.0, x.1.now)) result (if_at (body_at room) tokens.now) }
{
    let (test, rest) = head(alloc, tokens, Mark::If)?;
    let (yes, rest) = body(alloc, rest, room)?;
    if starts(rest, Mark::Else) {
        let rest = mark(rest, Mark::Else)?;
        let (no, rest) = body(alloc, rest, room)?;
        return Ok((Node::If { test, yes, no }, rest));
    }
    let no = Items::new(alloc);
    Ok((Node::If { test, yes, no }, rest))
}

#[cycle(statements)]
#[tactic(auto, unfolding(crate::specs::Reading::while_at, aq_grammar::specs::Readers::mapped, aq_grammar::specs::Readers::both))]
fn repeat<'a>(
    alloc: Global,
    tokens: &'a [Lexeme<'a>],
    room: u32,
) -> Result<(Node, &'a [Lexeme<'a>]), Halt<'a>>
    ensures { Gives (λ x. (x.0, x.1.now)) result (while_at (body_at room) tokens.now) }
{
    let (test, rest) = head(alloc, tokens, Mark::While)?;
    let (body, rest) = body(alloc, rest, room)?;
    Ok((Node::While { test, body }, rest))
}

/// A statement without its notes, whose bodies nest at most so deep.
#[cycle(statements)]
#[tactic(auto, unfolding(crate::specs::Reading::bare_at, aq_grammar::specs::Readers::switch))]
fn bare<'a>(
    alloc: Global,
    tokens: &'a [Lexeme<'a>],
    room: u32,
) -> Result<(Node, &'a [Lexeme<'a>]), Halt<'a>>
    ensures { Gives (λ x. (x.0, x.1.now)) result (bare_at (body_at room) tokens.now) }
{
    match next_opening(tokens) {
        Opening::If => branch(alloc, tokens, room),
        Opening::While => repeat(alloc, tokens, room),
        Opening::Foreign => Err(Stop::At(Fault::NotTaken, tokens)),
        Opening::Simple => simple(alloc, tokens),
    }
}

#[tactic(auto, unfolding(crate::specs::Reading::notes_at))]
fn notes<'a>(
    alloc: Global,
    tokens: &'a [Lexeme<'a>],
) -> Result<(Items<Note>, &'a [Lexeme<'a>]), Halt<'a>>
    ensures { Gives (λ x. (x.0, x.1.now)) result (notes_at tokens.now) }
{
    let (mut notes, mut rest) = begin::<Note>(alloc, tokens)?;
    while starts_note(rest) {
        let (next, after) = note(alloc, rest)?;
        notes.push(next)?;
        rest = after;
    }
    Ok((notes, rest))
}

/// A statement whose bodies nest at most so deep.
#[cycle(statements)]
#[tactic(auto, unfolding(crate::specs::Reading::item_at, aq_grammar::specs::Readers::mapped, aq_grammar::specs::Readers::both, aq_grammar::specs::Readers::placed))]
fn statement<'a>(
    alloc: Global,
    tokens: &'a [Lexeme<'a>],
    room: u32,
) -> Result<(Item, &'a [Lexeme<'a>]), Halt<'a>>
    ensures { Gives (λ x. (x.0, x.1.now)) result (item_at (body_at room) tokens.now) }
{
    let (notes, rest) = notes(alloc, tokens)?;
    let at = place(rest);
    let (node, rest) = bare(alloc, rest, room)?;
    Ok((Item { notes, at, node }, rest))
}

/// The statements up to a brace that closes.
#[cycle(statements)]
fn inner<'a>(
    alloc: Global,
    tokens: &'a [Lexeme<'a>],
    room: u32,
) -> Result<(Items<Item>, &'a [Lexeme<'a>]), Halt<'a>>
    ensures { Gives (λ x. (x.0, x.1.now)) result (many open_inside (item_at (body_at room)) tokens.now) }
{
    let (mut items, mut rest) = begin::<Item>(alloc, tokens)?;
    while !starts(rest, Mark::BraceClose) {
        let (next, after) = statement(alloc, rest, room)?;
        items.push(next)?;
        rest = after;
    }
    Ok((items, rest))
}

#[cycle(statements)]
#[tactic(auto, unfolding(crate::specs::Reading::block_at, aq_grammar::specs::Readers::after, aq_grammar::specs::Readers::before))]
fn block<'a>(
    alloc: Global,
    tokens: &'a [Lexeme<'a>],
    room: u32,
) -> Result<(Items<Item>, &'a [Lexeme<'a>]), Halt<'a>>
    ensures { Gives (λ x. (x.0, x.1.now)) result (block_at (body_at room) tokens.now) }
{
    let rest = mark(tokens, Mark::BraceOpen)?;
    let (items, rest) = inner(alloc, rest, room)?;
    let rest = mark(rest, Mark::BraceClose)?;
    Ok((items, rest))
}

/// A body, in whose statements bodies nest at most so deep.
#[cycle(statements)]
#[tactic(auto, unfolding(crate::specs::Reading::inside_at, aq_grammar::specs::Readers::choice, aq_grammar::specs::Readers::mapped))]
fn inside<'a>(
    alloc: Global,
    tokens: &'a [Lexeme<'a>],
    room: u32,
) -> Result<(Items<Item>, &'a [Lexeme<'a>]), Halt<'a>>
    ensures { Gives (λ x. (x.0, x.1.now)) result (inside_at (body_at room) tokens.now) }
{
    if starts(tokens, Mark::BraceOpen) {
        return block(alloc, tokens, room);
    }
    let (only, rest) = statement(alloc, tokens, room)?;
    let mut items = Items::new(alloc);
    items.push(only)?;
    Ok((items, rest))
}

/// A body, in which bodies nest at most so deep, itself included.
#[cycle(statements)]
fn body<'a>(
    alloc: Global,
    tokens: &'a [Lexeme<'a>],
    room: u32,
) -> Result<(Items<Item>, &'a [Lexeme<'a>]), Halt<'a>>
    ensures { Gives (λ x. (x.0, x.1.now)) result (body_at room tokens.now) }
{
    if room == 0 {
        return Err(Stop::At(Fault::TooDeep, tokens));
    }
    inside(alloc, tokens, room - 1)
}

/// The statements up to the end of the text.
fn outer<'a>(
    alloc: Global,
    tokens: &'a [Lexeme<'a>],
    room: u32,
) -> Result<(Items<Item>, &'a [Lexeme<'a>]), Halt<'a>>
    ensures { Gives (λ x. (x.0, x.1.now)) result (many open_outside (item_at (body_at room)) tokens.now) }
{
    let (mut items, mut rest) = begin::<Item>(alloc, tokens)?;
    while !starts(rest, Mark::End) {
        let (next, after) = statement(alloc, rest, room)?;
        items.push(next)?;
        rest = after;
    }
    Ok((items, rest))
}

#[tactic(auto, unfolding(crate::specs::Reading::version_at, aq_grammar::specs::Readers::after, aq_grammar::specs::Readers::before))]
fn version<'a>(tokens: &'a [Lexeme<'a>]) -> Result<&'a [Lexeme<'a>], Halt<'a>>
    ensures { Gives (λ rest. (tt, rest.now)) result (version_at tokens.now) }
{
    let rest = mark(tokens, Mark::Openqasm)?;
    let rest = three(rest)?;
    mark(rest, Mark::Semicolon)
}

#[tactic(auto, unfolding(crate::specs::Reading::maybe_version_at, aq_grammar::specs::Readers::mapped, aq_grammar::specs::Readers::optional))]
fn maybe_version<'a>(tokens: &'a [Lexeme<'a>]) -> Result<&'a [Lexeme<'a>], Halt<'a>>
    ensures { Gives (λ rest. (tt, rest.now)) result (maybe_version_at tokens.now) }
{
    if starts(tokens, Mark::Openqasm) {
        return version(tokens);
    }
    Ok(tokens)
}

#[tactic(auto, unfolding(crate::specs::Reading::program_at, aq_grammar::specs::Readers::mapped, aq_grammar::specs::Readers::after, aq_grammar::specs::Readers::both))]
fn program<'a>(
    alloc: Global,
    tokens: &'a [Lexeme<'a>],
    room: u32,
) -> Result<(Tree, &'a [Lexeme<'a>]), Halt<'a>>
    ensures { Gives (λ x. (x.0, x.1.now)) result (program_at room tokens.now) }
{
    let rest = maybe_version(tokens)?;
    let (items, rest) = outer(alloc, rest, room)?;
    let (end, rest) = end(rest)?;
    Ok((Tree { items, end }, rest))
}

/// A program, and nothing behind it.
#[tactic(auto, unfolding(crate::specs::Reading::whole_at))]
pub(crate) fn whole<'a>(alloc: Global, tokens: &'a [Lexeme<'a>]) -> Result<Tree, Halt<'a>>
    ensures { Gives (λ tree. (tree, [])) result (whole_at most_nested tokens.now) }
{
    let (tree, rest) = program(alloc, tokens, MOST_NESTED)?;
    if !rest.is_empty() {
        return Err(Stop::At(Fault::Unexpected, rest));
    }
    Ok(tree)
}
