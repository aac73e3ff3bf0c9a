ghost use Rattle.std.specs.Prelude.{◌≡◌, IfOk, IfErr};
ghost use Rattle.aq_base.specs.Limits.{most_nested};
ghost use Rattle.aq_grammar.specs.Words.{first};
ghost use Rattle.aq_set_parse.specs.Pieces.{pieces};
ghost use Rattle.aq_set_parse.specs.SetGrammar.{IsFile};
ghost use Rattle.aq_set_parse.specs.Verdict.{TreeFault, GivesTree, Tells, text_of};
ghost use Rattle.aq_set_parse.specs.declared.tree.SetTree.{SetTree};

use crate::items::whole;
use crate::lexeme::SetLexeme;
use crate::lexemes::lexemes;
use crate::list::SetTokens;
use crate::parse_fault::SetParseFault;
use crate::reader::{Fault, place};
use crate::tree::SetTree;
use aq_grammar::Stop;
use aq_lex::Text;
use std::alloc::{AllocError, Global};

impl From<AllocError> for SetParseFault {
    ghost use Rattle.std.specs.Prelude.{◌≡◌};
    ghost use Rattle.aq_base.specs.Limits.{most_nested};
    ghost use Rattle.aq_set_parse.specs.declared.parse_fault.SetParseFault.TheVariants.{Memory};

    ghost from_gives = { λ _ e. e ≡ Memory };

    fn from(_error: AllocError) -> SetParseFault {
        SetParseFault::Memory
    }
}

fn text<'a>(alloc: Global, rest: &'a [SetLexeme<'a>]) -> Result<Text, AllocError>
    ensures { IfOk result (λ t. t ≡ text_of (first rest.now)) }
{
    match rest.split_first() {
        Some((token, _)) => Text::from_slice(alloc, token.text),
        None => Ok(Text::new(alloc)),
    }
}

fn named<'a>(
    alloc: Global,
    fault: Fault,
    rest: &'a [SetLexeme<'a>],
) -> Result<SetParseFault, AllocError>
    ensures { IfOk result (λ e. Tells e fault rest.now) }
{
    let at = place(rest);
    match fault {
        Fault::Unexpected => Ok(SetParseFault::Unexpected {
            at,
            token: text(alloc, rest)?,
        }),
        Fault::TooDeep => Ok(SetParseFault::TooDeep { at }),
    }
}

/// The fault with the place and the text of the token at which reading stopped.
fn told<'a>(alloc: Global, fault: Fault, rest: &'a [SetLexeme<'a>]) -> SetParseFault
    ensures { Tells result fault rest.now }
{
    match named(alloc, fault, rest) {
        Ok(fault) => fault,
        Err(_) => SetParseFault::Memory,
    }
}

fn tree_of_list<'a>(alloc: Global, list: &'a [SetLexeme<'a>]) -> Result<SetTree, SetParseFault>
    ensures tree { IfOk result (λ tree. IsFile most_nested tree list.now) }
    ensures only { (tree : SetTree) → IsFile most_nested tree list.now → GivesTree result tree }
    ensures fault { IfErr result (λ e. TreeFault most_nested e list.now) }
{
    match whole(alloc, list) {
        Ok(tree) => Ok(tree),
        Err(Stop::Memory) => Err(SetParseFault::Memory),
        Err(Stop::At(fault, rest)) => Err(told(alloc, fault, rest)),
    }
}

/// The tree of a set file's tokens by the grammar, in which parentheses nest at most 64 deep; or the first fault, at
/// its token. `Memory` may come at any tokens.
pub fn parse_sets(alloc: Global, tokens: &SetTokens<'_>) -> Result<SetTree, SetParseFault>
    // What is found is a tree of the tokens.
    ensures tree { IfOk result (λ tree. IsFile most_nested tree (pieces tokens.now)) }
    // Tokens that have a tree give it, unless memory runs out; so they have one at most.
    ensures only { (tree : SetTree) → IsFile most_nested tree (pieces tokens.now) → GivesTree result tree }
    // A fault is the first one, with the place and the text of its token.
    ensures fault { IfErr result (λ e. TreeFault most_nested e (pieces tokens.now)) }
{
    let list = lexemes(alloc, tokens)?;
    tree_of_list(alloc, list.as_slice())
}
