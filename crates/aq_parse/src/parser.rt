ghost use Rattle.std.specs.Prelude.{◌≡◌, IfOk, IfErr};
ghost use Rattle.aq_base.specs.Limits.{most_nested};
ghost use Rattle.aq_parse.specs.Pieces.{pieces};
ghost use Rattle.aq_parse.specs.Grammar.{IsProgram};
ghost use Rattle.aq_parse.specs.Verdict.{EndsInEnd, FaultOf, GivesTree, Tells, text_of};
ghost use Rattle.aq_grammar.specs.Words.{first};
ghost use Rattle.aq_parse.specs.declared.tree.Tree.{Tree};

use crate::fault::ParseFault;
use crate::lexeme::Lexeme;
use crate::lexemes::lexemes;
use crate::reader::{Fault, Halt, place};
use crate::statements::whole;
use crate::tree::Tree;
use aq_grammar::Stop;
use aq_lex::{Text, Tokens};
use std::alloc::{AllocError, Global};

impl From<AllocError> for ParseFault {
    ghost use Rattle.std.specs.Prelude.{◌≡◌};
    ghost use Rattle.aq_base.specs.Limits.{most_nested};
    ghost use Rattle.aq_parse.specs.declared.fault.ParseFault.TheVariants.{Memory};

    ghost from_gives = { λ _ e. e ≡ Memory };

    fn from(_error: AllocError) -> ParseFault {
        ParseFault::Memory
    }
}

fn text<'a>(alloc: Global, rest: &'a [Lexeme<'a>]) -> Result<Text, AllocError>
    ensures { IfOk result (λ t. t ≡ text_of (first rest.now)) }
{
    match rest.split_first() {
        Some((token, _)) => Text::from_slice(alloc, token.text),
        None => Ok(Text::new(alloc)),
    }
}

fn named<'a>(alloc: Global, fault: Fault, rest: &'a [Lexeme<'a>]) -> Result<ParseFault, AllocError>
    ensures { IfOk result (λ e. Tells e fault rest.now) }
{
    let at = place(rest);
    match fault {
        Fault::Unexpected => Ok(ParseFault::Unexpected {
            at,
            token: text(alloc, rest)?,
        }),
        Fault::NotTaken => Ok(ParseFault::NotTaken {
            at,
            word: text(alloc, rest)?,
        }),
        Fault::TooDeep => Ok(ParseFault::TooDeep { at }),
    }
}

/// The fault with the place and the text of the token at which reading stopped.
fn told<'a>(alloc: Global, fault: Fault, rest: &'a [Lexeme<'a>]) -> ParseFault
    ensures { Tells result fault rest.now }
{
    match named(alloc, fault, rest) {
        Ok(fault) => fault,
        Err(_) => ParseFault::Memory,
    }
}

fn tree_of_list<'a>(alloc: Global, list: &'a [Lexeme<'a>]) -> Result<Tree, ParseFault>
    requires { EndsInEnd list.now }
    ensures tree { IfOk result (λ tree. IsProgram most_nested tree list.now) }
    ensures only { (tree : Tree) → IsProgram most_nested tree list.now → GivesTree result tree }
    ensures fault { IfErr result (λ e. FaultOf most_nested e list.now) }
{
    match whole(alloc, list) {
        Ok(tree) => Ok(tree),
        Err(Stop::Memory) => Err(ParseFault::Memory),
        Err(Stop::At(fault, rest)) => Err(told(alloc, fault, rest)),
    }
}

/// The tree of a program's tokens by the grammar, in which bodies nest at most 64 deep; or the first fault, at its
/// token.
pub fn parse(alloc: Global, tokens: &Tokens<'_>) -> Result<Tree, ParseFault>
    // What is found is a tree of the tokens.
    ensures tree { IfOk result (λ tree. IsProgram most_nested tree (pieces tokens.now)) }
    // Tokens that have a tree give it, unless memory runs out; so they have one at most.
    ensures only { (tree : Tree) → IsProgram most_nested tree (pieces tokens.now) → GivesTree result tree }
    // A fault is the first one; it stands at a token, and has its place and its text.
    ensures fault { IfErr result (λ e. FaultOf most_nested e (pieces tokens.now)) }
{
    let list = lexemes(alloc, tokens)?;
    tree_of_list(alloc, list.as_slice())
}
