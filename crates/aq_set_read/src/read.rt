//! Set files, from their bytes.
ghost use Rattle.std.specs.Prelude.{◌≤◌, List, ℕ, length, IfOk, IfErr};
ghost use Rattle.aq_set_read.specs.Texts.{HasSetTree, HasTreeFault, SaysSets, SetFaultOf};
ghost use Rattle.aq_set_parse.specs.Told.{FaultOf};
ghost use Rattle.aq_sets.specs.Valid.{IsValidSets};

use crate::meaning::sets_of_tree;
use crate::set_fault::SetFault;
use aq_set_parse::{SetLexFault, SetParseFault, SetTree, parse_sets, tokens_of_sets};
use aq_sets::Sets;
use std::alloc::Global;

/// The fault of a set file whose bytes have this fault.
fn fault_of_bytes(fault: SetLexFault) -> SetFault
    ensures { (text : List ℕ) → FaultOf text fault → SetFaultOf text result }
{
    match fault {
        SetLexFault::NotUtf8 { at } => SetFault::NotUtf8 { at },
        SetLexFault::BadByte { at, byte } => SetFault::BadByte { at, byte },
        SetLexFault::OpenComment { at } => SetFault::OpenComment { at },
        SetLexFault::LongNumber { at } => SetFault::LongNumber { at },
        SetLexFault::BadKet { at } => SetFault::BadKet { at },
        SetLexFault::Memory => SetFault::Memory,
    }
}

/// The fault of a set file whose tokens have this fault.
fn fault_of_tokens(fault: SetParseFault) -> SetFault
    ensures { (text : List ℕ) → HasTreeFault text fault → SetFaultOf text result }
{
    match fault {
        SetParseFault::Unexpected { at, token } => SetFault::Unexpected { at, token },
        SetParseFault::TooDeep { at } => SetFault::TooDeep { at },
        SetParseFault::Memory => SetFault::Memory,
    }
}

/// The tree of a set file; or the first fault of its bytes, its tokens or its grammar.
fn tree_of(alloc: Global, source: &[u8]) -> Result<SetTree, SetFault>
    requires { length source.now ≤ 4194304 }
    ensures tree { IfOk result (HasSetTree source.now) }
    ensures fault { IfErr result (SetFaultOf source.now) }
{
    let tokens = match tokens_of_sets(alloc, source) {
        Ok(tokens) => tokens,
        Err(fault) => return Err(fault_of_bytes(fault)),
    };
    match parse_sets(alloc, &tokens) {
        Ok(tree) => Ok(tree),
        Err(fault) => Err(fault_of_tokens(fault)),
    }
}

/// What a set file says; or its first fault: of its bytes, of its tokens, of its grammar, or of an item, in this order.
pub fn read_sets(alloc: Global, source: &[u8]) -> Result<Sets, SetFault>
    requires { length source.now ≤ 4194304 }
    // The sets and claims are those that the text says.
    ensures says { IfOk result (SaysSets source.now) }
    // What they name is there, their qubits agree, and no list is long.
    ensures valid { IfOk result IsValidSets }
    // A fault is the text's first one.
    ensures fault { IfErr result (SetFaultOf source.now) }
{
    let tree = tree_of(alloc, source)?;
    sets_of_tree(alloc, &tree)
}
