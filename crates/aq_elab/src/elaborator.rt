ghost use Rattle.std.specs.Prelude.{◌≡◌, All, IfOk};
ghost use Rattle.aq_elab.specs.Known.{Gives};
ghost use Rattle.aq_elab.specs.Elaborated.{elaborated};
ghost use Rattle.aq_prog.specs.Programs.{IsValidProgram, IsWritten};

use crate::fault::ElabFault;
use crate::scope::Scope;
use crate::statements::body;
use aq_parse::Tree;
use aq_prog::Program;
use sqlite_items::Items;
use std::alloc::Global;

#[tactic(auto, unfolding(crate::specs::Elaborated::elaborated))]
fn program(alloc: Global, tree: &Tree) -> Result<Program, ElabFault>
    ensures { Gives (λ p. p) result (elaborated tree.now) }
{
    let mut scope = Scope::new(alloc);
    let mut statements = Items::new(alloc);
    body(
        alloc,
        tree.items.as_slice(),
        false,
        &mut scope,
        &mut statements,
    )?;
    if scope.has_no_qubits() {
        return Err(ElabFault::NoQubits { at: tree.end });
    }
    scope.program(alloc, statements)
}

/// The program of a tree. A fault is the first one, in the order of the rules; or that memory ran out.
pub fn elaborate(alloc: Global, tree: &Tree) -> Result<Program, ElabFault>
    // The program, or the fault, is the one that the tree has.
    ensures program { Gives (λ p. p) result (elaborated tree.now) }
    // Its numbers are in range, and its registers are its bits.
    ensures valid { IfOk result IsValidProgram }
    // It has no assumptions.
    ensures written { IfOk result (λ p. All IsWritten p.body) }
{
    program(alloc, tree)
}
