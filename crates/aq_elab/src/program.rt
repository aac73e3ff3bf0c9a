//! Programs from their texts.
ghost use Rattle.std.specs.Prelude.{◌≡◌, ◌≤◌, length, All, IfOk, IfErr};
ghost use Rattle.aq_prog.specs.Programs.{IsValidProgram, IsWritten};
ghost use Rattle.aq_elab.specs.Texts.{SaysProgram};
ghost use Rattle.aq_elab.specs.ProgramFaults.{HasProgramFault, fault_name, fault_place};

use crate::elaborator::elaborate;
use crate::fault::ElabFault;
use aq_lex::{LexFault, Place, tokens};
use aq_parse::{ParseFault, parse};
use aq_prog::Program;
use std::alloc::Global;

/// Why a text says no program: the first fault of its tokens, of their tree, or of its meaning.
#[derive(Debug, Drop)]
pub enum ProgramFault {
    /// The text has no tokens.
    Lex(LexFault),
    /// Its tokens have no tree.
    Parse(ParseFault),
    /// Its tree means no program.
    Elab(ElabFault),
}

impl ProgramFault {
    /// The name of the fault.
    pub fn name(&self) -> &'static str
        ensures { result.now ≡ fault_name self.now }
    {
        match self {
            ProgramFault::Lex(fault) => fault.name(),
            ProgramFault::Parse(fault) => fault.name(),
            ProgramFault::Elab(fault) => fault.name(),
        }
    }

    /// The place of the fault. None: memory ran out.
    pub fn at(&self) -> Option<Place>
        ensures { result ≡ fault_place self.now }
    {
        match self {
            ProgramFault::Lex(fault) => fault.at(),
            ProgramFault::Parse(fault) => fault.at(),
            ProgramFault::Elab(fault) => fault.at(),
        }
    }
}

/// The program that a text of at most 1,048,576 bytes says, or the first fault of the text. Want of memory is a fault
/// that may come at any text.
pub fn read_program(alloc: Global, source: &[u8]) -> Result<Program, ProgramFault>
    requires { length source.now ≤ 1048576 }
    ensures says { IfOk result (SaysProgram source.now) }
    // Its numbers are in range, and it has no assumption.
    ensures valid { IfOk result IsValidProgram }
    ensures written { IfOk result (λ p. All IsWritten p.body) }
    ensures fault { IfErr result (HasProgramFault source.now) }
{
    match tokens(alloc, source) {
        Ok(tokens) => match parse(alloc, &tokens) {
            Ok(tree) => match elaborate(alloc, &tree) {
                Ok(program) => Ok(program),
                Err(fault) => Err(ProgramFault::Elab(fault)),
            },
            Err(fault) => Err(ProgramFault::Parse(fault)),
        },
        Err(fault) => Err(ProgramFault::Lex(fault)),
    }
}
