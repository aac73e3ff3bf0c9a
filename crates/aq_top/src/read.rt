//! What a command reads: a program, and sets.
ghost use Rattle.std.specs.Prelude.{◌≡◌, ◌≤◌, IfOk, IfErr};
ghost use Rattle.aq_prog.specs.Programs.{IsValidProgram};
ghost use Rattle.aq_sets.specs.Valid.{IsValidSets};
ghost use Rattle.aq_top.specs.Reads.{
  ReadFailedOf,
  ReadsProgram,
  ReadsSets,
  ProgramCause,
  SetsCause,
  TellsProgramFault,
  TellsSetFault,
};

use aq_base::{MOST_PROGRAM_BYTES, MOST_SETS_BYTES};
use aq_elab::{ProgramFault, read_program};
use aq_parse::ParseFault;
use aq_prog::Program;
use aq_report::Refusal;
use aq_set_read::{SetFault, read_sets};
use aq_sets::Sets;
use aq_world::{ReadFault, Shelf};
use std::alloc::Global;

/// Tells a fault of the program.
pub(crate) fn refused_program<'a>(fault: ProgramFault) -> Refusal<'a>
    ensures { TellsProgramFault fault result }
{
    match fault {
        ProgramFault::Parse(ParseFault::NotTaken { at, word }) => Refusal::NotTaken { at, word },
        fault => match fault.at() {
            Some(at) => Refusal::Program {
                at,
                name: fault.name(),
            },
            None => Refusal::OutOfMemory,
        },
    }
}

/// Tells a fault of the sets.
pub(crate) fn refused_sets<'a>(fault: &SetFault) -> Refusal<'a>
    ensures { TellsSetFault fault.now result }
{
    match fault.at() {
        Some(at) => Refusal::Sets {
            at,
            name: fault.name(),
        },
        None => Refusal::OutOfMemory,
    }
}

/// Reads a program.
pub(crate) fn load_program<'a, S: Shelf>(
    alloc: Global,
    name: &'a str,
    shelf: &mut S,
) -> Result<Program, Refusal<'a>>
    ensures read { IfOk result (ReadsProgram (S.meaning.holds shelf.old) name.entry.now) }
    ensures valid { IfOk result IsValidProgram }
    ensures cause { IfErr result
        (ProgramCause (S.meaning.holds shelf.old) (ReadFailedOf S.meaning shelf.old shelf.new) name.entry.now) }
    ensures later { S.meaning.faults shelf.old ≤ S.meaning.faults shelf.new }
    ensures held { S.meaning.holds shelf.new ≡ S.meaning.holds shelf.old }
{
    match shelf.read(name, MOST_PROGRAM_BYTES) {
        Ok(bytes) => match read_program(alloc, bytes.as_slice()) {
            Ok(program) => Ok(program),
            Err(fault) => Err(refused_program(fault)),
        },
        Err(ReadFault::Failed) => Err(Refusal::ReadFault { file: name }),
        Err(ReadFault::TooLong(_)) => Err(Refusal::ProgramTooLong),
        Err(ReadFault::Memory) => Err(Refusal::OutOfMemory),
    }
}

/// Reads the sets.
pub(crate) fn load_sets<'a, S: Shelf>(
    alloc: Global,
    name: &'a str,
    shelf: &mut S,
) -> Result<Sets, Refusal<'a>>
    ensures read { IfOk result (ReadsSets (S.meaning.holds shelf.old) name.entry.now) }
    ensures valid { IfOk result IsValidSets }
    ensures cause { IfErr result
        (SetsCause (S.meaning.holds shelf.old) (ReadFailedOf S.meaning shelf.old shelf.new) name.entry.now) }
    ensures later { S.meaning.faults shelf.old ≤ S.meaning.faults shelf.new }
    ensures held { S.meaning.holds shelf.new ≡ S.meaning.holds shelf.old }
{
    match shelf.read(name, MOST_SETS_BYTES) {
        Ok(bytes) => match read_sets(alloc, bytes.as_slice()) {
            Ok(sets) => Ok(sets),
            Err(fault) => Err(refused_sets(&fault)),
        },
        Err(ReadFault::Failed) => Err(Refusal::ReadFault { file: name }),
        Err(ReadFault::TooLong(_)) => Err(Refusal::SetsTooLong),
        Err(ReadFault::Memory) => Err(Refusal::OutOfMemory),
    }
}
