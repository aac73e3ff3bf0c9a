//! The one vector of a set by its name.
ghost use Rattle.std.specs.Prelude.{◌≡◌, ◌<◌, IfErr, IfOk, length, option_copied};
ghost use Rattle.std.specs.Option.{option_map};
ghost use Rattle.aq_sets.specs.Valid.{IsValidSets};
ghost use Rattle.aq_sets.specs.Sizes.{size_of};
ghost use Rattle.aq_top.specs.Replay.{
  HasStateFault,
  HasVectorFault,
  IsOnlyVector,
  IsStateOf,
  set_named,
  state_fault_name,
};

use aq_plain::{Vector, VectorStop, vectors};
use aq_prog::Program;
use aq_sets::{NamedSet, Sets, qubits};
use std::alloc::{AllocError, Global};

/// Why a name gives no state of a program.
#[derive(Clone, Copy, Debug, PartialEq, Eq)]
pub enum StateFault {
    /// No set has the name.
    UnknownSet,
    /// The set is on another number of qubits than the program.
    QubitsDiffer,
    /// The set doesn't list exactly one vector.
    NotOne,
    /// A product of a tensor or a power in the set doesn't fit.
    Wide,
    /// Memory ran out.
    Memory,
}

impl From<AllocError> for StateFault {
    ghost use Rattle.std.specs.Prelude.{◌≡◌};
    ghost use Rattle.aq_top.specs.declared.state.StateFault.TheVariants.{Memory};

    ghost from_gives = { λ _ e. e ≡ Memory };

    fn from(_error: AllocError) -> StateFault {
        StateFault::Memory
    }
}

impl StateFault {
    /// The name of the fault. None: memory ran out.
    pub fn name(self) -> Option<&'static str>
        ensures { option_map (λ name. name.now) result ≡ state_fault_name self }
    {
        match self {
            StateFault::UnknownSet => Some("UnknownSet"),
            StateFault::QubitsDiffer => Some("QubitsDiffer"),
            StateFault::NotOne => Some("NotOne"),
            StateFault::Wide => Some("Wide"),
            StateFault::Memory => None,
        }
    }
}

fn set_named<'a>(sets: &'a [NamedSet], name: &[u8]) -> Option<&'a NamedSet>
    ensures { option_copied result ≡ set_named sets.now name.now }
{
    for set in sets {
        if set.name.is(name) {
            return Some(set);
        }
    }
    None
}

/// The vector of an expression that lists one.
fn only_vector(alloc: Global, sets: &Sets, expr: u32) -> Result<Vector, StateFault>
    requires valid { IsValidSets sets.now }
    requires there { expr < length sets.now.exprs }
    ensures ok { IfOk result (λ v. IsOnlyVector sets.now.exprs expr v.amps) }
    ensures qubits { IfOk result (λ v. v.qubits ≡ (size_of sets.now.exprs expr).qubits) }
    ensures fault { IfErr result (HasVectorFault sets.now.exprs expr) }
{
    match vectors(alloc, sets, expr, 1) {
        Ok(mut list) => match list.pop() {
            Some(vector) => Ok(vector),
            None => Err(StateFault::NotOne),
        },
        Err(VectorStop::TooMany) => Err(StateFault::NotOne),
        Err(VectorStop::Wide { .. }) => Err(StateFault::Wide),
        Err(VectorStop::Memory) => Err(StateFault::Memory),
    }
}

/// The one vector of the set with this name, which is on the program's qubits.
pub(crate) fn state_of(
    alloc: Global,
    program: &Program,
    sets: &Sets,
    name: &[u8],
) -> Result<Vector, StateFault>
    requires { IsValidSets sets.now }
    ensures ok { IfOk result (λ v. IsStateOf program.now sets.now name.now v.amps) }
    ensures qubits { IfOk result (λ v. v.qubits ≡ program.now.qubits) }
    ensures fault { IfErr result (HasStateFault program.now sets.now name.now) }
{
    let Some(set) = set_named(sets.sets.as_slice(), name) else {
        return Err(StateFault::UnknownSet);
    };
    if qubits(alloc, sets, set.expr)? != program.qubits {
        return Err(StateFault::QubitsDiffer);
    }
    only_vector(alloc, sets, set.expr)
}
