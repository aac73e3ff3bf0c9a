//! The worlds of a case of an obligation.
ghost use Rattle.std.specs.Prelude.{◌≡◌, Contains, IfErr, IfOk, map};
ghost use Rattle.aq_correct.specs.WorldLaws.{worlds_of};
ghost use Rattle.aq_obligations.specs.Asking.{case_of, meaning_of};
ghost use Rattle.aq_obligations.specs.Wide.{WideGate};
ghost use Rattle.aq_worlds.specs.Asked.{AreListedBy, CanBeJudged};
ghost use Rattle.aq_worlds.specs.Playing.{AreSized, StopsFor, world_of};

use crate::decide::decide_all;
use crate::several::alive;
use crate::spread::play;
use crate::start::start;
use crate::stop::Stop;
use crate::world::PlainWorld;
use aq_correct::laws;
use aq_obligations::{BoundCase, Obligation};
use aq_plain::Vector;
use aq_prog::Program;
use aq_sets::Sets;
use std::alloc::Global;

/// The worlds that come of a case of the obligation's assumption, in order, but for those whose every vector is zero.
/// `vectors` are those that the case lists. `Width`: a gate that one of the worlds meets doesn't fit on one of the
/// world's vectors there.
pub fn worlds_of_case(
    alloc: Global,
    program: &Program,
    sets: &Sets,
    obligation: &Obligation,
    case: &BoundCase,
    vectors: Vec<Vector>,
) -> Result<Vec<PlainWorld>, Stop>
    requires asked { CanBeJudged program.now sets.now obligation.now }
    requires listed { Contains obligation.now.from case.now }
    requires vectors { AreListedBy program.now sets.now case.now vectors.items }
    ensures worlds { IfOk result (λ list. map (world_of (case_of sets.now case.now)) list.items
        ≡ worlds_of (meaning_of program.now sets.now obligation.now) (case_of sets.now case.now)) }
    ensures sized { IfOk result (λ list. AreSized program.now.qubits program.now.bits list.items) }
    ensures err { IfErr result (λ e. StopsFor (WideGate (meaning_of program.now sets.now obligation.now)) e) }
{
    laws::worlds();
    let first = start(alloc, program.bits, obligation, case, vectors)?;
    let ends = play(alloc, first, obligation.fragment.as_slice())?;
    let decided = decide_all(alloc, ends, obligation.goal.cases.as_slice(), program.bits)?;
    let list = alive(alloc, decided)?;
    Ok(list)
}
