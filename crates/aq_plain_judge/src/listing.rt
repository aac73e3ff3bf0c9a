//! The cases of an obligation, with the vectors that they list.
ghost use Rattle.std.specs.Prelude.{◌≡◌, ◌<◌, All, IfErr, IfOk, length};
ghost use Rattle.aq_sets.specs.Caps.{capped_sizes};
ghost use Rattle.aq_sets.specs.Valid.{IsValidSets};
ghost use Rattle.aq_sets.specs.Vectors.{products_of};
ghost use Rattle.aq_obligations.specs.Asking.{case_of, products_in};
ghost use Rattle.aq_obligations.specs.Bound.{IsBoundCase};
ghost use Rattle.aq_worlds.specs.Playing.{AreOn, StopsFor};
ghost use Rattle.aq_plain_judge.specs.Listing.{AreGoal, HasWide, case_states, claim_of};

use aq_obligations::BoundCase;
use aq_plain::{Vector, VectorStop, vectors_by_sizes};
use aq_prog::{Guard, Program};
use aq_sets::{Sets, Size};
use aq_worlds::Stop;
use sqlite_items::Items;
use std::alloc::{AllocError, Global};

/// A case of a goal: its conditions, and the vectors that it lists.
#[derive(Debug, Drop)]
pub(crate) struct GoalCase {
    pub when: Items<Guard>,
    pub vectors: Items<Vector>,
}

/// The vectors that the case lists. More of them than a `u64` counts are too many for any memory.
pub(crate) fn case_states(
    alloc: Global,
    sets: &Sets,
    sizes: &[Size],
    case: &BoundCase,
) -> Result<Items<Vector>, Stop>
    requires sets { IsValidSets sets.now }
    requires told { sizes.now ≡ capped_sizes sets.now.exprs }
    requires there { case.now.set < length sets.now.exprs }
    ensures ok { IfOk result (λ list. list ≡ case_states sets.now case.now) }
    ensures err { IfErr result (λ e. StopsFor (HasWide (products_of sets.now.exprs case.now.set)) e) }
{
    match vectors_by_sizes(alloc, sets, sizes, case.set, u64::MAX) {
        Ok(list) => Ok(list),
        Err(VectorStop::Wide { .. }) => Err(Stop::Width),
        Err(VectorStop::TooMany) => Err(Stop::Memory),
        Err(VectorStop::Memory) => Err(Stop::Memory),
    }
}

/// The vectors in a `Vec`.
pub(crate) fn into_vec(alloc: Global, list: Items<Vector>) -> Result<Vec<Vector>, AllocError>
    ensures { IfOk result (λ vectors. vectors.items ≡ list) }
{
    let mut list = list;
    let mut vectors = Vec::new(alloc);
    while let Some(vector) = list.pop() {
        vectors.push(vector)?;
    }
    vectors.as_mut_slice().reverse();
    Ok(vectors)
}

fn goal_case(
    alloc: Global,
    program: &Program,
    sets: &Sets,
    sizes: &[Size],
    case: &BoundCase,
) -> Result<GoalCase, Stop>
    requires sets { IsValidSets sets.now }
    requires told { sizes.now ≡ capped_sizes sets.now.exprs }
    requires bound { IsBoundCase program.now sets.now case.now }
    ensures claim { IfOk result (λ g. claim_of g ≡ case_of sets.now case.now) }
    ensures on { IfOk result (λ g. AreOn program.now.qubits g.vectors) }
    ensures err { IfErr result (λ e. StopsFor (HasWide (products_of sets.now.exprs case.now.set)) e) }
{
    let vectors = case_states(alloc, sets, sizes, case)?;
    let when = Items::from_slice(alloc, case.when.as_slice())?;
    Ok(GoalCase { when, vectors })
}

/// The cases of a goal, in order, each with the vectors that it lists.
pub(crate) fn goal_cases(
    alloc: Global,
    program: &Program,
    sets: &Sets,
    sizes: &[Size],
    cases: &[BoundCase],
) -> Result<Vec<GoalCase>, Stop>
    requires sets { IsValidSets sets.now }
    requires told { sizes.now ≡ capped_sizes sets.now.exprs }
    requires bound { All (IsBoundCase program.now sets.now) cases.now }
    ensures ok { IfOk result (λ goal. AreGoal program.now sets.now cases.now goal.items) }
    ensures err { IfErr result (λ e. StopsFor (HasWide (products_in sets.now cases.now)) e) }
{
    let mut goal = Vec::new(alloc);
    for case in cases {
        let listed = goal_case(alloc, program, sets, sizes, case)?;
        goal.push(listed)?;
    }
    Ok(goal)
}
