//! The laws of obligations, each the contract of a function that does nothing: to call it is to cite it.
ghost use Rattle.aq_obligations.specs.OwingCounts.{OwesSoMany};
ghost use Rattle.aq_correct.specs.OwingLaws.{OwesByRule, OwesClaimed, OwesFragments, OwesValid, TrueThenCorrect};
ghost use Rattle.aq_correct.specs.WorldLaws.{
  NoughtWorlds,
  WorldsCompare,
  WorldsCoverRuns,
  WorldsDecide,
  WorldsMeetGates,
  WorldsRefute,
};
ghost use Rattle.aq_obligations.specs.declared.bound.BoundCase.{BoundCase};

/// What the worlds of an obligation are for, where its fragment has no cut. Each run whose end isn't zero is in
/// exactly one world of its case, at one place. Each vector of a world is the end of the runs that start as the world
/// does. So the obligation is true exactly where no world has a vector that escapes the goal; else it has one
/// refutation, which is a counterexample. A gate that a world meets and that doesn't fit makes the obligation wide,
/// and no other gate does.
#[tactic(auto, using(crate::proofs::WorldProofs::worlds_cover_runs, crate::proofs::WorldProofs::worlds_decide, crate::proofs::RefuteLaws::worlds_refute, crate::proofs::WorldProofs::worlds_meet_gates, crate::proofs::WorldProofs::worlds_compare, crate::proofs::NoughtLaws::nought_worlds))]
pub fn worlds()
    ensures cover { WorldsCoverRuns }
    ensures decide { WorldsDecide }
    ensures refute { WorldsRefute }
    ensures gates { WorldsMeetGates }
    ensures compare { WorldsCompare }
    ensures nought { NoughtWorlds }
{}

/// What a program with claims owes: the rules by which its obligations are made, that they are valid, that their cases
/// are those of the claims and none of their fragments has a cut, how many they are and how many statements their
/// fragments have, and that the program is correct where all of them are true, for all outcomes and all numbers of
/// turns.
#[tactic(auto, using(crate::proofs::OwingProofs::owes_by_rule, crate::proofs::OwingProofs::owes_fragments, crate::proofs::ValidOwed::owes_valid, crate::proofs::ClaimedOwed::owes_claimed, crate::proofs::CountLaws::owes_so_many, crate::proofs::CorrectLaws::true_then_correct))]
pub fn obligations()
    ensures rules { OwesByRule BoundCase }
    ensures fragments { OwesFragments BoundCase }
    ensures valid { OwesValid BoundCase }
    ensures claimed { OwesClaimed BoundCase }
    ensures count { OwesSoMany BoundCase }
    ensures correct { TrueThenCorrect BoundCase }
{}
