//! Inclusions that were found before, so that the search for the same automaton and goals is made once.
ghost use Rattle.std.specs.Prelude.{◌≡◌, ◌≤◌, ◌<◌, ◌^◌, ◌++◌, ◌∷◌, [], IfErr, IfOk, IfSome, IsTrue, OnOk, Some, length, slice_get};
ghost use Rattle.aq_store.specs.Count.{after};
ghost use Rattle.aq_cert.specs.Goals.{FitTogether};
ghost use Rattle.aq_cert.specs.declared.cert.Cert.{Cert};
ghost use Rattle.aq_include.specs.Answers.{Answers, IsPaid, StopsFor, search_budget};
ghost use Rattle.aq_include.specs.Costs.{IsCause, Takes};
ghost use Rattle.aq_include.specs.Ends.{IsNotWide};
ghost use Rattle.aq_include.specs.declared.inclusion.Answer.TheVariants as answer;
ghost use Rattle.aq_symbolic.specs.Steps.{IsSameSet};
ghost use Rattle.aq_decide.specs.Certified.{AreCertified, AreCertifiedAfter, AreSameSets, IsFound};
ghost use Rattle.aq_decide.specs.Kept.{alone};

use crate::start::copy_of;
use aq_cert::Cert;
use aq_include::{Answer, include};
use aq_ring::Amp;
use aq_store::{Lsta, Steps, Stop, Store};
use indexmap::IndexMap;
use sqlite_items::Items;
use std::alloc::{AllocError, Global};

/// An inclusion that was found before.
#[derive(Drop)]
pub(crate) struct Finding {
    /// The automaton.
    left: Lsta,
    /// Its goals.
    goals: Items<Lsta>,
    /// The number of the certificate that shows it.
    cert: u32,
    /// How many steps the search took.
    price: u64,
}

/// The inclusions that were found before, and where one of an automaton and goals may stand.
#[derive(Drop)]
pub(crate) struct Findings {
    entries: Items<Finding>,
    found: IndexMap<u64, u32>,
}

/// A number for an automaton and goals, by which their inclusion is found again.
fn key_of(left: &Lsta, goals: &[Lsta]) -> u64 {
    let mut key = left.root.place() as u64;
    for goal in goals {
        key = (key ^ goal.root.place() as u64)
            .wrapping_mul(0x9E37_79B9_7F4A_7C15)
            .rotate_left(29);
    }
    key
}

/// Whether two automata are the same.
fn same_set(one: &Lsta, other: &Lsta) -> bool
    ensures { IsTrue result → IsSameSet one.now other.now }
{
    one.root == other.root && one.shape.as_slice() == other.shape.as_slice()
}

/// Whether they are, one by one.
fn same_sets(ones: &[Lsta], others: &[Lsta]) -> bool
    ensures { IsTrue result → AreSameSets ones.now others.now }
{
    if ones.len() != others.len() {
        return false;
    }
    for i in 0..ones.len() {
        if !same_set(&ones[i], &others[i]) {
            return false;
        }
    }
    true
}

/// The same goals once more. Fails only for want of memory.
fn copy_all(alloc: Global, goals: &[Lsta]) -> Result<Items<Lsta>, AllocError>
    ensures { IfOk result (AreSameSets goals.now) }
{
    let mut list = Items::new(alloc);
    for goal in goals {
        list.push(copy_of(alloc, goal)?)?;
    }
    Ok(list)
}

impl Findings {
    /// None yet.
    pub(crate) fn new(alloc: Global) -> Findings
        ensures { result.entries ≡ [] }
    {
        Findings {
            entries: Items::new(alloc),
            found: IndexMap::new(alloc),
        }
    }

    /// What was found of the automaton and goals. The key only tells where to look.
    fn find(&self, left: &Lsta, goals: &[Lsta]) -> Option<&Finding>
        ensures { IfSome result (λ f. IsFound self.now left.now goals.now f.now) }
    {
        let number = *self.found.get(&key_of(left, goals))?;
        let finding = self.entries.get(number as usize)?;
        if same_set(&finding.left, left) && same_sets(finding.goals.as_slice(), goals) {
            Some(finding)
        } else {
            None
        }
    }

    /// Remembers an inclusion that the certificate with this number shows, and that took so many steps.
    fn note(
        &mut self,
        alloc: Global,
        left: &Lsta,
        goals: &[Lsta],
        number: usize,
        price: u64,
    ) -> Result<(), AllocError>
        ensures { OnOk result ((f : Finding) × (self.new.entries ≡ self.old.entries ++ f ∷ [])
            × IsSameSet left.now f.left × AreSameSets goals.now f.goals × (f.cert ≡ number) × (f.price ≡ price)) }
    {
        let (Ok(cert), Ok(place)) = (u32::try_from(number), u32::try_from(self.entries.len()))
        else {
            return Err(AllocError);
        };
        let finding = Finding {
            left: copy_of(alloc, left)?,
            goals: copy_all(alloc, goals)?,
            cert,
            price,
        };
        self.entries.push(finding)?;
        self.found.insert(key_of(left, goals), place)?;
        Ok(())
    }
}

/// The certificate with this number once more, for so many steps.
fn recall(
    alloc: Global,
    certs: &Items<Cert>,
    number: u32,
    price: u64,
    steps: &mut Steps,
) -> Result<Answer, Stop<Amp>>
    requires { number < length certs.now }
    ensures answer { IfOk result (λ a. (cert : Cert) × (slice_get certs.now number ≡ Some cert)
        × (a ≡ answer.Included cert)) }
    ensures paid { OnOk result (steps.new ≡ after price steps.old) }
    ensures wide { IfErr result IsNotWide }
    ensures takes { Takes price steps.old steps.new }
    ensures spent { IfErr result (λ e. IsCause price steps.old e) }
{
    let Ok(()) = steps.take_all(price) else {
        return Err(Stop::Spent);
    };
    let Ok(cert) = certs.as_slice()[number as usize].copied(alloc) else {
        return Err(Stop::Memory);
    };
    Ok(Answer::Included(cert))
}

/// As `include`, but the search isn't made where the automaton and goals had a certificate before: that one is copied,
/// and the steps that it took are taken again. `certs` are the certificates so far; one that is new is noted as the
/// next of them.
pub(crate) fn include_once(
    alloc: Global,
    store: &Store<Amp>,
    known: &mut Findings,
    certs: &Items<Cert>,
    left: &Lsta,
    goals: &[Lsta],
    steps: &mut Steps,
) -> Result<Answer, Stop<Amp>>
    requires fits { FitTogether store.now left.now goals.now }
    requires few { length goals.now < 2 ^ 32 }
    requires known { AreCertified store.now certs.now known.old }
    ensures answer { IfOk result (λ a. Answers alone store.now left.now goals.now a) }
    ensures known { IfOk result (λ a. AreCertifiedAfter store.now certs.now known.new a) }
    ensures size { IfOk result (λ a. IsPaid goals.now steps.old steps.new a) }
    ensures wide { IfErr result (λ e. StopsFor alone store.now left.now goals.now e) }
    ensures takes { Takes (search_budget left.now goals.now) steps.old steps.new }
    ensures spent { IfErr result (λ e. IsCause (search_budget left.now goals.now) steps.old e) }
{
    if let Some(finding) = known.find(left, goals) {
        return recall(alloc, certs, finding.cert, finding.price, steps);
    }
    let before = steps.taken();
    let answer = include(store, alloc, left, goals, steps)?;
    if let Answer::Included(_) = &answer {
        let price = steps.taken() - before;
        let Ok(()) = known.note(alloc, left, goals, certs.len(), price) else {
            return Err(Stop::Memory);
        };
    }
    Ok(answer)
}
