//! The place from which a fragment starts.
ghost use Rattle.std.specs.Prelude.{◌≡◌, [], ◌++◌, ◌∷◌, IfOk, OnOk};
ghost use Rattle.aq_obligations.specs.Owing.{fresh, further, opposite, owed, claim_at};
ghost use Rattle.aq_owing.specs.Made.{made};
ghost use Rattle.aq_owing.specs.Making.{here_of};

use aq_obligations::{BoundCase, Goal, Kind, Obligation};
use aq_prog::{Guard, Stmt, copy_body};
use sqlite_items::Items;
use std::alloc::{AllocError, Global};

/// From where a fragment starts, and its statements so far.
#[derive(Drop)]
pub(crate) struct FragmentStart {
    /// The program's start, where every bit is 0.
    pub(crate) start: bool,
    pub(crate) from: Items<BoundCase>,
    /// What is known of a bit besides.
    pub(crate) given: Option<Guard>,
    pub(crate) fragment: Items<Stmt>,
}

fn copy_case(alloc: Global, case: &BoundCase) -> Result<BoundCase, AllocError>
    ensures { IfOk result (λ c. c ≡ case.now) }
{
    let when = Items::from_slice(alloc, case.when.as_slice())?;
    Ok(BoundCase {
        set: case.set,
        when,
    })
}

/// The same cases once more.
pub(crate) fn copy_cases(alloc: Global, cases: &[BoundCase]) -> Result<Items<BoundCase>, AllocError>
    ensures { IfOk result (λ list. list ≡ cases.now) }
{
    let mut list = Items::new(alloc);
    for case in cases {
        list.push(copy_case(alloc, case)?)?;
    }
    Ok(list)
}

/// The cases of the claim with this number.
pub(crate) fn claim_at<'a>(claims: &'a [Items<BoundCase>], number: u32) -> &'a [BoundCase]
    ensures { result.now ≡ claim_at claims.entry.now number }
{
    match claims.get(number as usize) {
        Some(cases) => cases.as_slice(),
        None => &[],
    }
}

/// The guard for the bit's other value.
pub(crate) fn opposite(guard: Guard) -> Guard
    ensures { result ≡ opposite guard }
{
    Guard {
        bit: guard.bit,
        value: !guard.value,
    }
}

/// A claim of which nothing else is known, but perhaps a bit.
pub(crate) fn fresh(
    alloc: Global,
    claim: &[BoundCase],
    given: Option<Guard>,
) -> Result<FragmentStart, AllocError>
    ensures { IfOk result (λ h. here_of h ≡ fresh claim.now given) }
{
    Ok(FragmentStart {
        start: false,
        from: copy_cases(alloc, claim)?,
        given,
        fragment: Items::new(alloc),
    })
}

impl FragmentStart {
    /// The same place once more.
    pub(crate) fn copy(&self, alloc: Global) -> Result<FragmentStart, AllocError>
        ensures { IfOk result (λ h. here_of h ≡ here_of self.now) }
    {
        Ok(FragmentStart {
            start: self.start,
            from: copy_cases(alloc, self.from.as_slice())?,
            given: self.given,
            fragment: copy_body(alloc, self.fragment.as_slice())?,
        })
    }

    /// With one statement more.
    pub(crate) fn further(self, stmt: Stmt) -> Result<FragmentStart, AllocError>
        ensures { IfOk result (λ h. here_of h ≡ further stmt (here_of self)) }
    {
        let FragmentStart {
            start,
            from,
            given,
            fragment,
        } = self;
        let mut fragment = fragment;
        fragment.push(stmt)?;
        Ok(FragmentStart {
            start,
            from,
            given,
            fragment,
        })
    }

    /// What is owed from here to a claim, behind what is owed already.
    pub(crate) fn owe(
        self,
        alloc: Global,
        kind: Kind,
        line: u32,
        claim: &[BoundCase],
        list: &mut Items<Obligation>,
    ) -> Result<(), AllocError>
        ensures { OnOk result (list.new ≡ list.old ++ made (owed kind line claim.now (here_of self)) ∷ []) }
    {
        let FragmentStart {
            start,
            from,
            given,
            fragment,
        } = self;
        let cases = copy_cases(alloc, claim)?;
        list.push(Obligation {
            start,
            from,
            given,
            fragment,
            goal: Goal { kind, line, cases },
        })?;
        Ok(())
    }
}
