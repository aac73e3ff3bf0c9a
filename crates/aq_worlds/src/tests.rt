//! Worlds of small fragments, by hand.
ghost use Rattle.std.specs.Prelude.{IfOk};
ghost use Rattle.aq_prog.specs.Cuts.{AreUncut};
ghost use Rattle.aq_plain.specs.Replaying.{ArePlayable};
ghost use Rattle.aq_worlds.specs.Playing.{AreSized};

use crate::start::start;
use crate::{PlainWorld, Stop, play};
use aq_obligations::{BoundCase, Goal, Kind, Obligation};
use aq_plain::Vector;
use aq_prog::{Guard, Stmt};
use aq_ring::Amp;
use sqlite_items::Items;
use std::alloc::Global;
use std::test::Fail;

/// Does nothing in either branch on bit 0, and measures qubit 0.
fn branch_and_measurement(alloc: Global) -> Result<Items<Stmt>, Fail>
    ensures playable { IfOk result (ArePlayable 1 1) }
    ensures uncut { IfOk result AreUncut }
{
    let mut body = Items::new(alloc);
    body.push(Stmt::If {
        guard: Guard {
            bit: 0,
            value: true,
        },
        yes: Items::new(alloc),
        no: Items::new(alloc),
    })?;
    body.push(Stmt::Measure {
        qubit: 0,
        bit: None,
    })?;
    Ok(body)
}

/// One qubit in both basis states, and a bit whose value isn't known.
fn open_world(alloc: Global) -> Result<Vec<PlainWorld>, Fail>
    ensures { IfOk result (λ list. AreSized 1 1 list.items) }
{
    let mut vector = Vector::zero(alloc, 1)?;
    vector.set(0, Amp::one());
    vector.set(1, Amp::one());
    let mut vectors = Vec::new(alloc);
    vectors.push(vector)?;
    let mut list = Vec::new(alloc);
    list.push(PlainWorld {
        start: Items::from_slice(alloc, &[None])?,
        bits: Items::from_slice(alloc, &[None])?,
        outcomes: Items::new(alloc),
        vectors,
    })?;
    Ok(list)
}

/// Bit 0 at the start and the only outcome, if both are there.
fn told(worlds: &[PlainWorld], at: usize) -> Option<(bool, bool)> {
    let world = worlds.get(at)?;
    let bit = (*world.start.get(0)?)?;
    let outcome = world.outcomes.get(0)?;
    if world.outcomes.len() > 1 {
        return None;
    }
    Some((bit, *outcome))
}

#[test]
fn branch_on_an_open_bit(rt: HostRuntime) -> Result<(), Fail> {
    let worlds = open_world(rt.alloc())?;
    let body = branch_and_measurement(rt.alloc())?;
    let list = match play(rt.alloc(), worlds, body.as_slice()) {
        Ok(list) => list,
        Err(stop) => return Err(Fail::from(stop)),
    };
    assert_eq!(rt; list.len(), 4);
    assert_eq!(rt; told(list.as_slice(), 0), Some((false, false)));
    assert_eq!(rt; told(list.as_slice(), 1), Some((false, true)));
    assert_eq!(rt; told(list.as_slice(), 2), Some((true, false)));
    assert_eq!(rt; told(list.as_slice(), 3), Some((true, true)));
    Ok(())
}

#[test]
fn contradiction_at_the_start(rt: HostRuntime) -> Result<(), Fail> {
    let goal = Goal {
        kind: Kind::Post,
        line: 0,
        cases: Items::new(rt.alloc()),
    };
    let obligation = Obligation {
        start: true,
        from: Items::new(rt.alloc()),
        given: None,
        fragment: Items::new(rt.alloc()),
        goal,
    };
    let one = Guard {
        bit: 0,
        value: true,
    };
    let case = BoundCase {
        set: 0,
        when: Items::from_slice(rt.alloc(), &[one])?,
    };
    let worlds = start(rt.alloc(), 1, &obligation, &case, Vec::new(rt.alloc()))?;
    assert_eq!(rt; worlds.len(), 0);
    Ok(())
}
