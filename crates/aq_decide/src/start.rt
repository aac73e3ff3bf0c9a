//! The world of a case at the start.
ghost use Rattle.std.specs.Prelude.{◌≡◌, ◌<◌, ◌++◌, IfOk, OnSome, [], length, slice_get};
ghost use Rattle.aq_obligations.specs.Worlds.{fixing, fixing_as, given_guards};
ghost use Rattle.aq_decide.specs.Starting.{bits_before};
ghost use Rattle.aq_symbolic.specs.Steps.{IsSameSet};
ghost use Rattle.aq_decide.specs.Starting.{Begins, BeginsIf};

use aq_obligations::{BoundCase, Obligation};
use aq_prog::Guard;
use aq_store::Lsta;
use aq_symbolic::World;
use sqlite_items::Items;
use std::alloc::{AllocError, Global};

/// The bits before any condition: 0 at the program's start, and unknown elsewhere.
fn first_bits(alloc: Global, start: bool, bits: u32) -> Result<Items<Option<bool>>, AllocError>
    ensures { IfOk result (λ list. list ≡ bits_before start bits) }
{
    if start {
        let zeros = Vec::from_elem(alloc, Some(false), bits as usize)?;
        return Ok(Items::from_vec(zeros));
    }
    let open = Vec::from_elem(alloc, None, bits as usize)?;
    Ok(Items::from_vec(open))
}

/// What is known of the bit, if it is there.
fn known(bits: &[Option<bool>], bit: u32) -> Option<Option<bool>>
    ensures value { result ≡ slice_get bits.now bit }
    ensures within { OnSome result (bit < length bits.now) }
{
    match bits.get(bit as usize) {
        Some(value) => Some(*value),
        None => None,
    }
}

/// The bits with the guard's known, or nothing where it is known to have the other value or isn't there.
fn fix(bits: Items<Option<bool>>, guard: &Guard) -> Option<Items<Option<bool>>>
    ensures { result ≡ fixing_as (slice_get bits guard.now.bit) guard.now bits }
{
    let value = known(bits.as_slice(), guard.bit);
    match value {
        Some(None) => {
            let mut fixed = bits;
            fixed.set(guard.bit as usize, Some(guard.value));
            Some(fixed)
        }
        Some(Some(bit)) => { if bit == guard.value { Some(bits) } else { None } }
        None => None,
    }
}

/// The bits with those of the guards known, or nothing where the guards contradict each other or the bits.
fn fix_all(bits: Items<Option<bool>>, guards: &[Guard]) -> Option<Items<Option<bool>>>
    ensures { result ≡ fixing guards.now bits }
{
    let mut left = bits;
    for guard in guards {
        left = fix(left, guard)?;
    }
    Some(left)
}

/// The bits with those of the conditions and of what is given known, if nothing contradicts.
fn fix_both(
    bits: Items<Option<bool>>,
    when: &[Guard],
    given: &Option<Guard>,
) -> Option<Items<Option<bool>>>
    ensures { result ≡ fixing (when.now ++ given_guards given.now) bits }
{
    let left = fix_all(bits, when)?;
    match given {
        Some(guard) => fix(left, guard),
        None => Some(left),
    }
}

/// The same automaton once more.
pub(crate) fn copy_of(alloc: Global, lsta: &Lsta) -> Result<Lsta, AllocError>
    ensures { IfOk result (IsSameSet lsta.now) }
{
    let shape = lsta.shape.as_slice().to_vec(alloc)?;
    Ok(Lsta {
        root: lsta.root,
        shape,
    })
}

/// The world of the case with this number that has these bits from the beginning.
fn begin(
    alloc: Global,
    number: u32,
    start: Items<Option<bool>>,
    lsta: &Lsta,
) -> Result<World, AllocError>
    ensures { IfOk result (Begins number lsta.now start) }
{
    let bits = Items::from_slice(alloc, start.as_slice())?;
    let lsta = copy_of(alloc, lsta)?;
    Ok(World {
        case: number,
        start,
        bits,
        outcomes: Items::new(alloc),
        lsta,
    })
}

/// The world with these bits, if there are any.
fn begin_all(
    alloc: Global,
    number: u32,
    known: Option<Items<Option<bool>>>,
    lsta: &Lsta,
) -> Result<Vec<World>, AllocError>
    ensures { IfOk result (λ list. BeginsIf number lsta.now known list.items) }
{
    let mut list = Vec::new(alloc);
    let Some(bits) = known else {
        return Ok(list);
    };
    let world = begin(alloc, number, bits, lsta)?;
    list.push(world)?;
    Ok(list)
}

/// The case's world at the start, if its conditions, what is given and the start don't contradict each other. `bits` is
/// the program's number of bits, `number` is that of the case, and `lsta` its automaton. Fails only for want of memory.
pub(crate) fn start(
    alloc: Global,
    bits: u32,
    obligation: &Obligation,
    case: &BoundCase,
    number: u32,
    lsta: &Lsta,
) -> Result<Vec<World>, AllocError>
    ensures { let guards = case.now.when ++ given_guards obligation.now.given in
        let fixed = fixing guards (bits_before obligation.now.start bits) in
        IfOk result (λ list. BeginsIf number lsta.now fixed list.items) }
{
    let first = first_bits(alloc, obligation.start, bits)?;
    let known = fix_both(first, case.when.as_slice(), &obligation.given);
    let list = begin_all(alloc, number, known, lsta)?;
    Ok(list)
}
