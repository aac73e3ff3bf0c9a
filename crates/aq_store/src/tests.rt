//! The worked row of the table, and a small automaton that was drawn and walked by hand.
ghost use Rattle.std.specs.Prelude.{◌≤◌, IfOk};
ghost use Rattle.aq_store.specs.Nodes.{total_cost, FitsStore};

use crate::{Id, Lsta, Pairs, Steps, Stop, Store};
use aq_ring::Amp;
use std::alloc::Global;
use std::test::Fail;

#[test]
fn equal_nodes_have_one_id(rt: HostRuntime) -> Result<(), Fail> {
    let mut store = Store::<Amp>::new(rt.alloc());
    let mut steps = Steps::new(3);
    let one = store.leaf(Amp::one(), &mut steps)?;
    let zero = store.leaf(Amp::zero(), &mut steps)?;
    assert_ne!(rt; one, zero);
    assert_eq!(rt; store.leaf(Amp::one(), &mut steps)?, one);
    assert_eq!(rt; steps.taken(), 2);
    let node = store.node([(one, zero)].as_slice(), &mut steps)?;
    assert_eq!(rt; steps.taken(), 3);
    assert_eq!(rt; store.node([(one, zero)].as_slice(), &mut steps)?, node);
    assert_eq!(rt; steps.taken(), 3);
    Ok(())
}

#[test]
fn a_node_beyond_the_limit_is_spent(rt: HostRuntime) -> Result<(), Fail> {
    let mut store = Store::<Amp>::new(rt.alloc());
    let mut steps = Steps::new(2);
    let one = store.leaf(Amp::one(), &mut steps)?;
    let zero = store.leaf(Amp::zero(), &mut steps)?;
    let refused = store.node([(one, zero)].as_slice(), &mut steps);
    assert!(rt; matches!(refused, Err(Stop::Spent)));
    assert_eq!(rt; steps.taken(), 2);
    assert_eq!(rt; store.leaf(Amp::one(), &mut steps)?, one);
    Ok(())
}

#[test]
fn equal_neighbours_are_one_run(rt: HostRuntime) -> Result<(), Fail> {
    let (first, second) = (Id { place: 5 }, Id { place: 7 });
    let mut pairs = Pairs::new(rt.alloc());
    pairs.push((first, second), 1)?;
    pairs.push((first, second), 1)?;
    pairs.push((first, first), 1)?;
    assert_eq!(rt; pairs.len(), 3);
    assert_eq!(rt; pairs.run_count(), 2);
    assert_eq!(rt; pairs.from(0), ((first, second), 2));
    assert_eq!(rt; pairs.from(1), ((first, second), 1));
    assert_eq!(rt; pairs.at(2), (first, first));
    Ok(())
}

/// A small automaton, and its nodes below the root.
#[derive(Drop)]
struct Drawn {
    lsta: Lsta,
    upper: Id,
    lower: Id,
    zero: Id,
    one: Id,
}

/// Three choices at the root, of which the first two are equal, and below it two nodes that share a leaf.
fn shared(store: &mut Store<Amp>, alloc: Global, steps: &mut Steps) -> Result<Drawn, Stop<Amp>>
    requires { total_cost store.old ≤ steps.old.taken }
    ensures { IfOk result (λ made. FitsStore store.new made.lsta) }
{
    let one = store.leaf(Amp::one(), steps)?;
    let zero = store.leaf(Amp::zero(), steps)?;
    let lower = store.node([(one, zero)].as_slice(), steps)?;
    let upper = store.node([(zero, zero)].as_slice(), steps)?;
    let root = store.node(
        [(upper, lower), (upper, lower), (lower, upper)].as_slice(),
        steps,
    )?;
    let Ok(shape) = Vec::from_slice(alloc, [3, 1].as_slice()) else {
        return Err(Stop::Memory);
    };
    let lsta = Lsta { root, shape };
    Ok(Drawn {
        lsta,
        upper,
        lower,
        zero,
        one,
    })
}

#[test]
fn walks_a_shared_automaton(rt: HostRuntime) -> Result<(), Fail> {
    let mut store = Store::<Amp>::new(rt.alloc());
    let mut steps = Steps::new(100);
    let Drawn {
        lsta,
        upper,
        lower,
        zero,
        one,
    } = shared(&mut store, rt.alloc(), &mut steps)?;
    assert_eq!(rt; steps.taken(), 7);
    let levels = store.levels(&lsta)?;
    assert_eq!(rt; levels.len(), 3);
    assert_eq!(rt; levels[0].as_slice(), [lsta.root].as_slice());
    assert_eq!(rt; levels[1].as_slice(), [upper, lower].as_slice());
    assert_eq!(rt; levels[2].as_slice(), [zero, one].as_slice());
    Ok(())
}

#[test]
fn a_store_knows_which_nodes_are_zero(rt: HostRuntime) -> Result<(), Fail> {
    let mut store = Store::<Amp>::new(rt.alloc());
    let mut steps = Steps::new(100);
    let Drawn {
        lsta,
        upper,
        lower,
        zero,
        one,
    } = shared(&mut store, rt.alloc(), &mut steps)?;
    assert!(rt; store.is_zero(zero) && store.is_zero(upper));
    assert!(rt; store.is_never_zero(one) && store.is_never_zero(lower));
    assert!(rt; store.is_never_zero(lsta.root) && !store.is_zero(lsta.root));
    assert!(rt; !store.is_zero(one) && !store.is_never_zero(zero));
    Ok(())
}
