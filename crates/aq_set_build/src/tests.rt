//! Small automata, whose vectors were worked by hand.
ghost use Rattle.std.specs.Prelude.{◌≡◌, if◌then◌else◌};
ghost use Rattle.aq_store.specs.Nodes.{FitsStore};

use crate::{all, kets, power, tensor};
use aq_ring::Amp;
use aq_sets::Term;
use aq_store::{Id, Lsta, Steps, Store};
use std::test::Fail;

fn side(pair: (Id, Id), high: bool) -> Id
    ensures { result ≡ (if high then pair.1 else pair.0) }
{
    let (left, right) = pair;
    if high { right } else { left }
}

/// The entry of a word's vector at the position with these digits. None where the word is none of the shape.
fn entry(store: &Store<Amp>, lsta: &Lsta, word: &[u32], digits: &[bool]) -> Option<Amp>
    requires { FitsStore store.now lsta.now }
{
    let levels = lsta.shape.len();
    if word.len() != levels || digits.len() != levels {
        return None;
    }
    let mut id = lsta.root;
    for level in 0..levels {
        if word[level] >= store.choices(id) {
            return None;
        }
        id = side(store.pair(id, word[level]), digits[level]);
    }
    Some(store.label(id))
}

#[test]
fn basis_of_two(rt: HostRuntime) -> Result<(), Fail> {
    let mut store = Store::new(rt.alloc());
    let mut steps = Steps::new(100);
    let made = all(rt.alloc(), &mut store, 2, &mut steps)?;
    assert_eq!(rt; made.shape.as_slice(), [2, 2].as_slice());
    assert_eq!(rt; steps.taken(), 8);
    for word in 0..4u32 {
        for index in 0..4u32 {
            let choices = [word / 2, word % 2];
            let digits = [index / 2 == 1, index % 2 == 1];
            let wanted = if word == index {
                Amp::one()
            } else {
                Amp::zero()
            };
            assert_eq!(rt;
                entry(&store, &made, &choices, &digits),
                Some(wanted),
                "{word} {index}"
            );
        }
    }
    Ok(())
}

#[test]
fn products(rt: HostRuntime) -> Result<(), Fail> {
    let mut store = Store::new(rt.alloc());
    let mut steps = Steps::new(1_000);
    let two = Amp::from_parts([2, 0, 0, 0], 0).ok_or("2")?;
    let terms = [
        Term {
            index: 1,
            amp: Amp::one(),
        },
        Term { index: 0, amp: two },
    ];
    let pair = kets(rt.alloc(), &mut store, 1, &terms, &mut steps)?;
    let left = kets(rt.alloc(), &mut store, 40, &terms, &mut steps)?;
    assert!(rt; steps.taken() < 200);
    let one_two = tensor(rt.alloc(), &mut store, &left, &pair, &mut steps)?;
    assert_eq!(rt; one_two.shape.len(), 41);
    let cube = power(rt.alloc(), &mut store, &pair, 3, &mut steps)?;
    let low = entry(&store, &cube, &[0, 0, 0], &[false, true, false]);
    assert_eq!(rt; low, Amp::from_parts([4, 0, 0, 0], 0));
    Ok(())
}
