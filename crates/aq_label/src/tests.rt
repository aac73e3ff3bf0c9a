//! Ratios calculated by hand, and labels of two parts.
ghost use Rattle.std.specs.Prelude.{[], ◌∷◌};
ghost use Rattle.std.proofs.Common.{rules};

use crate::{Label, Ratio, ratio_of};
use aq_ring::Amp;
use std::test::Fail;

/// A label of two parts.
#[derive(Clone, Copy, Debug, PartialEq, Eq, Hash)]
struct Two {
    first: Amp,
    second: Amp,
}

impl Label for Two {
    ghost use Rattle.std.specs.Prelude.{slice_index_or};
    ghost use Rattle.std.proofs.Common.{ap};
    ghost use Rattle.std.proofs.lemmas.Bool.Decides.{Decides-and, Decides-like};
    ghost use Rattle.aq_ring.specs.Amplitudes.{amplitude_zero};
    ghost use Rattle.aq_ring.proofs.EqualLaws.{equal-amplitudes};
    ghost use Rattle.aq_label.specs.declared.tests.Two.{Two};

    ghost parts = { λ x. x.first ∷ x.second ∷ [] };

    ghost part_count = { 2 };

    ghost all_parts = { Prim.search rules };

    ghost same_parts = { λ x y e i. record {
      first = ap (λ l. slice_index_or l 0 amplitude_zero) e i;
      second = ap
          (λ l. slice_index_or l 1 amplitude_zero) e i;
    } };

    ghost equal_is_same = { λ x y. Decides-like _ (λ h i. record { first = h.0 i; second = h.1 i }) (λ e. (
      ap (λ
          (p : Two). p.first) e,
      ap (λ (p : Two). p.second) e,
    )) (Decides-and _ _ (equal-amplitudes x.first y.first)
        (equal-amplitudes x.second y.second)) };

    fn zero() -> Two {
        Two {
            first: Amp::zero(),
            second: Amp::zero(),
        }
    }

    fn is_zero(self) -> bool {
        self.first.is_zero() && self.second.is_zero()
    }

    fn turn(self, j: u8) -> Two {
        Two {
            first: self.first.turn(j),
            second: self.second.turn(j),
        }
    }

    fn sum(self, other: Two) -> Option<Two> {
        Some(Two {
            first: self.first.sum(other.first)?,
            second: self.second.sum(other.second)?,
        })
    }

    fn over_root(self) -> Option<Two> {
        Some(Two {
            first: self.first.over_root()?,
            second: self.second.over_root()?,
        })
    }

    fn times(self, factor: Amp) -> Option<Two> {
        Some(Two {
            first: factor.product(self.first)?,
            second: factor.product(self.second)?,
        })
    }

    fn part_count() -> u32 {
        2
    }

    fn part(self, i: u32) -> Amp {
        if i == 0 { self.first } else { self.second }
    }
}

/// The difference of two values, by the trait alone.
fn difference<L: Label>(left: L, right: L) -> Option<L> {
    left.sum(right.turn(4))
}

/// The greatest coefficient, `2^127 - 1`.
const GREATEST: i128 = i128::MAX;

fn whole(number: i128) -> Result<Amp, Fail> {
    Ok(Amp::from_parts([number, 0, 0, 0], 0).ok_or("out of range")?)
}

#[test]
fn ratios_of_amplitudes(rt: HostRuntime) -> Result<(), Fail> {
    let (zero, one) = (Amp::zero(), Amp::one());
    let w = one.turn(1);
    let by_w = [(one, w), (zero, zero), (w, w.turn(1))];
    assert_eq!(rt; ratio_of(&by_w), Ratio::Same { pivot: 0 });
    let signs = [(zero, zero), (one, one), (one, one.turn(4))];
    assert_eq!(rt; ratio_of(&signs), Ratio::Different { place: 2 });
    let late = [(zero, zero), (whole(2)?, whole(3)?), (whole(4)?, whole(6)?)];
    assert_eq!(rt; ratio_of(&late), Ratio::Same { pivot: 1 });
    let one_zero = [(zero, zero), (one, one), (zero, zero), (zero, w)];
    assert_eq!(rt; ratio_of(&one_zero), Ratio::Different { place: 3 });
    let nothing: [(Amp, Amp); 0] = [];
    assert_eq!(rt; ratio_of(&nothing), Ratio::AllZero);
    assert_eq!(rt; ratio_of(&[(zero, zero)]), Ratio::AllZero);
    Ok(())
}

#[test]
fn wide_ratios(rt: HostRuntime) -> Result<(), Fail> {
    let (one, two, three) = (Amp::one(), whole(2)?, whole(3)?);
    let greatest = whole(GREATEST)?;
    let first = [(one, greatest), (two, three)];
    assert_eq!(rt;
        ratio_of(&first),
        Ratio::Wide {
            left: two,
            right: greatest,
        }
    );
    let second = [(greatest, one), (two, three)];
    assert_eq!(rt;
        ratio_of(&second),
        Ratio::Wide {
            left: greatest,
            right: three,
        }
    );
    let own = [(greatest, greatest)];
    assert_eq!(rt;
        ratio_of(&own),
        Ratio::Wide {
            left: greatest,
            right: greatest,
        }
    );
    let before = [(one, greatest), (one, one), (two, three)];
    assert_eq!(rt; ratio_of(&before), Ratio::Different { place: 1 });
    Ok(())
}

#[test]
fn labels_of_two_parts(rt: HostRuntime) -> Result<(), Fail> {
    let (zero, one) = (Amp::zero(), Amp::one());
    let w = one.turn(1);
    let left = Two {
        first: zero,
        second: one,
    };
    let right = Two {
        first: zero,
        second: w,
    };
    let last = Two {
        first: one,
        second: w,
    };
    let pairs = [(left, right), (last, last.turn(1))];
    assert_eq!(rt; ratio_of(&pairs), Ratio::Same { pivot: 1 });
    assert_eq!(rt;
        ratio_of(&[(left, right), (last, last)]),
        Ratio::Different { place: 2 }
    );
    assert_eq!(rt;
        difference(last, right).ok_or("sum")?,
        Two {
            first: one,
            second: zero,
        }
    );
    assert_eq!(rt; difference(w, w).ok_or("sum")?, zero);
    let half = whole(2)?.over_root().ok_or("quotient")?;
    assert_eq!(rt;
        left.over_root()
            .ok_or("quotient")?
            .times(half)
            .ok_or("product")?,
        left
    );
    assert!(rt; !left.is_zero());
    assert!(rt; Two::zero().is_zero());
    assert_eq!(rt; Two::part_count(), 2);
    assert_eq!(rt; last.part(1), w);
    assert_eq!(rt; <Amp as Label>::part_count(), 1);
    assert_eq!(rt; w.part(0), w);
    Ok(())
}
