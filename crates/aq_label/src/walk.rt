//! The walk over two lists of parts, from the first pair that isn't zero on.
ghost use Rattle.std.specs.Prelude.{◌≡◌, ◌≢◌, ◌+◌, ◌^◌, ◌<◌, ◌↔◌, List, [], ◌∷◌, ◌++◌, length, MatchResult, IfOk, None};
ghost use Rattle.aq_ring.specs.Fractions.{Amplitude};
ghost use Rattle.aq_ring.specs.Amplitudes.{amplitude_zero};
ghost use Rattle.aq_label.specs.Ratios.{lefts, rights, IsRatio};
ghost use Rattle.aq_label.specs.Walks.{IsWalked, WalksOver, IsComparison, IsStep, IsMismatchOf};

use crate::{Label, Ratio};
use aq_ring::Amp;

/// The first pair that isn't zero, and its position.
#[derive(Clone, Copy)]
pub(crate) struct Pivot {
    place: u128,
    left: Amp,
    right: Amp,
}

/// How a pair compares with the pivot's.
#[derive(Clone, Copy)]
enum Comparison {
    /// Both are zero, or the products with the pivot's pair are equal.
    Agreeing,
    /// Just one is zero, or the products differ.
    Differing,
    /// The product of these operands doesn't fit.
    Unfit { left: Amp, right: Amp },
}

/// How many pairs of parts were walked through, in agreement, and the pivot if it was met.
#[derive(Clone, Copy)]
pub(crate) struct Walk {
    position: u128,
    pivot: Option<Pivot>,
}

impl Pivot {
    /// Compares the pair with the pivot's.
    fn compare(&self, left: Amp, right: Amp) -> Comparison
        ensures { IsComparison self.now.left self.now.right left right result }
    {
        match (left.is_zero(), right.is_zero()) {
            (true, true) => Comparison::Agreeing,
            (false, false) => self.compare_products(left, right),
            _ => Comparison::Differing,
        }
    }

    /// Compares the pair, of which neither is zero, with the pivot's.
    fn compare_products(&self, left: Amp, right: Amp) -> Comparison
        requires left_nonzero { left ≢ amplitude_zero }
        requires right_nonzero { right ≢ amplitude_zero }
        ensures { IsComparison self.now.left self.now.right left right result }
    {
        let Some(first) = left.product(self.right) else {
            return Comparison::Unfit {
                left,
                right: self.right,
            };
        };
        let Some(second) = self.left.product(right) else {
            return Comparison::Unfit {
                left: self.left,
                right,
            };
        };
        if first == second {
            Comparison::Agreeing
        } else {
            Comparison::Differing
        }
    }
}

impl Walk {
    /// The walk's start, before any pair.
    fn new() -> Walk
        ensures { IsWalked [] [] result }
    {
        Walk {
            position: 0,
            pivot: None,
        }
    }

    /// One pair more. The error is the answer, which ends the walk.
    fn step(self, left: Amp, right: Amp) -> Result<Walk, Ratio>
        requires { self.position + 1 < 2 ^ 128 }
        ensures walked { (u v : List Amplitude) → IsWalked u v self → WalksOver (u ++ left ∷ [])
            (v ++ right ∷ []) result }
        ensures position { IfOk result (λ w. w.position ≡ self.position + 1) }
    {
        let met = self.pivot;
        match met {
            Some(pivot) => step_from(self.position, pivot, left, right),
            None => self.step_after_zeros(left, right),
        }
    }

    /// One pair more, where all pairs before were zero.
    fn step_after_zeros(self, left: Amp, right: Amp) -> Result<Walk, Ratio>
        requires room { self.position + 1 < 2 ^ 128 }
        requires zeros { self.pivot ≡ None }
        ensures walked { (u v : List Amplitude) → IsWalked u v self → WalksOver (u ++ left ∷ [])
            (v ++ right ∷ []) result }
        ensures position { IfOk result (λ w. w.position ≡ self.position + 1) }
    {
        if left.is_zero() && right.is_zero() {
            return Ok(Walk {
                position: self.position + 1,
                pivot: None,
            });
        }
        let pivot = Pivot {
            place: self.position,
            left,
            right,
        };
        step_from(self.position, pivot, left, right)
    }

    /// What the walk tells once it is at the end.
    pub(crate) fn ratio(self) -> Ratio
        ensures { (u v : List Amplitude) → IsWalked u v self → IsRatio u v result }
    {
        let met = self.pivot;
        match met {
            Some(pivot) => Ratio::Same { pivot: pivot.place },
            None => Ratio::AllZero,
        }
    }
}

/// One pair more, from the pivot on.
fn step_from(position: u128, pivot: Pivot, left: Amp, right: Amp) -> Result<Walk, Ratio>
    requires { position + 1 < 2 ^ 128 }
    ensures step { MatchResult result (IsStep position pivot left right) (IsMismatchOf position pivot left right) }
    ensures position { IfOk result (λ w. w.position ≡ position + 1) }
{
    let comparison = pivot.compare(left, right);
    match comparison {
        Comparison::Agreeing => Ok(Walk {
            position: position + 1,
            pivot: Some(pivot),
        }),
        Comparison::Differing => Err(Ratio::Different { place: position }),
        Comparison::Unfit {
            left: unfit_left,
            right: unfit_right,
        } => Err(Ratio::Wide {
            left: unfit_left,
            right: unfit_right,
        }),
    }
}

/// Walks over the parts, `count` of them, of one pair of values.
fn walk_parts<L: Label>(walk: Walk, count: u32, left: L, right: L) -> Result<Walk, Ratio>
    requires all { count ≡ L.part_count }
    requires room { walk.position + count < 2 ^ 128 }
    ensures walked { (u v : List Amplitude) → IsWalked u v walk → WalksOver (u ++ L.parts left)
        (v ++ L.parts right) result }
    ensures position { IfOk result (λ w. w.position ≡ walk.position + count) }
{
    let mut walk = walk;
    for i in 0..count {
        walk = walk.step(left.part(i), right.part(i))?;
    }
    Ok(walk)
}

/// Walks over the parts of all pairs of values.
pub(crate) fn walk_all<L: Label>(pairs: &[(L, L)]) -> Result<Walk, Ratio>
    ensures { WalksOver (lefts L.parts pairs.now) (rights L.parts pairs.now) result }
{
    let count = L::part_count();
    let mut walk = Walk::new();
    for (left, right) in pairs {
        walk = walk_parts(walk, count, *left, *right)?;
    }
    Ok(walk)
}

/// Walks over two lists of amplitudes.
pub(crate) fn walk_amps(left: &[Amp], right: &[Amp]) -> Result<Walk, Ratio>
    requires { length left.now ≡ length right.now }
    ensures { WalksOver left.now right.now result }
{
    let mut walk = Walk::new();
    for i in 0..left.len() {
        walk = walk.step(left[i], right[i])?;
    }
    Ok(walk)
}
