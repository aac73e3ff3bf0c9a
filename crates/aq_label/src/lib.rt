//! Labels: values of one or more exact amplitudes, and when two lists of them are proportional.
#![tactic(auto)]

ghost use Rattle.std.specs.Prelude.{◌≡◌, ◌<◌, ◌↔◌, IsTrue, List, [], ◌∷◌, ℕ, length, slice_get, Some};
ghost use Rattle.std.proofs.Common.{rules};
ghost use Rattle.aq_ring.specs.Fractions.{Amplitude};
ghost use Rattle.aq_ring.specs.Vectors.{IsZeroVector, scaled, Proportional};
ghost use Rattle.aq_label.specs.Parts.{sums, turns, quotients, FitsSums, FitsScaled, FitsQuotients, SomePartsIff};
ghost use Rattle.aq_label.specs.Ratios.{lefts, rights, IsRatio, IsSame, IsDifferent, IsProportionalAndFits};

pub mod laws;
#[cfg(test)]
mod tests;
mod walk;

use aq_ring::Amp;
use std::hash::Hash;
use walk::{walk_all, walk_amps};

/// A value that is a list of amplitudes, its parts. Each operation acts on each part as the amplitudes' does, and a
/// value is known by its parts. `laws::labels` has the laws of these operations.
pub trait Label: Copy + Eq + Hash {
    /// The parts of a value.
    ghost parts: { Self → List Amplitude };

    /// How many parts each value has.
    ghost part_count: { ℕ };

    /// The value whose every part is zero.
    fn zero() -> Self
        ensures { IsZeroVector (parts result) };

    /// Whether every part is zero.
    fn is_zero(self) -> bool
        ensures { IsTrue result ↔ IsZeroVector (parts self) };

    /// Each part times `w^j`, for a `j` below 8.
    fn turn(self, j: u8) -> Self
        requires { j < 8 }
        ensures { parts result ≡ turns j (parts self) };

    /// The sum, part by part. None exactly where a part's sum doesn't fit.
    fn sum(self, other: Self) -> Option<Self>
        ensures { SomePartsIff parts result (FitsSums (parts self) (parts other)) (sums (parts self) (parts other)) };

    /// Each part over `sqrt(2)`. None exactly where a part's quotient doesn't fit.
    fn over_root(self) -> Option<Self>
        ensures { SomePartsIff parts result (FitsQuotients (parts self)) (quotients (parts self)) };

    /// The factor times each part. None exactly where a product doesn't fit, with the factor as its left operand.
    fn times(self, factor: Amp) -> Option<Self>
        ensures { SomePartsIff parts result (FitsScaled factor (parts self)) (scaled factor (parts self)) };

    /// How many parts each value has.
    fn part_count() -> u32
        ensures { result ≡ part_count };

    /// The part at a place below the count.
    fn part(self, i: u32) -> Amp
        requires { i < part_count }
        ensures { slice_get (parts self) i ≡ Some result };

    /// Each value has as many parts.
    ghost all_parts: { (x : Self) → length (parts x) ≡ part_count };

    /// Values with equal parts are equal.
    ghost same_parts: { (x y : Self) → parts x ≡ parts y → x ≡ y };

    /// `==` tells whether two values are the same.
    ghost equal_is_same: { (x y : Self) → IsTrue (Self.eq x y) ↔ (x ≡ y) };
}

/// An amplitude is its own only part.
impl Label for Amp {
    ghost use Rattle.aq_ring.proofs.EqualLaws.{equal-amplitudes};
    ghost use Rattle.aq_label.specs.Single.{same_single};

    ghost parts = { λ p. p ∷ [] };

    ghost part_count = { 1 };

    ghost all_parts = { Prim.search rules };

    ghost same_parts = { same_single };

    ghost equal_is_same = { equal-amplitudes };

    fn zero() -> Amp {
        Amp::zero()
    }

    fn is_zero(self) -> bool {
        self.is_zero()
    }

    fn turn(self, j: u8) -> Amp {
        self.turn(j)
    }

    fn sum(self, other: Amp) -> Option<Amp> {
        self.sum(other)
    }

    fn over_root(self) -> Option<Amp> {
        self.over_root()
    }

    fn times(self, factor: Amp) -> Option<Amp> {
        factor.product(self)
    }

    fn part_count() -> u32 {
        1
    }

    fn part(self, _i: u32) -> Amp {
        self
    }
}

/// What a comparison of two lists of parts tells.
#[derive(Clone, Copy, Debug, PartialEq, Eq)]
pub enum Ratio {
    /// All parts of both lists are zero.
    AllZero,
    /// The lists are not proportional.
    Different {
        /// The first position that shows it.
        place: u128,
    },
    /// A product that tells whether the lists are proportional doesn't fit.
    Wide {
        /// Its left operand.
        left: Amp,
        /// Its right operand.
        right: Amp,
    },
    /// The lists are proportional, and not all parts are zero.
    Same {
        /// The first position at which not both lists are zero.
        pivot: u128,
    },
}

/// Whether the left values of the pairs are proportional to the right ones, all by one factor. The pairs are read as
/// one list of pairs of parts, part by part, and positions count these.
///
/// The pivot `p` is the first position where not both parts are zero. From it on, position `i` agrees where both
/// parts are zero, or neither is and `left[i] * right[p]` and `left[p] * right[i]` are equal. The first position that
/// doesn't agree gives the answer: Different where just one part is zero or both products fit and differ, Wide with
/// the operands of the first of the two products that doesn't fit.
pub fn ratio_of<L: Label>(pairs: &[(L, L)]) -> Ratio
    ensures answer { IsRatio (lefts L.parts pairs.now) (rights L.parts pairs.now) result }
    ensures same { IsSame result → Proportional (lefts L.parts pairs.now) (rights L.parts pairs.now) }
    ensures different { IsDifferent result → ¬ (Proportional (lefts L.parts pairs.now) (rights L.parts pairs.now)) }
    // Same comes exactly where the lists are proportional and not both zero, and each product fits.
    ensures exact { IsSame result ↔ IsProportionalAndFits (lefts L.parts pairs.now) (rights L.parts pairs.now) }
{
    match walk_all(pairs) {
        Ok(walk) => walk.ratio(),
        Err(mismatch) => mismatch,
    }
}

/// The same of two lists of amplitudes, which are as long as each other. It stops at the first position that doesn't
/// agree.
pub fn ratio_of_amps(left: &[Amp], right: &[Amp]) -> Ratio
    requires { length left.now ≡ length right.now }
    ensures answer { IsRatio left.now right.now result }
    ensures same { IsSame result → Proportional left.now right.now }
    ensures different { IsDifferent result → ¬ (Proportional left.now right.now) }
{
    match walk_amps(left, right) {
        Ok(walk) => walk.ratio(),
        Err(mismatch) => mismatch,
    }
}
