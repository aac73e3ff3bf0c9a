//! The laws of exact amplitudes. Each is the contract of a function that does nothing: to call it is to cite it.
ghost use Rattle.aq_ring.specs.Laws.{
  RingLaws,
  NoZeroDivisors,
  NormLaws,
  OneLowestForm,
  StepLaws,
  ProportionalEquivalence,
  ProportionalKeeps,
  ScalarLaws,
};

/// The amplitudes are a commutative ring with no zero divisors, each number has one lowest form, and turns and
/// quotients by `sqrt(2)` are products.
pub fn ring()
    ensures ring { RingLaws }
    ensures no_zero_divisors { NoZeroDivisors }
    ensures absolute_squares { NormLaws }
    ensures one_lowest_form { OneLowestForm }
    ensures steps { StepLaws }
{}

/// To be proportional is an equivalence of vectors. A zero vector is proportional only to a zero vector. Scalars
/// pass through sums, turns and quotients, as they do through every linear map that is made of these.
pub fn proportional()
    ensures equivalence { ProportionalEquivalence }
    ensures keeps { ProportionalKeeps }
    ensures scalars { ScalarLaws }
{}
