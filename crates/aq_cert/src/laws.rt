//! The law of certificates, the contract of a function that does nothing: to call it is to cite it.
ghost use Rattle.aq_cert.specs.Laws.{ValidIsIncluded};

use aq_label::Label;

/// Where a certificate is valid, each nonzero vector of the left is proportional to a vector of a goal.
pub fn valid_is_included<L: Label>()
    ensures { ValidIsIncluded L.parts }
{}
