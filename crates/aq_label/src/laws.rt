//! The laws of labels, each the contract of a function that does nothing: to call it is to cite it.
ghost use Rattle.aq_label.specs.Laws.{ModuleLaws, PartStepLaws, OneRatio};

/// Labels are a module over the amplitudes, in which turns and quotients by `sqrt(2)` are linear. The laws speak of
/// lists of parts, so they hold of every label.
pub fn labels()
    ensures labels { ModuleLaws }
    ensures steps { PartStepLaws }
{}

/// Two lists of one length have just one ratio.
pub fn one_ratio()
    ensures { OneRatio }
{}
