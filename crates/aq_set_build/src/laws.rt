//! The laws of automata of expressions, each the contract of a function that does nothing: to call it is to cite it.
ghost use Rattle.aq_set_build.specs.Laws.{WordLaws, KindLaws};

/// Each vector that an expression of a valid set file lists has a word of the expression's shape that leads to it.
pub fn words()
    ensures words { WordLaws }
{}

/// The automaton of a bracket, a basis, a tensor product or a power lists the vectors of the expression of that kind, and
/// all its products fit; and a product that is too wide is one of those that the expression takes.
pub fn kinds()
    ensures kinds { KindLaws }
{}
