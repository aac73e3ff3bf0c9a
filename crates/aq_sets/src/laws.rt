//! The laws of the sizes of expressions, each the contract of a function that does nothing: to call it is to cite it.
ghost use Rattle.aq_sets.specs.Laws.{VectorLaws, ToldLaws};

/// An expression of a valid set file lists as many vectors as its size says, each with an amplitude for each index, and
/// at most as many as its shape has words.
pub fn expressions()
    ensures vectors { VectorLaws }
{}

/// At each position the size of the expression is told, and its words are the exact ones, up to the same limit.
pub fn told_sizes()
    ensures told { ToldLaws }
{}
