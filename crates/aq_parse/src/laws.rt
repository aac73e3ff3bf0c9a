ghost use Rattle.std.specs.Prelude.{◌≡◌, ◌⊎◌, ℕ, List};
ghost use Rattle.aq_parse.specs.Piece.{Piece};
ghost use Rattle.aq_parse.specs.Grammar.{IsProgram};
ghost use Rattle.aq_parse.specs.Verdict.{IsFault};
ghost use Rattle.aq_parse.specs.declared.reader.Fault.{Fault};
ghost use Rattle.aq_parse.specs.declared.tree.Tree.{Tree};

/// What holds of the grammar: each list of tokens has one tree or one first fault. It does nothing.
pub fn programs()
    // At most one tree, however deep its bodies may nest.
    ensures tree { (d e : ℕ) (x y : Tree) (ts : List Piece) → IsProgram d x ts → IsProgram e y ts → x ≡ y }
    // At most one first fault.
    ensures fault { (deep : ℕ) (ts r s : List Piece) (k l : Fault) → IsFault deep ts k r → IsFault deep ts l s →
        (k ≡ l) × (r ≡ s) }
    // One of them.
    ensures some { (deep : ℕ) (ts : List Piece) → ((tree : Tree) × IsProgram deep tree ts) ⊎ ((k : Fault) ×
        (rest : List Piece) × IsFault deep ts k rest) }
{}
