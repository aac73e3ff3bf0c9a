ghost use Rattle.std.specs.Prelude.{◌≡◌, ◌≤◌, ◌+◌, ◌⊎◌, List, [], ℕ, Result, Ok, length, map};
ghost use Rattle.aq_set_parse.specs.Cuts.{Lexeme, Cut, Reads, tokens_of, texts_of, slice_of};
ghost use Rattle.aq_set_parse.specs.declared.token.SetToken.{SetToken};
ghost use Rattle.aq_set_parse.specs.declared.fault.SetLexFault.{SetLexFault};
ghost use Rattle.aq_set_parse.specs.declared.fault.SetLexFault.TheVariants as lexed;
ghost use Rattle.aq_set_parse.specs.Numbers.{HasFittingCoefs};
ghost use Rattle.aq_set_parse.specs.Piece.{SetPiece};
ghost use Rattle.aq_set_parse.specs.Pieces.{pieces};
ghost use Rattle.aq_set_parse.specs.SetGrammar.{IsFile};
ghost use Rattle.aq_set_parse.specs.Short.{IsShortTree};
ghost use Rattle.aq_set_parse.specs.Told.{FaultOf};
ghost use Rattle.aq_set_parse.specs.Verdict.{IsFault};
ghost use Rattle.aq_set_parse.specs.declared.reader.Fault.{Fault};
ghost use Rattle.aq_set_parse.specs.declared.tree.SetTree.{SetTree};

/// A set file has one cut, and so it says one thing. Each token's span has the bytes that were cut. Each text has tokens, or
/// a first fault of them that isn't want of memory.
pub fn set_cuts()
    ensures some { (before bytes : List ℕ) → (ls : List Lexeme) × Cut before bytes ls }
    ensures cut { (before bytes : List ℕ) (ls ms : List Lexeme) → Cut before bytes ls → Cut before bytes ms → ls ≡ ms }
    ensures reading { (source : List ℕ) (a b : Result (List SetToken) SetLexFault) → Reads source a → Reads source b
        → a ≡ b }
    ensures slices { (source : List ℕ) (ls : List Lexeme) (ts : List SetToken) → Cut [] source ls
        → tokens_of [] ls ≡ Ok ts → map (slice_of source) ts ≡ texts_of ls }
    ensures answer { (source : List ℕ) → ((ts : List SetToken) × Reads source (Ok ts)) ⊎ ((f : SetLexFault) ×
        FaultOf source f × (f ≡ lexed.Memory → ⊥)) }
{}

/// What holds of the grammar: each list of tokens has one tree or one first fault. It does nothing.
pub fn set_trees()
    // At most one tree, however deep its parentheses may nest.
    ensures tree { (d e : ℕ) (x y : SetTree) (ts : List SetPiece) → IsFile d x ts → IsFile e y ts → x ≡ y }
    // At most one first fault.
    ensures fault { (deep : ℕ) (ts r s : List SetPiece) (k l : Fault) → IsFault deep ts k r → IsFault deep ts l s →
        (k ≡ l) × (r ≡ s) }
    // One of them.
    ensures some { (deep : ℕ) (ts : List SetPiece) → ((tree : SetTree) × IsFile deep tree ts) ⊎ ((k : Fault) ×
        (rest : List SetPiece) × IsFault deep ts k rest) }
{}

/// What holds of the lengths of a set file: of its tokens and of the lists in its tree. It does nothing.
pub fn short_trees()
    // At most one token more than bytes, which is the end.
    ensures tokens { (text : List ℕ) (tokens : List SetToken) → Reads text (Ok tokens) → length tokens ≤ length text + 1 }
    // No claim has more cases than the text has bytes, and no case more conditions.
    ensures tree { (text : List ℕ) (tokens : List SetToken) (deep : ℕ) (tree : SetTree) → Reads text (Ok tokens)
        → IsFile deep tree (pieces (record { source = text; list = tokens })) → IsShortTree (length text) tree }
{}

/// What holds of the numbers of a set file's tree. It does nothing.
pub fn tree_numbers()
    // Each number of a coefficient is one of a token, or 1, and so at most 2^127 - 1.
    ensures { (text : List ℕ) (tokens : List SetToken) (deep : ℕ) (tree : SetTree) → Reads text (Ok tokens)
        → IsFile deep tree (pieces (record { source = text; list = tokens })) → HasFittingCoefs tree }
{}
