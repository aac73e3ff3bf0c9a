ghost use Rattle.std.specs.Prelude.{◌≡◌, ◌∷◌, ◌++◌, List, Option, None, Bool, true, Result, Ok, Err};
ghost use Rattle.aq_grammar.specs.Words.{first};
ghost use Rattle.aq_grammar.specs.Readers.{Reader, both};
ghost use Rattle.aq_grammar.specs.Laws.{Reads, Told, ToldIn, BothIn, Both, IsFirst};

/// The main laws of readers, at languages that are given by tests. It does nothing.
pub fn readers<T, F, A, B>()
    // A list stands for one value at most.
    ensures one { (p : Reader T F A) (l : A → List T → Option T → Bool) (h : A → List T → Bool) → Reads p (ToldIn l)
        (Told h) → (x y : A) (front : List T) → l x front None ≡ true → l y front None ≡ true → x ≡ y }
    // A reader stops at the first token that no text of the language has there.
    ensures first_fault { (p : Reader T F A) (l : A → List T → Option T → Bool) (h : A → List T → Bool) → Reads p
        (ToldIn l) (Told h) → (ts rest : List T) (k : F) → p ts ≡ Err (k, rest) → IsFirst (ToldIn l)
        (Told h) k ts rest }
    // A reader after another reads the one language and then the other.
    ensures both { (p : Reader T F A) (q : Reader T F B) (l : A → List T → Option T → Bool) (m : B → List T
        → Option T → Bool) (h : A → List T → Bool) (k : B → List T → Bool) → Reads p (ToldIn l) (Told h) → Reads q
        (ToldIn m) (Told k) → Reads (both p q) (BothIn (ToldIn l) (ToldIn m)) (Both (Told h) (Told k)) }
{}
