ghost use Rattle.std.specs.Prelude.{◌≡◌, ◌<◌, ◌^◌, ◌⊎◌, List, ℕ, Ok, length};
ghost use Rattle.aq_set_parse.specs.Short.{IsShortTree};
ghost use Rattle.aq_set_parse.specs.declared.tree.SetTree.{SetTree};
ghost use Rattle.aq_set_read.specs.Meaning.{sets_of};
ghost use Rattle.aq_set_read.specs.Direct.{sets_meant, claims_meant};
ghost use Rattle.aq_set_read.specs.Standing.{sets_at, claims_at, MeansSets};
ghost use Rattle.aq_set_read.specs.Texts.{SaysSets, SetFaultOf};
ghost use Rattle.aq_sets.specs.Valid.{IsValidSets};
ghost use Rattle.aq_sets.specs.declared.sets.Sets.{Sets};
ghost use Rattle.aq_set_read.specs.declared.set_fault.SetFault.{SetFault};
ghost use Rattle.aq_set_read.specs.declared.set_fault.SetFault.TheVariants as faults;

/// What holds of the text of a set file: it says one thing, or has one first fault, which isn't want of memory. It does
/// nothing.
pub fn set_files()
    // At most one list of sets and claims.
    ensures sets { (text : List ℕ) (a b : Sets) → SaysSets text a → SaysSets text b → a ≡ b }
    // At most one first fault, but for want of memory.
    ensures fault { (text : List ℕ) (e f : SetFault) → SetFaultOf text e → SetFaultOf text f → (e ≡ faults.Memory
        → ⊥) → (f ≡ faults.Memory → ⊥) → e ≡ f }
    // Not both.
    ensures apart { (text : List ℕ) (sets : Sets) (f : SetFault) → SaysSets text sets → SetFaultOf text f →
        (f ≡ faults.Memory → ⊥) → ⊥ }
    // One of them.
    ensures some { (text : List ℕ) → ((sets : Sets) × SaysSets text sets) ⊎ ((f : SetFault) × SetFaultOf text f ×
        (f ≡ faults.Memory → ⊥)) }
    // What it says is valid, as is what any tree means. That no list is long takes a text, or a tree, that isn't.
    ensures valid { (text : List ℕ) (sets : Sets) → length text < 2 ^ 32 → SaysSets text sets → IsValidSets sets }
    ensures meaning { (n : ℕ) (tree : SetTree) (sets : Sets) → n < 2 ^ 32 → IsShortTree n tree → sets_of tree ≡ Ok sets
        → IsValidSets sets }
{}

/// The vectors at the positions of a file's sets and cases are what its tree means directly. It does nothing.
pub fn set_meaning()
    // The sets, in order: each name with its vectors and their number of qubits.
    ensures sets { (tree : SetTree) (sets : Sets) → sets_of tree ≡ Ok sets →
        sets_at sets ≡ sets_meant tree.items }
    // The claims, in order: each name with its cases, of each its conditions, vectors and number of qubits.
    ensures claims { (tree : SetTree) (sets : Sets) → sets_of tree ≡ Ok sets →
        claims_at sets ≡ claims_meant tree.items }
    // Both for the sets and claims that a text says.
    ensures texts { (text : List ℕ) (sets : Sets) → SaysSets text sets → MeansSets text sets }
{}
