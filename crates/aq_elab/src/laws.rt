ghost use Rattle.std.specs.Prelude.{◌≡◌, ◌⊎◌, ℕ, List, All, Ok};
ghost use Rattle.aq_parse.specs.declared.tree.Tree.{Tree};
ghost use Rattle.aq_prog.specs.Programs.{IsValidProgram, IsWritten};
ghost use Rattle.aq_prog.specs.declared.program.Program.{Program};
ghost use Rattle.aq_elab.specs.Elaborated.{elaborated};
ghost use Rattle.aq_elab.specs.ProgramFaults.{HasProgramFault, IsMemory};
ghost use Rattle.aq_elab.specs.Texts.{SaysProgram};
ghost use Rattle.aq_elab.specs.declared.program.ProgramFault.{ProgramFault};

/// What holds of the program that a tree means. It does nothing.
pub fn elaborations()
    // Its numbers are in range, and its registers are its bits.
    ensures valid { (tree : Tree) (p : Program) → elaborated tree ≡ Ok p → IsValidProgram p }
    // It has no assumptions.
    ensures written { (tree : Tree) (p : Program) → elaborated tree ≡ Ok p → All IsWritten p.body }
{}

/// A text says one thing: one program, or one first fault, which isn't want of memory. It does nothing.
pub fn program_texts()
    // At most one program.
    ensures one { (text : List ℕ) (p q : Program) → SaysProgram text p → SaysProgram text q → p ≡ q }
    // At most one first fault, but for want of memory.
    ensures fault { (text : List ℕ) (e f : ProgramFault) → HasProgramFault text e → HasProgramFault text f → (IsMemory e
        → ⊥) → (IsMemory f → ⊥) → e ≡ f }
    // Not both.
    ensures apart { (text : List ℕ) (p : Program) (f : ProgramFault) → SaysProgram text p → HasProgramFault text f →
        (IsMemory f → ⊥) → ⊥ }
    // One of them.
    ensures some { (text : List ℕ) → ((p : Program) × SaysProgram text p) ⊎ ((f : ProgramFault) ×
        HasProgramFault text f × (IsMemory f → ⊥)) }
    // The numbers of the program are in range.
    ensures valid { (text : List ℕ) (p : Program) → SaysProgram text p → IsValidProgram p }
{}
