//! What a statement is to the obligations of a program.
ghost use Rattle.std.specs.Prelude.{◌≡◌, ◌<◌, ◌+◌, ◌||◌, ◌∷◌, [], drop, Some, length, slice_get};
ghost use Rattle.aq_prog.specs.declared.stmt.Stmt.{Stmt as StmtValue};
ghost use Rattle.aq_owing.specs.Making.{IsPart};

use aq_prog::{Guard, Stmt, has_cut};

/// What a statement is to the obligations of a program.
#[derive(Clone, Copy)]
pub(crate) enum Part<'a> {
    /// It has no cut: it goes to the end of the fragment.
    Plain,
    /// An assertion.
    Assertion {
        claim: u32,
        line: u32,
    },
    /// A loop.
    Loop {
        guard: Guard,
        claim: u32,
        body: &'a [Stmt],
        line: u32,
    },
    /// A branch with a cut inside.
    Branch {
        guard: Guard,
        yes: &'a [Stmt],
        no: &'a [Stmt],
    },
}

fn either(left: bool, right: bool) -> bool
    ensures { result ≡ (left || right) }
{
    left || right
}

/// What the statement is.
pub(crate) fn part_of<'a>(stmt: &'a Stmt) -> Part<'a>
    ensures { IsPart stmt.entry.now result }
{
    match stmt {
        Stmt::If { guard, yes, no } => {
            let inside = either(has_cut(yes.as_slice()), has_cut(no.as_slice()));
            if inside {
                Part::Branch {
                    guard: *guard,
                    yes: yes.as_slice(),
                    no: no.as_slice(),
                }
            } else {
                Part::Plain
            }
        }
        Stmt::While {
            guard,
            claim,
            body,
            line,
        } => Part::Loop {
            guard: *guard,
            claim: *claim,
            body: body.as_slice(),
            line: *line,
        },
        Stmt::Assert { claim, line } => Part::Assertion {
            claim: *claim,
            line: *line,
        },
        Stmt::Gate(_) | Stmt::Measure { .. } | Stmt::Reset { .. } | Stmt::Assume { .. } => {
            Part::Plain
        }
    }
}

/// The statement at the position, alone.
pub(crate) fn alone<'a>(body: &'a [Stmt], index: usize) -> &'a [Stmt]
    requires { index < length body.now }
    ensures { (s : StmtValue) → slice_get body.entry.now index ≡ Some s → result.now ≡ s ∷ [] }
{
    &body[index..index + 1]
}

/// The statements behind the position.
pub(crate) fn behind<'a>(body: &'a [Stmt], index: usize) -> &'a [Stmt]
    requires { index < length body.now }
    ensures { result.now ≡ drop (index + 1) body.entry.now }
{
    &body[index + 1..]
}
