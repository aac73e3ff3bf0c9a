//! Whether there are loops or other cuts among statements.
ghost use Rattle.std.specs.Prelude.{◌≡◌, ◌||◌};
ghost use Rattle.std.specs.List.{list_any};
ghost use Rattle.aq_prog.specs.Cuts.{has_cut, has_loop};

use crate::stmt::Stmt;

fn either(left: bool, right: bool) -> bool
    ensures { result ≡ (left || right) }
{
    left || right
}

#[cycle(looping)]
fn is_looping(stmt: &Stmt) -> bool
    ensures { result ≡ has_loop stmt.now }
{
    match stmt {
        Stmt::If { yes, no, .. } => either(has_loop(yes.as_slice()), has_loop(no.as_slice())),
        Stmt::While { .. } => true,
        Stmt::Gate(_)
        | Stmt::Measure { .. }
        | Stmt::Reset { .. }
        | Stmt::Assert { .. }
        | Stmt::Assume { .. } => false,
    }
}

/// Whether there is a loop among the statements, at any depth.
#[cycle(looping)]
pub fn has_loop(body: &[Stmt]) -> bool
    ensures { result ≡ list_any has_loop body.now }
{
    for stmt in body {
        if is_looping(stmt) {
            return true;
        }
    }
    false
}

#[cycle(cutting)]
fn is_cut(stmt: &Stmt) -> bool
    ensures { result ≡ has_cut stmt.now }
{
    match stmt {
        Stmt::If { yes, no, .. } => either(has_cut(yes.as_slice()), has_cut(no.as_slice())),
        Stmt::While { .. } | Stmt::Assert { .. } => true,
        Stmt::Gate(_) | Stmt::Measure { .. } | Stmt::Reset { .. } | Stmt::Assume { .. } => false,
    }
}

/// Whether there is an assertion or a loop among the statements, at any depth.
#[cycle(cutting)]
pub fn has_cut(body: &[Stmt]) -> bool
    ensures { result ≡ list_any has_cut body.now }
{
    for stmt in body {
        if is_cut(stmt) {
            return true;
        }
    }
    false
}
