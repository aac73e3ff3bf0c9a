//! Gates and statements once more.
ghost use Rattle.std.specs.Prelude.{◌≡◌, IfOk};

use crate::gate::Gate;
use crate::stmt::Stmt;
use sqlite_items::Items;
use std::alloc::{AllocError, Global};

impl Gate {
    /// The same gate once more. Fails only for want of memory.
    pub fn copy(&self, alloc: Global) -> Result<Gate, AllocError>
        ensures { IfOk result (λ gate. gate ≡ self.now) }
    {
        let controls = Items::from_slice(alloc, self.controls.as_slice())?;
        Ok(Gate {
            controls,
            target: self.target,
            matrix: self.matrix,
        })
    }
}

/// The same statement once more, with all that is inside.
#[cycle(copies)]
fn copy_stmt(alloc: Global, stmt: &Stmt) -> Result<Stmt, AllocError>
    ensures { IfOk result (λ s. s ≡ stmt.now) }
{
    match stmt {
        Stmt::Gate(gate) => Ok(Stmt::Gate(gate.copy(alloc)?)),
        Stmt::Measure { qubit, bit } => Ok(Stmt::Measure {
            qubit: *qubit,
            bit: *bit,
        }),
        Stmt::Reset { qubit } => Ok(Stmt::Reset { qubit: *qubit }),
        Stmt::If { guard, yes, no } => Ok(Stmt::If {
            guard: *guard,
            yes: copy_body(alloc, yes.as_slice())?,
            no: copy_body(alloc, no.as_slice())?,
        }),
        Stmt::While {
            guard,
            claim,
            body,
            line,
        } => Ok(Stmt::While {
            guard: *guard,
            claim: *claim,
            body: copy_body(alloc, body.as_slice())?,
            line: *line,
        }),
        Stmt::Assert { claim, line } => Ok(Stmt::Assert {
            claim: *claim,
            line: *line,
        }),
        Stmt::Assume { guard } => Ok(Stmt::Assume { guard: *guard }),
    }
}

/// The same statements once more. Fails only for want of memory.
#[cycle(copies)]
pub fn copy_body(alloc: Global, body: &[Stmt]) -> Result<Items<Stmt>, AllocError>
    ensures { IfOk result (λ list. list ≡ body.now) }
{
    let mut list = Items::new(alloc);
    for stmt in body {
        list.push(copy_stmt(alloc, stmt)?)?;
    }
    Ok(list)
}
