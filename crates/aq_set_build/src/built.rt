//! Automata that are made, by their expressions.
ghost use Rattle.std.specs.Prelude.{◌≡◌, ℕ, None, Some, IfOk, IfErr, IfSome, IfNone, OnOk};
ghost use Rattle.aq_set_build.specs.Built.{built_at, IsCopy, Keeps};

use aq_ring::Amp;
use aq_store::{Lsta, Stop};
use indexmap::IndexMap;
use std::alloc::Global;

/// The automata of expressions that are made, by the numbers of the expressions: a memo that many calls may share.
#[derive(Drop)]
pub struct Built {
    made: IndexMap<u32, Lsta>,
}

/// The same automaton again.
fn copy_of(alloc: Global, lsta: &Lsta) -> Result<Lsta, Stop<Amp>>
    ensures copy { IfOk result (IsCopy lsta.now) }
    ensures memory { IfErr result (λ why. why ≡ Stop.Memory) }
{
    let Ok(shape) = lsta.shape.as_slice().to_vec(alloc) else {
        return Err(Stop::Memory);
    };
    Ok(Lsta {
        root: lsta.root,
        shape,
    })
}

impl Built {
    /// Nothing is made.
    pub fn new(alloc: Global) -> Built
        ensures { (q : ℕ) → built_at result q ≡ None }
    {
        Built {
            made: IndexMap::new(alloc),
        }
    }

    /// A copy of what was made of an expression, if it was.
    pub(crate) fn get(&self, alloc: Global, expr: u32) -> Result<Option<Lsta>, Stop<Amp>>
        ensures copy { IfOk result (λ found. IfSome found (λ copy.
            (lsta : _) × (built_at self.now expr ≡ Some lsta) × IsCopy lsta copy)) }
        ensures memory { IfErr result (λ why. why ≡ Stop.Memory) }
    {
        match self.made.get(&expr) {
            None => Ok(None),
            Some(lsta) => {
                let copy = copy_of(alloc, lsta)?;
                Ok(Some(copy))
            }
        }
    }

    /// Keeps a copy of what was made of an expression.
    pub(crate) fn put(&mut self, alloc: Global, expr: u32, made: &Lsta) -> Result<(), Stop<Amp>>
        ensures puts { OnOk result (Keeps (built_at self.old) (built_at self.new) expr made.now) }
        ensures memory { IfErr result (λ why. why ≡ Stop.Memory) }
    {
        let copy = copy_of(alloc, made)?;
        let Ok(_old) = self.made.insert(expr, copy) else {
            return Err(Stop::Memory);
        };
        Ok(())
    }
}
