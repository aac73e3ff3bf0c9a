//! The same certificate once more.
ghost use Rattle.std.specs.Prelude.{◌≡◌, IfOk};

use crate::cert::{Cert, Edge, Macro, Rel};
use sqlite_items::Items;
use std::alloc::{AllocError, Global};

/// What can be had once more.
trait Copied {
    /// The same once more. Fails only for want of memory.
    fn copied(&self, alloc: Global) -> Result<Self, AllocError>
        ensures { IfOk result (λ copy. copy ≡ self.now) };
}

impl<T: Copied + Drop> Copied for Items<T> {
    fn copied(&self, alloc: Global) -> Result<Items<T>, AllocError>
        ensures { IfOk result (λ copy. copy ≡ self.now) }
    {
        let mut list = Items::new(alloc);
        for item in self.as_slice() {
            list.push(item.copied(alloc)?)?;
        }
        Ok(list)
    }
}

impl Copied for Rel {
    fn copied(&self, alloc: Global) -> Result<Rel, AllocError>
        ensures { IfOk result (λ copy. copy ≡ self.now) }
    {
        let pairs = Items::from_slice(alloc, self.pairs.as_slice())?;
        Ok(Rel {
            goal: self.goal,
            pairs,
        })
    }
}

impl Copied for Macro {
    fn copied(&self, alloc: Global) -> Result<Macro, AllocError>
        ensures { IfOk result (λ copy. copy ≡ self.now) }
    {
        let domain = Items::from_slice(alloc, self.domain.as_slice())?;
        let rels = self.rels.copied(alloc)?;
        Ok(Macro { domain, rels })
    }
}

impl Copied for Edge {
    fn copied(&self, alloc: Global) -> Result<Edge, AllocError>
        ensures { IfOk result (λ copy. copy ≡ self.now) }
    {
        let from = Items::from_slice(alloc, self.from.as_slice())?;
        Ok(Edge { to: self.to, from })
    }
}

impl Cert {
    /// The same certificate once more. Fails only for want of memory.
    pub fn copied(&self, alloc: Global) -> Result<Cert, AllocError>
        ensures { IfOk result (λ copy. copy ≡ self.now) }
    {
        let macros = self.macros.copied(alloc)?;
        let edges = self.edges.copied(alloc)?;
        let ends = Items::from_slice(alloc, self.ends.as_slice())?;
        Ok(Cert {
            macros,
            edges,
            ends,
        })
    }
}
