//! Where nodes stand in a level.
ghost use Rattle.std.specs.Prelude.{◌≡◌, Some, IfOk, nat_eq};
ghost use Rattle.indexmap.specs.IndexMap.{get};
ghost use Rattle.aq_store.specs.Levels.{lists_of};
ghost use Rattle.aq_cert.specs.Rows.{row_at};
ghost use Rattle.aq_cert.specs.Placed.{IsIndexOf, HasPlace};

use aq_store::Id;
use indexmap::IndexMap;
use std::alloc::{AllocError, Global};

/// The place of each node of a level.
#[derive(Drop)]
pub(crate) struct Index {
    at: IndexMap<u32, u32>,
}

impl Index {
    /// The index of a level.
    fn of(alloc: Global, level: &[Id]) -> Result<Index, AllocError>
        ensures { IfOk result (λ index. IsIndexOf level.now index) }
    {
        let mut at = IndexMap::new(alloc);
        for place in 0..level.len() {
            let Ok(short) = u32::try_from(place) else {
                return Err(AllocError);
            };
            at.insert(level[place].place(), short)?;
        }
        Ok(Index { at })
    }

    /// The index of one of some levels, which may not be there.
    pub(crate) fn of_level(
        alloc: Global,
        levels: &[Vec<Id>],
        level: usize,
    ) -> Result<Index, AllocError>
        ensures { IfOk result (λ index. IsIndexOf (row_at (lists_of levels.now) level) index) }
    {
        match levels.get(level) {
            Some(nodes) => Index::of(alloc, nodes.as_slice()),
            None => Index::of(alloc, &[]),
        }
    }

    /// The place of a node that is there.
    pub(crate) fn place_of(&self, node: u32) -> u32
        requires { HasPlace self.now node }
        ensures { get nat_eq self.now.at node ≡ Some result }
    {
        match self.at.get(&node) {
            Some(place) => *place,
            None => unreachable!(),
        }
    }
}
