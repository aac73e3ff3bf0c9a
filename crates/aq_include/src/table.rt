//! The macros that were found good, level by level.
ghost use Rattle.std.specs.Prelude.{◌≡◌, ◌<◌, ◌≤◌, ◌+◌, ◌*◌, ◌++◌, ◌∷◌, [], ℕ, List, length, IfOk, OnOk, IfSome};
ghost use Rattle.std.specs.Prelude.{IsTrue, Some};
ghost use Rattle.aq_cert.specs.Rows.{item_at};
ghost use Rattle.aq_include.specs.Tables.{IsPushed};
ghost use Rattle.aq_include.specs.Answers.{IsFresh};

use crate::places::{same_pairs, same_places};
use aq_cert::{Cert, Edge, End, Macro, Rel};
use indexmap::IndexMap;
use sqlite_items::Items;
use std::alloc::{AllocError, Global};

/// The good macros of each level, each with an edge for each choice, the ends of the last level's, and where a macro
/// with given content may stand.
#[derive(Drop)]
pub(crate) struct Table {
    pub(crate) macros: Vec<Items<Macro>>,
    pub(crate) edges: Vec<Items<Items<Edge>>>,
    pub(crate) ends: Items<End>,
    found: IndexMap<u64, u32>,
}

/// Puts an item at the end of a row, and tells its number.
fn push_at<T: Drop>(rows: &mut Vec<Items<T>>, level: usize, item: T) -> Result<usize, AllocError>
    requires { level < length rows.old.items }
    ensures { IfOk result (λ number. IsPushed level item number rows.old.items rows.new.items) }
{
    let number = rows[level].len();
    rows[level].push(item)?;
    Ok(number)
}

/// Whether two relations are the same.
fn same_rel(one: &Rel, other: &Rel) -> bool
    ensures { IsTrue result → one.now ≡ other.now }
{
    one.goal == other.goal && same_pairs(one.pairs.as_slice(), other.pairs.as_slice())
}

/// Whether two macros are the same.
fn same(one: &Macro, other: &Macro) -> bool
    ensures { IsTrue result → one.now ≡ other.now }
{
    if !same_places(one.domain.as_slice(), other.domain.as_slice())
        || one.rels.len() != other.rels.len()
    {
        return false;
    }
    let rels = one.rels.as_slice();
    let others = other.rels.as_slice();
    for i in 0..rels.len() {
        if !same_rel(&rels[i], &others[i]) {
            return false;
        }
    }
    true
}

impl Table {
    /// The number of the macro, if it is there. The key only tells where to look.
    pub(crate) fn find(&self, level: usize, key: u64, here: &Macro) -> Option<u32>
        ensures { IfSome result (λ i. item_at self.now.macros.items level i ≡ Some here.now) }
    {
        let number = *self.found.get(&key)?;
        let other = self.macros.get(level)?.get(number as usize)?;
        if same(other, here) {
            Some(number)
        } else {
            None
        }
    }
}

impl Table {
    /// A table without macros, for so many levels of choices.
    pub(crate) fn new(alloc: Global, levels: usize) -> Result<Table, AllocError>
        ensures { IfOk result (λ t. IsFresh levels t) }
    {
        let mut macros = Vec::new(alloc);
        let mut edges = Vec::new(alloc);
        for _level in 0..levels {
            macros.push(Items::new(alloc))?;
            edges.push(Items::new(alloc))?;
        }
        macros.push(Items::new(alloc))?;
        Ok(Table {
            macros,
            edges,
            ends: Items::new(alloc),
            found: IndexMap::new(alloc),
        })
    }

    /// The certificate with these macros, and the table's edges and ends.
    pub(crate) fn into_cert(self, places: Items<Items<Macro>>) -> Cert
        ensures macros { result.macros ≡ places }
        ensures edges { result.edges ≡ self.edges.items }
        ensures ends { result.ends ≡ self.ends }
    {
        let Table {
            macros: _,
            edges,
            ends,
            found: _,
        } = self;
        Cert {
            macros: places,
            edges: Items::from_vec(edges),
            ends,
        }
    }

    /// Remembers where a macro with this content stands.
    fn remember(&mut self, key: u64, number: usize) -> Result<u32, AllocError>
        ensures macros { self.new.macros ≡ self.old.macros }
        ensures edges { self.new.edges ≡ self.old.edges }
        ensures ends { self.new.ends ≡ self.old.ends }
        ensures number { IfOk result (λ i. i ≡ number) }
    {
        let Ok(short) = u32::try_from(number) else {
            return Err(AllocError);
        };
        self.found.insert(key, short)?;
        Ok(short)
    }

    /// Puts a good macro of an inner level into the table.
    pub(crate) fn add(
        &mut self,
        level: usize,
        key: u64,
        here: Macro,
        edges: Items<Edge>,
    ) -> Result<u32, AllocError>
        requires macros { level < length self.old.macros.items }
        requires edges { level < length self.old.edges.items }
        ensures macros { IfOk result (λ i. IsPushed level here i self.old.macros.items self.new.macros.items) }
        ensures edges { OnOk result ((i : ℕ) × IsPushed level edges i self.old.edges.items self.new.edges.items) }
        ensures ends { self.new.ends ≡ self.old.ends }
    {
        let _place = push_at(&mut self.edges, level, edges)?;
        let number = push_at(&mut self.macros, level, here)?;
        self.remember(key, number)
    }

    /// Puts a good macro of the last level into the table.
    pub(crate) fn add_last(
        &mut self,
        level: usize,
        key: u64,
        here: Macro,
        end: End,
    ) -> Result<u32, AllocError>
        requires { level < length self.old.macros.items }
        ensures macros { IfOk result (λ i. IsPushed level here i self.old.macros.items self.new.macros.items) }
        ensures edges { self.new.edges ≡ self.old.edges }
        ensures ends { OnOk result (self.new.ends ≡ self.old.ends ++ end ∷ []) }
    {
        self.ends.push(end)?;
        let number = push_at(&mut self.macros, level, here)?;
        self.remember(key, number)
    }
}
