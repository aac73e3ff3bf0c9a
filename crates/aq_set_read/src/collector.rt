//! What the items of a set file before a place have given.
ghost use Rattle.std.specs.Prelude.{◌≡◌, false, None, IfErr, OnOk};
ghost use Rattle.aq_set_read.specs.Gathered.{Gives, nothing_gathered, counted, named, with_name};
ghost use Rattle.aq_set_read.specs.Meaning.{node, step, name_made, naming, with_set, with_claim, sets_in};
ghost use Rattle.aq_set_read.specs.declared.set_fault.SetFault.TheVariants as faults;

use crate::made::Made;
use crate::set_fault::SetFault;
use aq_base::{MOST_NAMES, MOST_NODES};
use aq_lex::{Place, Text};
use aq_set_parse::SetWord;
use aq_sets::{Case, Expr, NamedClaim, NamedSet, Sets};
use indexmap::IndexMap;
use sqlite_items::Items;
use std::alloc::Global;
use std::marker::Model;

/// The expressions, the number of nodes, and the names of sets and claims with what a set stands for.
#[derive(Drop)]
pub(crate) struct Collector {
    exprs: Items<Expr>,
    nodes: u32,
    names: IndexMap<Text, Option<Made>>,
    sets: Items<NamedSet>,
    claims: Items<NamedClaim>,
}

impl Model for Collector {
    ghost use Rattle.aq_set_read.specs.Gathered.{Gathered};
    ghost use Rattle.aq_set_read.specs.Bounds.{IsWithin};

    ghost Value = { Gathered };

    ghost view = { λ g. record {
      exprs = g.exprs;
      nodes = g.nodes;
      names = g.names.entries;
      sets = g.sets;
      claims =
          g.claims;
    } };

    ghost invariant = { λ g. IsWithin g.exprs g.nodes };
}

impl Collector {
    /// Nothing is there.
    pub(crate) fn new(alloc: Global) -> Collector
        ensures { result ≡ nothing_gathered }
    {
        Collector {
            exprs: Items::new(alloc),
            nodes: 0,
            names: IndexMap::new(alloc),
            sets: Items::new(alloc),
            claims: Items::new(alloc),
        }
    }

    /// Counts a node. The fault is at this place.
    pub(crate) fn count(&mut self, at: Place) -> Result<(), SetFault>
        ensures meaning { Gives (λ u. self.new) result (counted at self.old) }
        ensures names { self.new.names ≡ self.old.names }
    {
        if self.nodes >= MOST_NODES {
            return Err(SetFault::TooManyNodes { at });
        }
        self.nodes += 1;
        Ok(())
    }

    /// Puts an expression behind the others and counts it. The fault is at this place.
    pub(crate) fn node(&mut self, at: Place, expr: Expr, qubits: u32) -> Result<Made, SetFault>
        ensures meaning { Gives (λ m. step self.new m) result (node at false expr qubits self.old) }
        ensures names { self.new.names ≡ self.old.names }
    {
        if self.nodes >= MOST_NODES {
            return Err(SetFault::TooManyNodes { at });
        }
        let place = self.exprs.len() as u32;
        self.exprs.push(expr)?;
        self.nodes += 1;
        Ok(Made {
            expr: place,
            qubits,
        })
    }

    /// What a name has: a set the expression that it stands for, and a claim nothing.
    fn named(&self, name: &Text) -> Option<Option<Made>>
        ensures { result ≡ named self.now.names name.now }
    {
        self.names.get(name).copied()
    }

    /// What an earlier set stands for.
    #[tactic(auto, unfolding(crate::specs::Meaning::name_made))]
    pub(crate) fn name_made(&self, name: &SetWord) -> Result<Made, SetFault>
        ensures { Gives (λ m. step self.now m) result (name_made name.now self.now) }
    {
        match self.named(&name.text) {
            Some(Some(made)) => Ok(made),
            _ => Err(SetFault::UnknownSet { at: name.at }),
        }
    }

    /// Whether there is room for a name that no item has.
    #[tactic(auto, unfolding(crate::specs::Meaning::naming))]
    pub(crate) fn naming(&self, name: &SetWord) -> Result<(), SetFault>
        ensures naming { Gives (λ u. u) result (naming name.now self.now) }
        ensures absent { OnOk result (named self.now.names name.now.text ≡ None) }
    {
        if self.names.len() >= MOST_NAMES {
            return Err(SetFault::TooManyNames { at: name.at });
        }
        if self.named(&name.text).is_some() {
            return Err(SetFault::TwiceNamed { at: name.at });
        }
        Ok(())
    }

    /// Adds a name that isn't there. The only fault is want of memory.
    fn add_name(&mut self, alloc: Global, name: &Text, made: Option<Made>) -> Result<(), SetFault>
        requires { named self.old.names name.now ≡ None }
        ensures added { OnOk result (self.new ≡ with_name name.now made self.old) }
        ensures memory { IfErr result (λ e. e ≡ faults.Memory) }
    {
        let key = Text::from_slice(alloc, name.as_slice())?;
        let Ok(_) = self.names.insert(key, made) else {
            return Err(SetFault::Memory);
        };
        Ok(())
    }

    /// Adds a set whose name isn't there. The only fault is want of memory.
    pub(crate) fn add_set(&mut self, alloc: Global, name: &Text, made: Made) -> Result<(), SetFault>
        requires { named self.old.names name.now ≡ None }
        ensures added { OnOk result (self.new ≡ with_set name.now (step self.old made)) }
        ensures memory { IfErr result (λ e. e ≡ faults.Memory) }
    {
        self.add_name(alloc, name, Some(made))?;
        let name = Text::from_slice(alloc, name.as_slice())?;
        self.sets.push(NamedSet {
            name,
            expr: made.expr,
        })?;
        Ok(())
    }

    /// Adds a claim whose name isn't there. The only fault is want of memory.
    pub(crate) fn add_claim(
        &mut self,
        alloc: Global,
        name: &Text,
        cases: Items<Case>,
    ) -> Result<(), SetFault>
        requires { named self.old.names name.now ≡ None }
        ensures added { OnOk result (self.new ≡ with_claim name.now cases self.old) }
        ensures memory { IfErr result (λ e. e ≡ faults.Memory) }
    {
        self.add_name(alloc, name, None)?;
        let name = Text::from_slice(alloc, name.as_slice())?;
        self.claims.push(NamedClaim { name, cases })?;
        Ok(())
    }

    /// What the file says.
    pub(crate) fn into_sets(self) -> Sets
        ensures { result ≡ sets_in self }
    {
        let Collector {
            exprs,
            nodes: _,
            names: _,
            sets,
            claims,
        } = self;
        Sets {
            exprs,
            sets,
            claims,
        }
    }
}
