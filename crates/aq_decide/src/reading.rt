//! The vector of a word.
ghost use Rattle.std.specs.Prelude.{◌≡◌, ◌++◌, IfOk, OnOk};
ghost use Rattle.aq_store.specs.Nodes.{FitsStore, tree, vector_of};
ghost use Rattle.aq_store.specs.Words.{IsWord};
ghost use Rattle.aq_decide.specs.Reading.{Reads};

use aq_ring::Amp;
use aq_store::{Id, Lsta, Store};
use std::alloc::{AllocError, Global};

/// Appends the entries to which the word leads from a place.
fn add_entries(
    store: &Store<Amp>,
    id: Id,
    word: &[u32],
    entries: &mut Vec<Amp>,
) -> Result<(), AllocError>
    requires { Reads store.now word.now id }
    ensures { OnOk result (entries.new.items ≡ entries.old.items ++ tree store.now word.now id) }
{
    let Some((choice, rest)) = word.split_first() else {
        entries.push(store.label(id))?;
        return Ok(());
    };
    let (left, right) = store.pair(id, *choice);
    add_entries(store, left, rest, entries)?;
    add_entries(store, right, rest, entries)?;
    Ok(())
}

/// The vector of the word in the automaton. Fails only for want of memory.
pub(crate) fn vector_of(
    alloc: Global,
    store: &Store<Amp>,
    lsta: &Lsta,
    word: &[u32],
) -> Result<Vec<Amp>, AllocError>
    requires fits { FitsStore store.now lsta.now }
    requires word { IsWord lsta.now.shape.items word.now }
    ensures { IfOk result (λ entries. entries.items ≡ vector_of store.now lsta.now word.now) }
{
    let mut entries = Vec::new(alloc);
    add_entries(store, lsta.root, word, &mut entries)?;
    Ok(entries)
}
