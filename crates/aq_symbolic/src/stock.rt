//! The memos of statements, for the worlds that come to them later.
ghost use Rattle.std.specs.Prelude.{◌≡◌, [], length, IfOk, IfSome, IsTrue, OnOk};
ghost use Rattle.aq_symbolic.specs.Memos.{ArePut, IsPlaced, IsTaken};

use crate::memos::Memos;
use aq_prog::{Entry, Gate, Stmt};
use indexmap::IndexMap;
use std::alloc::{AllocError, Global};
use std::mem;

/// What a statement has made of nodes of automata with so many levels.
#[derive(Drop)]
pub(crate) struct StmtMemos {
    pub(crate) stmt: Stmt,
    pub(crate) levels: usize,
    pub(crate) memos: Memos,
}

/// The memos of statements, and where those of a statement with given content may stand.
#[derive(Drop)]
pub(crate) struct Stock {
    pub(crate) entries: Vec<StmtMemos>,
    found: IndexMap<u64, usize>,
}

fn mix(key: u64, next: u32) -> u64 {
    (key ^ next as u64)
        .wrapping_mul(0x9E37_79B9_7F4A_7C15)
        .rotate_left(29)
}

fn mix_entry(key: u64, entry: Entry) -> u64 {
    match entry {
        Entry::Zero => mix(key, 1),
        Entry::Unit { turn, roots } => mix(mix(key, turn as u32), roots as u32),
    }
}

fn key_of_gate(gate: &Gate) -> u64 {
    let rows = gate.matrix.rows;
    let first = mix_entry(mix_entry(mix(3, gate.target), rows[0][0]), rows[0][1]);
    let mut key = mix_entry(mix_entry(first, rows[1][0]), rows[1][1]);
    for control in gate.controls.as_slice() {
        key = mix(key, *control);
    }
    key
}

/// A number for what a statement does to nodes, by which it is found again.
fn key_of(stmt: &Stmt) -> u64 {
    match stmt {
        Stmt::Gate(gate) => key_of_gate(gate),
        Stmt::Measure { qubit, bit } => mix(mix(mix(1, 1), *qubit), bit.unwrap_or(u32::MAX)),
        Stmt::Reset { qubit } => mix(mix(1, 2), *qubit),
        _ => 0,
    }
}

fn same_entry(one: &Entry, other: &Entry) -> bool
    ensures { IsTrue result → one.now ≡ other.now }
{
    one == other
}

fn same_row(one: &[Entry], other: &[Entry]) -> bool
    ensures { IsTrue result → one.now ≡ other.now }
{
    if one.len() != other.len() {
        return false;
    }
    for i in 0..one.len() {
        if !same_entry(&one[i], &other[i]) {
            return false;
        }
    }
    true
}

fn same_rows(one: &[[Entry; 2]], other: &[[Entry; 2]]) -> bool
    ensures { IsTrue result → one.now ≡ other.now }
{
    if one.len() != other.len() {
        return false;
    }
    for i in 0..one.len() {
        if !same_row(&one[i], &other[i]) {
            return false;
        }
    }
    true
}

fn same_gate(one: &Gate, other: &Gate) -> bool
    ensures { IsTrue result → one.now ≡ other.now }
{
    if one.target != other.target || !same_rows(&one.matrix.rows, &other.matrix.rows) {
        return false;
    }
    one.controls.as_slice() == other.controls.as_slice()
}

/// Whether two statements are the same. Of those with statements inside it is never told.
fn same(one: &Stmt, other: &Stmt) -> bool
    ensures { IsTrue result → one.now ≡ other.now }
{
    match (one, other) {
        (Stmt::Gate(gate), Stmt::Gate(second)) => same_gate(gate, second),
        (
            Stmt::Measure { qubit, bit },
            Stmt::Measure {
                qubit: second,
                bit: place,
            },
        ) => *qubit == *second && *bit == *place,
        (Stmt::Reset { qubit }, Stmt::Reset { qubit: second }) => *qubit == *second,
        _ => false,
    }
}

/// The statement once more, if it makes something of nodes itself.
fn copy_of(alloc: Global, stmt: &Stmt) -> Result<Option<Stmt>, AllocError>
    ensures { IfOk result (λ copy. IfSome copy (λ s. s ≡ stmt.now)) }
{
    match stmt {
        Stmt::Gate(gate) => Ok(Some(Stmt::Gate(gate.copy(alloc)?))),
        Stmt::Measure { qubit, bit } => Ok(Some(Stmt::Measure {
            qubit: *qubit,
            bit: *bit,
        })),
        Stmt::Reset { qubit } => Ok(Some(Stmt::Reset { qubit: *qubit })),
        _ => Ok(None),
    }
}

impl Stock {
    /// Nothing is kept.
    pub(crate) fn new(alloc: Global) -> Stock
        ensures { result.entries.items ≡ [] }
    {
        Stock {
            entries: Vec::new(alloc),
            found: IndexMap::new(alloc),
        }
    }

    /// The place of the statement's memos, if they are kept. The key only tells where to look.
    fn find(&self, stmt: &Stmt, levels: usize) -> Option<usize>
        ensures { IfSome result (λ i. IsPlaced stmt.now levels self.now.entries.items i) }
    {
        let place = *self.found.get(&key_of(stmt))?;
        let entry = self.entries.get(place)?;
        if entry.levels == levels && same(&entry.stmt, stmt) {
            Some(place)
        } else {
            None
        }
    }

    /// Takes out what the statement has made of nodes so far, on automata of so many levels.
    pub(crate) fn take(&mut self, alloc: Global, stmt: &Stmt, levels: usize) -> Memos
        ensures { IsTaken stmt.now levels self.old.entries.items self.new.entries.items result }
    {
        match self.find(stmt, levels) {
            Some(place) => mem::replace(&mut self.entries[place].memos, Memos::new(alloc)),
            None => Memos::new(alloc),
        }
    }

    /// Keeps memos for a statement that has none.
    fn add(
        &mut self,
        alloc: Global,
        stmt: &Stmt,
        levels: usize,
        memos: Memos,
    ) -> Result<(), AllocError>
        ensures { OnOk result
            (ArePut stmt.now levels memos self.old.entries.items self.new.entries.items) }
    {
        let Some(copy) = copy_of(alloc, stmt)? else {
            return Ok(());
        };
        self.found.insert(key_of(stmt), self.entries.len())?;
        self.entries.push(StmtMemos {
            stmt: copy,
            levels,
            memos,
        })?;
        Ok(())
    }

    /// Keeps what the statement has made of nodes. Fails only for want of memory.
    pub(crate) fn put(
        &mut self,
        alloc: Global,
        stmt: &Stmt,
        levels: usize,
        memos: Memos,
    ) -> Result<(), AllocError>
        ensures { OnOk result
            (ArePut stmt.now levels memos self.old.entries.items self.new.entries.items) }
    {
        match self.find(stmt, levels) {
            Some(place) => {
                self.entries[place].memos = memos;
                Ok(())
            }
            None => self.add(alloc, stmt, levels, memos),
        }
    }
}
