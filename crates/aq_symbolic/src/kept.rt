//! A world, and its steps.
ghost use Rattle.std.specs.Prelude.{◌≡◌, ◌<◌, ◌≤◌, ◌+◌, ◌*◌, ◌++◌, true, [], ◌∷◌, Some, IfOk, IfErr, IfSome, OnOk};
ghost use Rattle.std.specs.Prelude.{length, slice_get, slice_set};
ghost use Rattle.aq_prog.specs.Gates.{apply_gate, flip_gate, project, IsValidGate};
ghost use Rattle.aq_prog.specs.Runs.{flipped};
ghost use Rattle.aq_store.specs.Nodes.{FitsStore, total_cost};
ghost use Rattle.aq_gate_ops.specs.Accounts.{IsStopped};
ghost use Rattle.aq_gate_ops.specs.Action.{IsActing};
ghost use Rattle.aq_gate_ops.specs.Causes.{IsCause};
ghost use Rattle.aq_measure_ops.specs.Projection.{IsProjecting};
ghost use Rattle.aq_obligations.specs.Worlds.{is_known, stored};
ghost use Rattle.aq_symbolic.specs.Steps.{FitsSet, IsUnfitSet, Keeps, cleared, is_unknown};
ghost use Rattle.aq_symbolic.specs.Steps.{HasFields, IsMapped, IsSameSet};
ghost use Rattle.aq_symbolic.specs.Weights.{price};

use aq_gate_ops::{Acting, apply_with};
use aq_label::Label;
use aq_measure_ops::{Projecting, project_with};
use aq_prog::{Entry, Gate, Guard};
use aq_store::{Lsta, Steps, Stop, Store};
use sqlite_items::Items;
use std::alloc::{AllocError, Global};

const ONE: Entry = Entry::Unit { turn: 0, roots: 0 };

const FLIP: [[Entry; 2]; 2] = [[Entry::Zero, ONE], [ONE, Entry::Zero]];

/// What several runs have in common: the number of a case, the bits that are fixed at the start, the bits that are
/// known now, the outcomes, and an automaton that has the states.
#[derive(Drop)]
pub struct World {
    pub case: u32,
    pub start: Items<Option<bool>>,
    pub bits: Items<Option<bool>>,
    pub outcomes: Items<bool>,
    pub lsta: Lsta,
}

/// The same automaton once more.
fn copy_of(alloc: Global, lsta: &Lsta) -> Result<Lsta, AllocError>
    ensures { IfOk result (IsSameSet lsta.now) }
{
    let shape = lsta.shape.as_slice().to_vec(alloc)?;
    Ok(Lsta {
        root: lsta.root,
        shape,
    })
}

/// Makes the qubit's digit 0, where it is 1 in all that isn't zero. The flip always fits.
fn clear<L: Label>(
    alloc: Global,
    store: &mut Store<L>,
    flip: &mut Acting,
    lsta: &Lsta,
    qubit: u32,
    steps: &mut Steps,
) -> Result<Lsta, Stop<L>>
    requires fits { FitsStore store.old lsta.now }
    requires qubit { qubit < length lsta.now.shape.items }
    requires memo { let levels = length lsta.now.shape.items in
        IsActing L.parts L.part_count (flip_gate qubit) levels store.old flip.old }
    requires paid { total_cost store.old ≤ steps.old.taken }
    ensures cleared { let flip = flipped (length lsta.now.shape.items) qubit true in
        IfOk result (IsMapped L.parts L.part_count flip store.old store.new lsta.now) }
    ensures memo { let levels = length lsta.now.shape.items in
        OnOk result (IsActing L.parts L.part_count (flip_gate qubit) levels store.new flip.new) }
    ensures keeps { Keeps store.old store.new steps.old steps.new }
    ensures steps { steps.new.taken ≤ steps.old.taken + 2 * price lsta.now.shape.items }
    ensures refused { IfErr result (IsStopped (2 * price lsta.now.shape.items) steps.old steps.new) }
    ensures narrow { IfErr result (IsCause (λ l r. ⊥)) }
{
    let gate = Gate::new(Items::new(alloc), qubit, FLIP);
    let made = apply_with(alloc, store, flip, lsta, &gate, steps)?;
    Ok(made)
}

/// The bits with the outcome stored, where one is named.
fn store_bit(bits: Items<Option<bool>>, bit: Option<u32>, outcome: bool) -> Items<Option<bool>>
    requires { IfSome bit (λ b. b < length bits) }
    ensures { result ≡ stored bit outcome bits }
{
    let mut bits = bits;
    if let Some(bit) = bit {
        bits.set(bit as usize, Some(outcome));
    }
    bits
}

impl World {
    /// The same world once more. Fails only for want of memory.
    pub fn copy(&self, alloc: Global) -> Result<World, AllocError>
        ensures fields { IfOk result (HasFields self.now self.now.start self.now.bits self.now.outcomes) }
        ensures set { IfOk result (λ w. IsSameSet self.now.lsta w.lsta) }
    {
        let start = Items::from_slice(alloc, self.start.as_slice())?;
        let bits = Items::from_slice(alloc, self.bits.as_slice())?;
        let outcomes = Items::from_slice(alloc, self.outcomes.as_slice())?;
        let lsta = copy_of(alloc, &self.lsta)?;
        Ok(World {
            case: self.case,
            start,
            bits,
            outcomes,
            lsta,
        })
    }

    /// The world with the bit fixed, as if it had had this value from the beginning.
    pub fn decided(self, bit: u32, value: bool) -> World
        requires start { bit < length self.start }
        requires bits { bit < length self.bits }
        ensures fields { let start = slice_set self.start bit (Some value) in
            let bits = slice_set self.bits bit (Some value) in
            HasFields self start bits self.outcomes result }
        ensures set { IsSameSet self.lsta result.lsta }
    {
        let World {
            case,
            mut start,
            mut bits,
            outcomes,
            lsta,
        } = self;
        start.set(bit as usize, Some(value));
        bits.set(bit as usize, Some(value));
        World {
            case,
            start,
            bits,
            outcomes,
            lsta,
        }
    }

    /// The world after an outcome, with what it leaves of the states. Fails only for want of memory.
    fn after(
        &self,
        alloc: Global,
        bit: Option<u32>,
        outcome: bool,
        lsta: Lsta,
    ) -> Result<World, AllocError>
        requires { IfSome bit (λ b. b < length self.now.bits) }
        ensures fields { let bits = stored bit outcome self.now.bits in
            IfOk result (HasFields self.now self.now.start bits (self.now.outcomes ++ outcome ∷ [])) }
        ensures set { IfOk result (λ w. w.lsta ≡ lsta) }
    {
        let start = Items::from_slice(alloc, self.start.as_slice())?;
        let bits = Items::from_slice(alloc, self.bits.as_slice())?;
        let mut outcomes = Items::from_slice(alloc, self.outcomes.as_slice())?;
        outcomes.push(outcome)?;
        let bits = store_bit(bits, bit, outcome);
        Ok(World {
            case: self.case,
            start,
            bits,
            outcomes,
            lsta,
        })
    }

    /// The world after a gate, which is played on all states at once. `Wide`: it doesn't fit on the vector of some
    /// word. `Spent`: twice the words times `2^(n+1)` are more steps than were left.
    pub fn gate<L: Label>(
        self,
        alloc: Global,
        store: &mut Store<L>,
        acting: &mut Acting,
        gate: &Gate,
        steps: &mut Steps,
    ) -> Result<World, Stop<L>>
        requires fits { FitsStore store.old self.lsta }
        requires valid { IsValidGate (length self.lsta.shape.items) gate.now }
        requires memo { let levels = length self.lsta.shape.items in
            IsActing L.parts L.part_count gate.now levels store.old acting.old }
        requires paid { total_cost store.old ≤ steps.old.taken }
        ensures fields { IfOk result (HasFields self self.start self.bits self.outcomes) }
        ensures set { let played = apply_gate (length self.lsta.shape.items) gate.now in
            IfOk result (λ w. IsMapped L.parts L.part_count played store.old store.new self.lsta w.lsta) }
        ensures fit { OnOk result
            (FitsSet L.parts L.part_count (length self.lsta.shape.items) gate.now store.old self.lsta) }
        ensures memo { let levels = length self.lsta.shape.items in
            OnOk result (IsActing L.parts L.part_count gate.now levels store.new acting.new) }
        ensures keeps { Keeps store.old store.new steps.old steps.new }
        ensures steps { steps.new.taken ≤ steps.old.taken + 2 * price self.lsta.shape.items }
        ensures refused { IfErr result (IsStopped (2 * price self.lsta.shape.items) steps.old steps.new) }
        ensures cause { let levels = length self.lsta.shape.items in
            IfErr result
            (IsCause (λ l r. IsUnfitSet L.parts L.part_count levels gate.now store.old self.lsta)) }
    {
        let World {
            case,
            start,
            bits,
            outcomes,
            lsta: before,
        } = self;
        let lsta = apply_with(alloc, store, acting, &before, gate, steps)?;
        Ok(World {
            case,
            start,
            bits,
            outcomes,
            lsta,
        })
    }

    /// The world after an outcome of a measurement of the qubit, which is stored where a bit is named. `Spent`: twice
    /// the words times `2^(n+1)` are more steps than were left. It is never `Wide`.
    pub fn take_outcome<L: Label>(
        &self,
        alloc: Global,
        store: &mut Store<L>,
        projecting: &mut Projecting,
        qubit: u32,
        bit: Option<u32>,
        outcome: bool,
        steps: &mut Steps,
    ) -> Result<World, Stop<L>>
        requires fits { FitsStore store.old self.now.lsta }
        requires qubit { qubit < length self.now.lsta.shape.items }
        requires bit { IfSome bit (λ b. b < length self.now.bits) }
        requires memo { let levels = length self.now.lsta.shape.items in
            IsProjecting L.parts qubit outcome levels store.old projecting.old }
        requires paid { total_cost store.old ≤ steps.old.taken }
        ensures fields { let bits = stored bit outcome self.now.bits in
            IfOk result (HasFields self.now self.now.start bits (self.now.outcomes ++ outcome ∷ [])) }
        ensures set { let half = project (length self.now.lsta.shape.items) qubit outcome in
            IfOk result (λ w. IsMapped L.parts L.part_count half store.old store.new self.now.lsta w.lsta) }
        ensures memo { let levels = length self.now.lsta.shape.items in
            OnOk result (IsProjecting L.parts qubit outcome levels store.new projecting.new) }
        ensures keeps { Keeps store.old store.new steps.old steps.new }
        ensures steps { steps.new.taken ≤ steps.old.taken + 2 * price self.now.lsta.shape.items }
        ensures refused { IfErr result (IsStopped (2 * price self.now.lsta.shape.items) steps.old steps.new) }
        ensures narrow { IfErr result (IsCause (λ l r. ⊥)) }
    {
        let lsta = project_with(alloc, store, projecting, &self.lsta, qubit, outcome, steps)?;
        let Ok(world) = self.after(alloc, bit, outcome, lsta) else {
            return Err(Stop::Memory);
        };
        Ok(world)
    }

    /// The world after the outcome 1 of a reset of the qubit. `Spent`: four times the words times `2^(n+1)` are more
    /// steps than were left. It is never `Wide`.
    pub fn reset<L: Label>(
        &self,
        alloc: Global,
        store: &mut Store<L>,
        projecting: &mut Projecting,
        flip: &mut Acting,
        qubit: u32,
        steps: &mut Steps,
    ) -> Result<World, Stop<L>>
        requires fits { FitsStore store.old self.now.lsta }
        requires qubit { qubit < length self.now.lsta.shape.items }
        requires memo { let levels = length self.now.lsta.shape.items in
            IsProjecting L.parts qubit true levels store.old projecting.old }
        requires flip { let levels = length self.now.lsta.shape.items in
            IsActing L.parts L.part_count (flip_gate qubit) levels store.old flip.old }
        requires paid { total_cost store.old ≤ steps.old.taken }
        ensures fields { let outcomes = self.now.outcomes ++ true ∷ [] in
            IfOk result (HasFields self.now self.now.start self.now.bits outcomes) }
        ensures set { let left = cleared (length self.now.lsta.shape.items) qubit true in
            IfOk result (λ w. IsMapped L.parts L.part_count left store.old store.new self.now.lsta w.lsta) }
        ensures memo { let levels = length self.now.lsta.shape.items in
            OnOk result (IsProjecting L.parts qubit true levels store.new projecting.new) }
        ensures flip { let levels = length self.now.lsta.shape.items in
            OnOk result (IsActing L.parts L.part_count (flip_gate qubit) levels store.new flip.new) }
        ensures keeps { Keeps store.old store.new steps.old steps.new }
        ensures steps { steps.new.taken ≤ steps.old.taken + 4 * price self.now.lsta.shape.items }
        ensures refused { IfErr result (IsStopped (4 * price self.now.lsta.shape.items) steps.old steps.new) }
        ensures narrow { IfErr result (IsCause (λ l r. ⊥)) }
    {
        let half = project_with(alloc, store, projecting, &self.lsta, qubit, true, steps)?;
        let lsta = clear(alloc, store, flip, &half, qubit, steps)?;
        let Ok(world) = self.after(alloc, None, true, lsta) else {
            return Err(Stop::Memory);
        };
        Ok(world)
    }

    /// Whether the guard's bit is known to have its value.
    pub fn holds(&self, guard: &Guard) -> bool
        ensures { result ≡ is_known guard.now (slice_get self.now.bits guard.now.bit) }
    {
        match self.bits.as_slice().get(guard.bit as usize) {
            Some(Some(bit)) => *bit == guard.value,
            Some(None) => false,
            None => false,
        }
    }

    /// Whether the bit is there and its value isn't known.
    pub fn is_open(&self, bit: u32) -> bool
        ensures { result ≡ is_unknown (slice_get self.now.bits bit) }
    {
        match self.bits.as_slice().get(bit as usize) {
            Some(Some(_)) => false,
            Some(None) => true,
            None => false,
        }
    }
}
