//! What the statements before a place have made known.
ghost use Rattle.std.specs.Prelude.{◌≡◌, ◌==◌, ◌+◌, ◌++◌, ◌∷◌, [], ◌<◌, ◌≤◌, None, IfSome, IfOk, OnOk, IfErr};
ghost use Rattle.aq_elab.specs.Elaborated.{registers_of, program_of};
ghost use Rattle.aq_elab.specs.Known.{Gives, nothing_known, declared_as};
ghost use Rattle.aq_elab.specs.Annotations.{claim_number, with_claim};
ghost use Rattle.aq_elab.specs.Bounds.{IsShort, with_name, next_span};
ghost use Rattle.aq_base.specs.Limits.{most_bits, most_qubits};
ghost use Rattle.aq_elab.specs.Spots.{span_of, part_of, is_role, width, width_of, member};
ghost use Rattle.aq_elab.specs.Statements.{step, declaring, is_none_of, registered, counted, with_claims};
ghost use Rattle.aq_elab.specs.declared.fault.ElabFault.TheVariants as faults;

use crate::fault::ElabFault;
use aq_base::{MOST_BITS, MOST_QUBITS, MOST_STATEMENTS};
use aq_lex::{Place, Text};
use aq_parse::{Spot, Word};
use aq_prog::{BitRegister, Program, Stmt};
use indexmap::{IndexMap, IndexSet};
use sqlite_items::Items;
use std::alloc::Global;
use std::marker::Model;

/// What a name stands for.
#[derive(Clone, Copy, Debug, PartialEq, Eq)]
pub(crate) enum Role {
    Qubit,
    Bit,
}

/// Qubits or bits in a row, from the first on: a register of this size, or a single one where it has none.
#[derive(Clone, Copy, Debug, PartialEq, Eq)]
pub(crate) struct Span {
    pub(crate) first: u32,
    pub(crate) size: Option<u32>,
}

/// What a name was declared as.
#[derive(Clone, Copy, Debug, PartialEq, Eq)]
pub(crate) struct Declared {
    pub(crate) role: Role,
    pub(crate) span: Span,
}

/// The names of registers in the order of their declaration, the names of claims in the order of their first mention,
/// and the numbers of qubits, of bits and of statements.
#[derive(Drop)]
pub(crate) struct Scope {
    names: IndexMap<Text, Declared>,
    claims: IndexSet<Text>,
    qubits: u32,
    bits: u32,
    statements: u32,
}

impl Model for Scope {
    ghost use Rattle.aq_elab.specs.Known.{Known};

    ghost Value = { Known };

    ghost view = { λ s. record {
      names = s.names.entries;
      claims = s.claims.keys;
      qubits = s.qubits;
      bits = s.bits;
      statements = s.statements;
    } };

    ghost use Rattle.aq_elab.specs.Bounds.{IsWithin};

    ghost invariant = { λ s. IsWithin s.names.entries s.qubits s.bits };
}

/// How many qubits or bits a size means.
pub(crate) fn width_of(size: Option<u32>) -> u32
    ensures { result ≡ width_of size }
{
    size.unwrap_or(1)
}

/// Whether the size is 0.
fn is_none_of(size: Option<u32>) -> bool
    ensures { result ≡ is_none_of size }
{
    match size {
        Some(size) => size == 0,
        None => false,
    }
}

impl Role {
    /// Whether both are the same.
    fn is(self, other: Role) -> bool
        ensures { result ≡ is_role other self }
    {
        match self {
            Role::Qubit => matches!(other, Role::Qubit),
            Role::Bit => matches!(other, Role::Bit),
        }
    }
}

impl Span {
    /// How many qubits or bits it is.
    pub(crate) fn width(self) -> u32
        ensures { result ≡ width self }
    {
        width_of(self.size)
    }

    /// One of them by its number.
    pub(crate) fn member(self, number: u32) -> u32
        requires short { IsShort self }
        requires there { number < width self }
        ensures { result ≡ member self number }
    {
        match self.size {
            Some(_) => self.first + number,
            None => self.first,
        }
    }

    /// The part that the spot means: all of it where the spot has no index.
    fn part(self, spot: &Spot) -> Result<Span, ElabFault>
        requires short { IsShort self }
        ensures part { Gives (λ s. s) result (part_of spot.now self spot.now.index) }
        ensures short { IfOk result IsShort }
    {
        let Some(index) = spot.index else {
            return Ok(self);
        };
        match self.size {
            Some(size) if index < size => Ok(Span {
                first: self.first + index,
                size: None,
            }),
            _ => Err(ElabFault::IndexOut { at: spot.name.at }),
        }
    }
}

impl Scope {
    /// Nothing is known.
    pub(crate) fn new(alloc: Global) -> Scope
        ensures { result ≡ nothing_known }
    {
        Scope {
            names: IndexMap::new(alloc),
            claims: IndexSet::new(alloc),
            qubits: 0,
            bits: 0,
            statements: 0,
        }
    }

    /// What a name was declared as.
    fn declared_as(&self, name: &Text) -> Option<Declared>
        ensures declared { result ≡ declared_as self.now.names name.now }
        ensures short { IfSome result (λ d. IsShort d.span) }
    {
        self.names.get(name).copied()
    }

    /// The qubits or bits that a spot stands for.
    pub(crate) fn span_of(&self, role: Role, spot: &Spot) -> Result<Span, ElabFault>
        ensures span { Gives (λ s. s) result (span_of self.now role spot.now) }
        ensures short { IfOk result IsShort }
    {
        match self.declared_as(&spot.name.text) {
            Some(declared) if declared.role.is(role) => declared.span.part(spot),
            _ => Err(ElabFault::UnknownName { at: spot.name.at }),
        }
    }

    /// Adds a name that isn't there, and the new numbers of qubits and of bits. The only fault is want of memory.
    fn add(
        &mut self,
        alloc: Global,
        name: &Text,
        declared: Declared,
        qubits: u32,
        bits: u32,
    ) -> Result<(), ElabFault>
        requires absent { declared_as self.old.names name.now ≡ None }
        requires short { IsShort declared.span }
        requires few_qubits { qubits ≤ most_qubits }
        requires few_bits { bits ≤ most_bits }
        ensures added { OnOk result (self.new ≡ with_name self.old name.now declared qubits bits) }
        ensures memory { IfErr result (λ e. e ≡ faults.Memory) }
    {
        let key = Text::from_slice(alloc, name.as_slice())?;
        let Ok(_) = self.names.insert(key, declared) else {
            return Err(ElabFault::Memory);
        };
        self.qubits = qubits;
        self.bits = bits;
        Ok(())
    }

    /// Declares qubits or bits behind those of their role, and gives them.
    fn register(
        &mut self,
        alloc: Global,
        role: Role,
        name: &Word,
        size: Option<u32>,
    ) -> Result<Span, ElabFault>
        requires absent { declared_as self.old.names name.now.text ≡ None }
        ensures known { Gives (λ s. self.new) result (registered role name.now size self.old) }
        ensures span { IfOk result (λ s. s ≡ next_span role size self.old) }
        ensures short { IfOk result IsShort }
    {
        let wide = u64::from(width_of(size));
        match role {
            Role::Qubit => {
                let first = self.qubits;
                let all = u64::from(first) + wide;
                if all > u64::from(MOST_QUBITS) {
                    return Err(ElabFault::TooManyQubits { at: name.at });
                }
                let span = Span { first, size };
                let declared = Declared { role, span };
                self.add(alloc, &name.text, declared, all as u32, self.bits)?;
                Ok(span)
            }
            Role::Bit => {
                let first = self.bits;
                let all = u64::from(first) + wide;
                if all > u64::from(MOST_BITS) {
                    return Err(ElabFault::TooManyBits { at: name.at });
                }
                let span = Span { first, size };
                let declared = Declared { role, span };
                self.add(alloc, &name.text, declared, self.qubits, all as u32)?;
                Ok(span)
            }
        }
    }

    /// Declares a name: qubits or bits behind those of their role. Gives them.
    #[tactic(auto, unfolding(crate::specs::Statements::declaring))]
    pub(crate) fn declare(
        &mut self,
        alloc: Global,
        role: Role,
        name: &Word,
        size: Option<u32>,
    ) -> Result<Span, ElabFault>
        ensures known { Gives (λ s. self.new) result (declaring role name.now size self.old) }
        ensures span { IfOk result (λ s. s ≡ next_span role size self.old) }
        ensures short { IfOk result IsShort }
    {
        if is_none_of(size) {
            return Err(ElabFault::EmptyRegister { at: name.at });
        }
        if self.declared_as(&name.text).is_some() {
            return Err(ElabFault::TwiceDeclared { at: name.at });
        }
        self.register(alloc, role, name, size)
    }

    /// Counts the asserts and the own statements of the statement at this place.
    pub(crate) fn count(&mut self, at: Place, asserts: usize, own: usize) -> Result<(), ElabFault>
        ensures { Gives (λ u. self.new) result (counted at (asserts + own) self.old) }
    {
        let Some(more) = asserts.checked_add(own) else {
            return Err(ElabFault::TooManyStatements { at });
        };
        match (self.statements as usize).checked_add(more) {
            Some(all) if all <= MOST_STATEMENTS => {
                self.statements = all as u32;
                Ok(())
            }
            _ => Err(ElabFault::TooManyStatements { at }),
        }
    }

    /// The number of a claim, which is a new one at its first mention. The only fault is want of memory.
    pub(crate) fn claim(&mut self, alloc: Global, name: &Text) -> Result<u32, ElabFault>
        ensures number { IfOk result (λ n. n ≡ claim_number self.old.claims name.now) }
        ensures claims { OnOk result (self.new ≡ with_claims (with_claim self.old.claims name.now) self.old) }
        ensures memory { IfErr result (λ e. e ≡ faults.Memory) }
    {
        let key = Text::from_slice(alloc, name.as_slice())?;
        let Ok((number, _)) = self.claims.insert_full(key) else {
            return Err(ElabFault::Memory);
        };
        let Ok(number) = u32::try_from(number) else {
            return Err(ElabFault::Memory);
        };
        Ok(number)
    }

    /// Whether no qubit is declared.
    pub(crate) fn has_no_qubits(&self) -> bool
        ensures { result ≡ (self.now.qubits == 0) }
    {
        self.qubits == 0
    }

    /// The bit registers, in the order of their declaration.
    fn registers(&self, alloc: Global) -> Result<Items<BitRegister>, ElabFault>
        ensures registers { IfOk result (λ rs. rs ≡ registers_of self.now.names) }
        ensures memory { IfErr result (λ e. e ≡ faults.Memory) }
    {
        let mut registers = Items::new(alloc);
        for i in 0..self.names.len() {
            if let Some((name, declared)) = self.names.get_index(i) {
                push_register(alloc, name, *declared, &mut registers)?;
            }
        }
        Ok(registers)
    }

    /// The program with these statements. The only fault is want of memory.
    pub(crate) fn program(&self, alloc: Global, body: Items<Stmt>) -> Result<Program, ElabFault>
        ensures program { IfOk result (λ p. p ≡ program_of (step self.now body)) }
        ensures memory { IfErr result (λ e. e ≡ faults.Memory) }
    {
        let registers = self.registers(alloc)?;
        let claims = copy_texts(alloc, self.claims.as_slice())?;
        Ok(Program {
            qubits: self.qubits,
            bits: self.bits,
            registers,
            claims,
            body,
        })
    }
}

/// Adds the register of a name, where it stands for bits.
fn push_register(
    alloc: Global,
    name: &Text,
    declared: Declared,
    registers: &mut Items<BitRegister>,
) -> Result<(), ElabFault>
    ensures pushed { OnOk result (registers.new ≡ registers.old ++ registers_of ((name.now, declared) ∷ [])) }
    ensures memory { IfErr result (λ e. e ≡ faults.Memory) }
{
    if declared.role.is(Role::Qubit) {
        return Ok(());
    }
    registers.push(BitRegister {
        name: Text::from_slice(alloc, name.as_slice())?,
        first: declared.span.first,
        size: declared.span.width(),
        indexed: declared.span.size.is_some(),
    })?;
    Ok(())
}

fn copy_texts(alloc: Global, texts: &[Text]) -> Result<Items<Text>, ElabFault>
    ensures copied { IfOk result (λ all. all ≡ texts.now) }
    ensures memory { IfErr result (λ e. e ≡ faults.Memory) }
{
    let mut copies = Items::new(alloc);
    for text in texts {
        copies.push(Text::from_slice(alloc, text.as_slice())?)?;
    }
    Ok(copies)
}
