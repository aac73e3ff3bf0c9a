//! Brackets: vectors by their terms.
ghost use Rattle.std.specs.Prelude.{◌≡◌, []};
ghost use Rattle.aq_set_read.specs.Gathered.{Gives};
ghost use Rattle.aq_set_read.specs.Parts.{term_added, term_counted, roots_taken};
ghost use Rattle.aq_set_read.specs.Coefs.{roots_of};
ghost use Rattle.aq_set_read.specs.Meaning.{step, term_taken, terms_taken, bracket_qubits, bracket_made};

use crate::amplitudes::amplitude_of;
use crate::collector::Collector;
use crate::kets::{binary, digits_of};
use crate::made::Made;
use crate::operators::qubits_within;
use crate::set_fault::SetFault;
use aq_base::MOST_QUBITS;
use aq_lex::Place;
use aq_set_parse::{SetCoef, SetTerm};
use aq_sets::{Expr, Term};
use indexmap::IndexSet;
use sqlite_items::Items;
use std::alloc::Global;
use std::marker::Model;

/// Terms of a bracket, and their indices.
#[derive(Drop)]
struct Terms {
    list: Items<Term>,
    indices: IndexSet<u64>,
}

impl Model for Terms {
    ghost use Rattle.std.specs.Prelude.{◌≡◌, List, map};
    ghost use Rattle.aq_sets.specs.declared.sets.Term.{Term};

    ghost Value = { List Term };

    ghost view = { λ t. t.list };

    ghost invariant = { λ t. t.indices.keys ≡ map (λ term. term.index) t.list };
}

impl Terms {
    /// No terms.
    fn new(alloc: Global) -> Terms
        ensures { result ≡ [] }
    {
        Terms {
            list: Items::new(alloc),
            indices: IndexSet::new(alloc),
        }
    }

    /// The terms with another one behind them, whose ket is at this place.
    fn with(self, at: Place, term: Term) -> Result<Terms, SetFault>
        ensures { Gives (λ t. t) result (term_added at self term) }
    {
        let Terms {
            mut list,
            mut indices,
        } = self;
        let Ok((_, is_new)) = indices.insert_full(term.index) else {
            return Err(SetFault::Memory);
        };
        if !is_new {
            return Err(SetFault::RepeatedKet { at });
        }
        list.push(term)?;
        Ok(Terms { list, indices })
    }

    /// The terms in order.
    fn into_list(self) -> Items<Term>
        ensures { result ≡ self }
    {
        let Terms { list, indices: _ } = self;
        list
    }
}

/// How often a coefficient is divided by the square root of 2.
fn roots_of(coef: Option<SetCoef>) -> u128
    ensures { result ≡ roots_of coef }
{
    match coef {
        Some(coef) => coef.roots,
        None => 0,
    }
}

/// The roots of a term's coefficient.
fn roots_within(term: &SetTerm) -> Result<u32, SetFault>
    ensures { Gives (λ k. k) result (roots_taken term.now) }
{
    match u32::try_from(roots_of(term.coef)) {
        Ok(roots) => Ok(roots),
        Err(_) => Err(SetFault::AmpTooWide { at: term.at }),
    }
}

/// Puts a term behind others and counts it. Its ket is at this place.
fn add_term(
    collector: &mut Collector,
    earlier: Terms,
    at: Place,
    term: Term,
) -> Result<Terms, SetFault>
    ensures meaning { Gives (λ t. step collector.new t) result (term_counted at earlier term collector.old) }
    ensures names { collector.new.names ≡ collector.old.names }
{
    let terms = earlier.with(at, term)?;
    collector.count(at)?;
    Ok(terms)
}

/// Takes a term of a bracket of so many qubits, behind others.
#[tactic(auto, unfolding(crate::specs::Meaning::term_taken))]
fn take_term(
    collector: &mut Collector,
    qubits: usize,
    earlier: Terms,
    term: &SetTerm,
) -> Result<Terms, SetFault>
    ensures meaning { Gives (λ t. step collector.new t) result (term_taken qubits earlier term.now collector.old) }
    ensures names { collector.new.names ≡ collector.old.names }
{
    let at = term.ket.at;
    let roots = roots_within(term)?;
    if qubits > MOST_QUBITS as usize {
        return Err(SetFault::QubitCount { at });
    }
    let digits = digits_of(term.ket.text.as_slice());
    if digits.len() != qubits {
        return Err(SetFault::KetLength { at });
    }
    // The numbers of a text are in range.
    let Some(amp) = amplitude_of(term.minus, term.coef, roots) else {
        return Err(SetFault::Memory);
    };
    let index = binary(digits);
    add_term(collector, earlier, at, Term { index, amp })
}

/// Takes the terms of a bracket of so many qubits.
fn take_terms(
    alloc: Global,
    collector: &mut Collector,
    qubits: usize,
    terms: &[SetTerm],
) -> Result<Items<Term>, SetFault>
    ensures meaning { Gives (λ t. step collector.new t) result (terms_taken qubits [] terms.now collector.old) }
    ensures names { collector.new.names ≡ collector.old.names }
{
    let mut taken = Terms::new(alloc);
    for term in terms {
        taken = take_term(collector, qubits, taken, term)?;
    }
    Ok(taken.into_list())
}

/// How many digits the first ket has, which is the number of qubits.
fn bracket_qubits(terms: &[SetTerm]) -> usize
    ensures { result ≡ bracket_qubits terms.now }
{
    match terms.first() {
        Some(first) => digits_of(first.ket.text.as_slice()).len(),
        None => 0,
    }
}

/// Puts a bracket together.
#[tactic(auto, unfolding(crate::specs::Meaning::bracket_made))]
pub(crate) fn bracket(
    alloc: Global,
    collector: &mut Collector,
    at: Place,
    terms: &[SetTerm],
) -> Result<Made, SetFault>
    ensures meaning { Gives (λ m. step collector.new m) result (bracket_made at terms.now collector.old) }
    ensures names { collector.new.names ≡ collector.old.names }
{
    let count = bracket_qubits(terms);
    let terms = take_terms(alloc, collector, count, terms)?;
    let Some(qubits) = qubits_within(count as u128) else {
        return Err(SetFault::QubitCount { at });
    };
    collector.node(at, Expr::Kets { qubits, terms }, qubits)
}
