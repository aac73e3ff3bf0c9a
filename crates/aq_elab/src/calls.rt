//! Gate calls: the gate by its name and angle, and its instances on registers.
ghost use Rattle.std.specs.Prelude.{◌≡◌, ◌<◌, ◌≤◌, [], All, IfOk};
ghost use Rattle.aq_prog.specs.Digits.{tabulate};
ghost use Rattle.aq_base.specs.Checks.{all_checked};
ghost use Rattle.aq_base.specs.Limits.{most_bits};
ghost use Rattle.aq_elab.specs.Known.{Gives};
ghost use Rattle.aq_elab.specs.Bounds.{IsShort};
ghost use Rattle.aq_elab.specs.Spots.{span_of, member};
ghost use Rattle.aq_elab.specs.Calls.{times_of, differs, same_sizes, instance, no_repeat, played, gates_of_call};
ghost use Rattle.aq_elab.specs.declared.scope.Role.TheVariants as roles;

use crate::fault::ElabFault;
use crate::gates::push_gates;
use crate::recipe::{Recipe, recipe_of};
use crate::scope::{Role, Scope, Span};
use aq_parse::{Angle, Spot, Word};
use aq_prog::Gate;
use sqlite_items::Items;
use std::alloc::{AllocError, Global};

/// The qubits that each spot stands for.
fn spans_of(alloc: Global, scope: &Scope, spots: &[Spot]) -> Result<Vec<Span>, ElabFault>
    ensures spans { Gives (λ spans. spans.items) result (all_checked (span_of scope.now roles.Qubit) spots.now) }
    ensures short { IfOk result (λ spans. All IsShort spans.items) }
{
    let mut spans = Vec::new(alloc);
    for spot in spots {
        let span = scope.span_of(Role::Qubit, spot)?;
        spans.push(span).map_err(AllocError::from)?;
    }
    Ok(spans)
}

/// The number of instances: the size of the first register, and 1 where there is none.
fn times_of(spans: &[Span]) -> u32
    requires short { All IsShort spans.now }
    ensures value { result ≡ times_of spans.now }
    ensures few { result ≤ most_bits }
{
    for span in spans {
        if let Some(size) = span.size {
            return size;
        }
    }
    1
}

fn differs(times: u32, size: Option<u32>) -> bool
    ensures { result ≡ differs times size }
{
    match size {
        None => false,
        Some(size) => size != times,
    }
}

/// Whether all registers have this size; SizeDiffers at the first one that hasn't.
fn check_sizes(times: u32, spots: &[Spot], spans: &[Span]) -> Result<(), ElabFault>
    ensures { result ≡ same_sizes times spots.now spans.now }
{
    for (spot, span) in spots.iter().zip(spans) {
        if differs(times, span.size) {
            return Err(ElabFault::SizeDiffers { at: spot.name.at });
        }
    }
    Ok(())
}

/// The qubit of an instance.
fn member(span: &Span, index: u32) -> u32
    requires short { IsShort span.now }
    requires few { index < most_bits }
    ensures { result ≡ member span.now index }
{
    match span.size {
        None => span.first,
        Some(_) => span.first + index,
    }
}

/// The qubits of an instance, spot by spot. The only error is want of memory.
fn instance(alloc: Global, spans: &[Span], index: u32) -> Result<Vec<u32>, AllocError>
    requires short { All IsShort spans.now }
    requires few { index < most_bits }
    ensures { IfOk result (λ qubits. qubits.items ≡ instance spans.now index) }
{
    let mut qubits = Vec::new(alloc);
    for span in spans {
        qubits.push(member(span, index))?;
    }
    Ok(qubits)
}

/// Whether each qubit stands once; RepeatedQubit at the first spot whose qubit is one of those before it. A gate has
/// three qubits at most.
fn check_repeat(spots: &[Spot], qubits: &[u32]) -> Result<(), ElabFault>
    ensures { result ≡ no_repeat [] spots.now qubits.now }
{
    for (i, qubit) in qubits.iter().enumerate() {
        let Some(spot) = spots.get(i) else {
            return Ok(());
        };
        if qubits[..i].contains(qubit) {
            return Err(ElabFault::RepeatedQubit { at: spot.name.at });
        }
    }
    Ok(())
}

/// The gates of so many instances, each whole before the next; or the fault of the first that has a qubit twice.
fn play(
    alloc: Global,
    recipe: &Recipe,
    times: u32,
    spots: &[Spot],
    spans: &[Span],
) -> Result<Items<Gate>, ElabFault>
    requires short { All IsShort spans.now }
    requires few { times ≤ most_bits }
    ensures { Gives (λ gates. gates) result (played recipe.now spots.now (tabulate times (instance spans.now))) }
{
    let mut gates = Items::new(alloc);
    for index in 0..times {
        let qubits = instance(alloc, spans, index)?;
        check_repeat(spots, &qubits)?;
        push_gates(alloc, &mut gates, recipe, &qubits)?;
    }
    Ok(gates)
}

/// The gates that a call plays, in order. Errors, the first that applies:
/// - those of the gate by its name, angle and number of spots.
/// - UnknownName, IndexOut at a spot: from left to right, what the spot stands for isn't there.
/// - SizeDiffers at a spot: its register has another size than the first register.
/// - RepeatedQubit at a spot: its qubit stands before it, in the first instance that has a qubit twice.
/// - Memory: memory ran out.
#[tactic(auto, unfolding(crate::specs::Calls::gates_of_call))]
pub(crate) fn gates_of_call(
    alloc: Global,
    scope: &Scope,
    name: &Word,
    angle: Option<Angle>,
    spots: &[Spot],
) -> Result<Items<Gate>, ElabFault>
    ensures { Gives (λ gates. gates) result (gates_of_call scope.now name.now angle spots.now) }
{
    let recipe = recipe_of(name, angle, spots.len())?;
    let spans = spans_of(alloc, scope, spots)?;
    let times = times_of(&spans);
    check_sizes(times, spots, &spans)?;
    play(alloc, &recipe, times, spots, &spans)
}
