//! The annotations of a statement.
ghost use Rattle.std.specs.Prelude.{◌≡◌, not, ◌||◌, None};
ghost use Rattle.std.specs.List.{list_all};
ghost use Rattle.std.specs.Option.{is_some};
ghost use Rattle.aq_lex.specs.Bytes.{is_word};
ghost use Rattle.aq_elab.specs.Known.{Gives};
ghost use Rattle.aq_elab.specs.Annotations.{is_name};
ghost use Rattle.aq_elab.specs.Behind.{noted, all_noted};

use crate::fault::ElabFault;
use crate::scope::Scope;
use aq_lex::scan::{is_letter, is_word};
use aq_parse::Note;
use aq_prog::Stmt;
use sqlite_items::Items;
use std::alloc::Global;

/// Whether a name may go on with each of the bytes.
fn are_words(bytes: &[u8]) -> bool
    ensures { result ≡ list_all is_word bytes.now }
{
    bytes.iter().all(|b| is_word(*b))
}

/// Whether the bytes are one name.
fn is_name(bytes: &[u8]) -> bool
    ensures { result ≡ is_name bytes.now }
{
    match bytes.split_first() {
        Some((first, rest)) => is_letter(*first) && are_words(rest),
        None => false,
    }
}

/// Whether the note can't be the invariant: it isn't one name, the statement is no loop, or it has an invariant.
fn is_stray(note: &Note, is_loop: bool, invariant: Option<u32>) -> bool
    ensures { result ≡ (not (is_name note.now.rest) || (not is_loop || is_some invariant)) }
{
    !is_name(note.rest.as_slice()) || !is_loop || invariant.is_some()
}

/// Takes an annotation, behind which this is the statement's invariant. An assert goes to the list.
#[tactic(auto, unfolding(crate::specs::Annotations::note_taken))]
fn take_note(
    alloc: Global,
    note: &Note,
    is_loop: bool,
    invariant: Option<u32>,
    scope: &mut Scope,
    out: &mut Items<Stmt>,
) -> Result<Option<u32>, ElabFault>
    ensures { Gives (λ i. record { known = scope.new; statements = out.new; invariant = i }) result
        (noted is_loop note.now (record { known = scope.old; statements = out.old; invariant = invariant })) }
{
    if note.name.text.is(b"assert") {
        if !is_name(note.rest.as_slice()) {
            return Err(ElabFault::StrayAnnotation { at: note.name.at });
        }
        let claim = scope.claim(alloc, &note.rest)?;
        let line = note.name.at.line;
        out.push(Stmt::Assert { claim, line })?;
        return Ok(invariant);
    }
    if note.name.text.is(b"invariant") {
        if is_stray(note, is_loop, invariant) {
            return Err(ElabFault::StrayAnnotation { at: note.name.at });
        }
        let claim = scope.claim(alloc, &note.rest)?;
        return Ok(Some(claim));
    }
    Ok(invariant)
}

/// Takes the annotations of a statement: its asserts go to the list, and its invariant is the result.
pub(crate) fn take_notes(
    alloc: Global,
    notes: &[Note],
    is_loop: bool,
    scope: &mut Scope,
    out: &mut Items<Stmt>,
) -> Result<Option<u32>, ElabFault>
    ensures { Gives (λ i. record { known = scope.new; statements = out.new; invariant = i }) result
        (all_noted is_loop notes.now (record { known = scope.old; statements = out.old; invariant = None })) }
{
    let mut invariant = None;
    for note in notes {
        invariant = take_note(alloc, note, is_loop, invariant, scope, out)?;
    }
    Ok(invariant)
}
