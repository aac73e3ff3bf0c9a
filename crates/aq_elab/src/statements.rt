//! Statements, and the statements inside them.
ghost use Rattle.std.specs.Prelude.{◌≡◌, ◌&&◌, true};
ghost use Rattle.aq_elab.specs.Known.{Gives};
ghost use Rattle.aq_elab.specs.Behind.{behind, own, headed};
ghost use Rattle.aq_elab.specs.Nodes.{is_loop, is_declaration, meaning_of};
ghost use Rattle.aq_elab.specs.Statements.{step, meaning, statements_of};
ghost use Rattle.aq_parse.specs.declared.tree.Node.{out-Node};

use crate::fault::ElabFault;
use crate::notes::take_notes;
use crate::scope::{Role, Scope};
use crate::simple::{barrier, call, declare_bits, guard, measure, reset};
use aq_lex::Place;
use aq_parse::{Item, Node, Test};
use aq_prog::{Guard, Stmt};
use sqlite_items::Items;
use std::alloc::Global;

/// Adds what a statement without its bodies gives, before it is counted.
fn own(
    alloc: Global,
    node: &Node,
    scope: &mut Scope,
    out: &mut Items<Stmt>,
) -> Result<(), ElabFault>
    ensures { Gives (λ u. step scope.new out.new) result (behind out.old (own (out-Node node.now) scope.old)) }
{
    match node {
        Node::Include | Node::If { .. } | Node::While { .. } => Ok(()),
        Node::Qubits { name, size } => {
            let _ = scope.declare(alloc, Role::Qubit, name, *size)?;
            Ok(())
        }
        Node::Bits { name, size, from } => declare_bits(alloc, name, *size, from, scope, out),
        Node::Measure {
            from,
            into,
            into_first,
        } => measure(scope, from, into, *into_first, out),
        Node::Reset(spot) => reset(scope, spot, out),
        Node::Barrier(spots) => barrier(scope, spots.as_slice()),
        Node::Call { name, angle, spots } => {
            call(alloc, scope, name, *angle, spots.as_slice(), out)
        }
    }
}

/// Whether an invariant may stand at the statement.
fn is_loop(node: &Node) -> bool
    ensures { result ≡ is_loop node.now }
{
    matches!(node, Node::While { .. })
}

/// Whether the statement can't stand in a body.
fn is_declaration(node: &Node) -> bool
    ensures { result ≡ is_declaration node.now }
{
    matches!(
        node,
        Node::Include | Node::Qubits { .. } | Node::Bits { .. }
    )
}

/// Whether the statement can't stand where it does.
fn is_misplaced(node: &Node, inside: bool) -> bool
    ensures { result ≡ (inside && is_declaration node.now) }
{
    inside && is_declaration(node)
}

/// The guard of a test, whose statement is then counted with its asserts.
fn head(test: &Test, at: Place, asserts: usize, scope: &mut Scope) -> Result<Guard, ElabFault>
    ensures { Gives (λ g. (g, scope.new)) result (headed test.now at asserts scope.old) }
{
    let guard = guard(scope, test)?;
    scope.count(at, asserts, 1)?;
    Ok(guard)
}

/// Adds what a statement behind its annotations gives.
#[cycle(statements)]
fn node(
    alloc: Global,
    node: &Node,
    at: Place,
    invariant: Option<u32>,
    asserts: usize,
    scope: &mut Scope,
    out: &mut Items<Stmt>,
) -> Result<(), ElabFault>
    ensures { Gives (λ u. step scope.new out.new) result (behind out.old
        ((meaning_of node.now).run at invariant asserts scope.old)) }
{
    match node {
        Node::If { test, yes, no } => {
            let guard = head(test, at, asserts, scope)?;
            let yes = block(alloc, yes.as_slice(), scope)?;
            let no = block(alloc, no.as_slice(), scope)?;
            out.push(Stmt::If { guard, yes, no })?;
            Ok(())
        }
        Node::While { test, body } => {
            let Some(claim) = invariant else {
                return Err(ElabFault::MissingInvariant { at });
            };
            let guard = head(test, at, asserts, scope)?;
            let body = block(alloc, body.as_slice(), scope)?;
            let line = at.line;
            out.push(Stmt::While {
                guard,
                claim,
                body,
                line,
            })?;
            Ok(())
        }
        _ => {
            let before = out.len();
            own(alloc, node, scope, out)?;
            scope.count(at, asserts, out.len() - before)
        }
    }
}

/// The statements of a body.
#[cycle(statements)]
fn block(alloc: Global, items: &[Item], scope: &mut Scope) -> Result<Items<Stmt>, ElabFault>
    ensures { Gives (λ statements. step scope.new statements) result (statements_of true items.now scope.old) }
{
    let mut statements = Items::new(alloc);
    body(alloc, items, true, scope, &mut statements)?;
    Ok(statements)
}

/// Adds what a statement gives; it may be inside a body.
#[cycle(statements)]
fn statement(
    alloc: Global,
    item: &Item,
    inside: bool,
    scope: &mut Scope,
    out: &mut Items<Stmt>,
) -> Result<(), ElabFault>
    ensures { Gives (λ u. step scope.new out.new) result (behind out.old (meaning item.now inside scope.old)) }
{
    let before = out.len();
    let invariant = take_notes(
        alloc,
        item.notes.as_slice(),
        is_loop(&item.node),
        scope,
        out,
    )?;
    if is_misplaced(&item.node, inside) {
        return Err(ElabFault::DeclaredInBlock { at: item.at });
    }
    let asserts = out.len() - before;
    node(alloc, &item.node, item.at, invariant, asserts, scope, out)
}

/// Adds what statements give, one after the other; they may be inside a body.
#[cycle(statements)]
pub(crate) fn body(
    alloc: Global,
    items: &[Item],
    inside: bool,
    scope: &mut Scope,
    out: &mut Items<Stmt>,
) -> Result<(), ElabFault>
    ensures { Gives (λ u. step scope.new out.new) result (behind out.old (statements_of inside items.now scope.old)) }
{
    for item in items {
        statement(alloc, item, inside, scope, out)?;
    }
    Ok(())
}
