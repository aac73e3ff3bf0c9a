//! How many steps are enough for an obligation, told up to 2^64.
ghost use Rattle.std.specs.Prelude.{◌≡◌, ◌+◌, ◌^◌, ◌<◌, ◌||◌, ◌*◌, ◌≤◌, suc, ℕ, if◌then◌else◌, All, length};
ghost use Rattle.std.specs.List.{sum_by, count_by, range_with_len};
ghost use Rattle.aq_sets.specs.declared.sets.Sets.{Sets as SetsValue};
ghost use Rattle.aq_sets.specs.Caps.{capped, capped_sizes};
ghost use Rattle.aq_prog.specs.Programs.{IsValidProgram};
ghost use Rattle.aq_obligations.specs.Bound.{IsBoundObligation};
ghost use Rattle.aq_obligations.specs.Enough.{statements, outcomes, guards, conditions, words_of, weight_of, enough};
ghost use Rattle.aq_obligations.specs.Counting.{guards_of, is_named, is_named_in};
ghost use Rattle.aq_obligations.specs.Worlds.{given_guards};

use crate::bound::{BoundCase, Obligation};
use aq_prog::{Guard, Program, Stmt};
use aq_sets::{Sets, Size, capped_product, capped_sum};

/// The number of statements, inner ones included, up to 2^64.
pub fn statements_in(body: &[Stmt]) -> u128
    ensures { result ≡ capped (statements body.now) }
{
    let mut count = 0;
    for stmt in body {
        let inside = match stmt {
            Stmt::If { yes, no, .. } => {
                capped_sum(statements_in(yes.as_slice()), statements_in(no.as_slice()))
            }
            Stmt::While { body, .. } => statements_in(body.as_slice()),
            Stmt::Gate(_)
            | Stmt::Measure { .. }
            | Stmt::Reset { .. }
            | Stmt::Assert { .. }
            | Stmt::Assume { .. } => 0,
        };
        count = capped_sum(count, capped_sum(1, inside));
    }
    count
}

/// The measurements and resets.
fn outcomes_in(body: &[Stmt]) -> u128
    ensures { result ≡ capped (outcomes body.now) }
{
    let mut count = 0;
    for stmt in body {
        let inside = match stmt {
            Stmt::Measure { .. } | Stmt::Reset { .. } => 1,
            Stmt::If { yes, no, .. } => {
                capped_sum(outcomes_in(yes.as_slice()), outcomes_in(no.as_slice()))
            }
            Stmt::While { body, .. } => outcomes_in(body.as_slice()),
            Stmt::Gate(_) | Stmt::Assert { .. } | Stmt::Assume { .. } => 0,
        };
        count = capped_sum(count, inside);
    }
    count
}

fn either(left: bool, right: bool) -> bool
    ensures { result ≡ (left || right) }
{
    left || right
}

/// Whether a guard of the statement, or of one inside, is on the bit.
#[cycle(guarded)]
fn is_guard(bit: u32, stmt: &Stmt) -> bool
    ensures { result ≡ is_named bit (guards_of stmt.now) }
{
    match stmt {
        Stmt::If { guard, yes, no } => {
            let inside = either(
                is_guarded(bit, yes.as_slice()),
                is_guarded(bit, no.as_slice()),
            );
            either(guard.bit == bit, inside)
        }
        Stmt::While { guard, body, .. } => {
            either(guard.bit == bit, is_guarded(bit, body.as_slice()))
        }
        Stmt::Assume { guard } => guard.bit == bit,
        Stmt::Gate(_) | Stmt::Measure { .. } | Stmt::Reset { .. } | Stmt::Assert { .. } => false,
    }
}

/// Whether a guard in the body is on the bit.
#[cycle(guarded)]
fn is_guarded(bit: u32, body: &[Stmt]) -> bool
    ensures { result ≡ is_named bit (guards body.now) }
{
    for stmt in body {
        if is_guard(bit, stmt) {
            return true;
        }
    }
    false
}

fn names_bit(bit: u32, guards: &[Guard]) -> bool
    ensures { result ≡ is_named bit guards.now }
{
    guards.iter().any(|guard| guard.bit == bit)
}

/// Whether a condition of the cases names the bit.
fn is_condition(bit: u32, cases: &[BoundCase]) -> bool
    ensures { result ≡ is_named bit (conditions cases.now) }
{
    for case in cases {
        if names_bit(bit, case.when.as_slice()) {
            return true;
        }
    }
    false
}

fn is_given(bit: u32, given: &Option<Guard>) -> bool
    ensures { result ≡ is_named bit (given_guards given.now) }
{
    match given {
        Some(guard) => guard.bit == bit,
        None => false,
    }
}

/// Whether a guard or a condition names the bit.
fn is_bit_named(bit: u32, obligation: &Obligation) -> bool
    ensures { result ≡ is_named_in bit obligation.now }
{
    is_guarded(bit, obligation.fragment.as_slice())
        || is_given(bit, &obligation.given)
        || is_condition(bit, obligation.from.as_slice())
        || is_condition(bit, obligation.goal.cases.as_slice())
}

/// 1 where the test holds, and else 0.
fn one_if(test: bool) -> u32
    ensures { result ≡ if test then 1 else 0 }
{
    if test { 1 } else { 0 }
}

/// The number of the bits below `bits` that a guard or a condition names.
fn bits_named(bits: u32, obligation: &Obligation) -> u32
    ensures { result ≡ count_by (λ bit. is_named_in bit obligation.now) (range_with_len 0 bits) }
{
    let mut count = 0;
    for bit in 0..bits {
        count += one_if(is_bit_named(bit, obligation));
    }
    count
}

/// The words of the cases' expressions.
fn words_in(sizes: &[Size], cases: &[BoundCase]) -> u128
    requires { All (λ c. c.set < length sizes.now) cases.now }
    ensures { (s : SetsValue) → sizes.now ≡ capped_sizes s.exprs → result ≡ capped (sum_by (words_of s) cases.now) }
{
    let mut sum = 0;
    for case in cases {
        sum = capped_sum(sum, sizes[case.set as usize].words());
    }
    sum
}

/// The words of the cases' expressions, each times its nodes.
fn weights_in(sizes: &[Size], cases: &[BoundCase]) -> u128
    requires { All (λ c. c.set < length sizes.now) cases.now }
    ensures { (s : SetsValue) → sizes.now ≡ capped_sizes s.exprs → result ≡ capped (sum_by (weight_of s) cases.now) }
{
    let mut sum = 0;
    for case in cases {
        let size = &sizes[case.set as usize];
        sum = capped_sum(sum, capped_product(size.nodes, size.words()));
    }
    sum
}

/// 2 to a power that is told up to 2^64 itself.
fn power_of_two(exponent: u128) -> u128
    ensures { (e : ℕ) → exponent ≡ capped e → result ≡ capped (2 ^ e) }
{
    if exponent < 64 {
        1u128 << exponent
    } else {
        1u128 << 64
    }
}

/// Twice the entries of a vector.
fn twice_entries(qubits: u32) -> u128
    requires { qubits ≤ 16 }
    ensures { result ≡ 2 ^ suc qubits }
{
    2u128 << qubits
}

/// What the steps come to, of the numbers that they hang on, each told up to 2^64.
fn steps_by(
    splits: u128,
    from: u128,
    qubits: u32,
    statements: u128,
    goal: u128,
    weights: u128,
) -> u128
    requires { qubits ≤ 16 }
    ensures { (e W L V X : ℕ) → splits ≡ capped e → from ≡ capped W → statements ≡ capped L → goal ≡ capped V
        → weights ≡ capped X
        → result ≡ capped (8 * (2 ^ e * W * 2 ^ (suc qubits) * (L + V) + 2 ^ (suc qubits) * X)) }
{
    let entries = twice_entries(qubits);
    let worlds = capped_product(power_of_two(splits), from);
    let runs = capped_product(
        capped_product(worlds, entries),
        capped_sum(statements, goal),
    );
    let builds = capped_product(entries, weights);
    capped_product(8, capped_sum(runs, builds))
}

/// How many steps are enough to judge an obligation of the program, up to 2^64, by the sizes of all expressions.
pub fn enough_steps(program: &Program, sets: &Sets, sizes: &[Size], obligation: &Obligation) -> u128
    requires program { IsValidProgram program.now }
    requires told { sizes.now ≡ capped_sizes sets.now.exprs }
    requires bound { IsBoundObligation program.now sets.now obligation.now }
    ensures { result ≡ capped (enough program.now sets.now obligation.now) }
{
    let from = obligation.from.as_slice();
    let allowed = obligation.goal.cases.as_slice();
    let fragment = obligation.fragment.as_slice();
    let named = bits_named(program.bits, obligation);
    let splits = capped_sum(outcomes_in(fragment), u128::from(named));
    let statements = capped_sum(1, statements_in(fragment));
    let starts = words_in(sizes, from);
    let goal = words_in(sizes, allowed);
    let weights = capped_sum(weights_in(sizes, from), weights_in(sizes, allowed));
    steps_by(splits, starts, program.qubits, statements, goal, weights)
}
