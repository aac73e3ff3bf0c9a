//! The claims that are asked of a program, with the names of their bits looked up.
ghost use Rattle.std.specs.Prelude.{◌≡◌, ◌≤◌, ◌+◌, IfOk, map, option_copied};
ghost use Rattle.std.specs.List.{find};
ghost use Rattle.std.specs.Str.{bytes_eq};
ghost use Rattle.aq_base.specs.Checks.{all_checked};
ghost use Rattle.aq_base.specs.Limits.{most_bits};
ghost use Rattle.aq_prog.specs.Programs.{IsValidProgram};
ghost use Rattle.aq_sets.specs.Tables.{at_position};
ghost use Rattle.aq_sets.specs.Valid.{IsValidSets};
ghost use Rattle.aq_owing.specs.Asking.{
  Gives,
  bit_of,
  bit_in,
  register_named,
  bound_cond,
  bound_case,
  bound_claim,
  claim_named,
  bound_claims,
  asked,
  AreShort,
  AreBound,
  AreQubits,
};
ghost use Rattle.aq_owing.specs.declared.asked.ObligationFault.TheVariants as faults;

use crate::asked::{AskedClaims, ObligationFault};
use aq_lex::Text;
use aq_obligations::BoundCase;
use aq_prog::{BitRegister, Guard, Program};
use aq_sets::{Case, Cond, NamedClaim, Sets, qubits_of_all};
use sqlite_items::Items;
use std::alloc::{AllocError, Global};

/// The bit of a register, or none where the index is no bit of it, or where it has several and there is no index.
fn bit_of(index: Option<u128>, register: &BitRegister) -> Option<u32>
    requires { register.now.first + register.now.size ≤ most_bits }
    ensures { result ≡ bit_of index register.now }
{
    match index {
        None => {
            if register.size == 1 {
                Some(register.first)
            } else {
                None
            }
        }
        Some(i) => {
            if register.indexed && i < u128::from(register.size) {
                Some(register.first + i as u32)
            } else {
                None
            }
        }
    }
}

/// The bit of the register with this name.
fn bit_named(registers: &[BitRegister], name: &[u8], index: Option<u128>) -> Option<u32>
    requires { AreShort registers.now }
    ensures { result ≡ bit_in index (register_named registers.now name.now) }
{
    for register in registers {
        if register.name.is(name) {
            return bit_of(index, register);
        }
    }
    None
}

fn bit_unknown(alloc: Global, name: &[u8], bit: &[u8]) -> Result<ObligationFault, AllocError>
    ensures { IfOk result (λ f. f ≡ faults.BitUnknown name.now bit.now) }
{
    let name = Text::from_slice(alloc, name)?;
    let bit = Text::from_slice(alloc, bit)?;
    Ok(ObligationFault::BitUnknown { name, bit })
}

fn qubits_differ(alloc: Global, name: &[u8], has: u32) -> Result<ObligationFault, AllocError>
    ensures { IfOk result (λ f. f ≡ faults.QubitsDiffer name.now has) }
{
    let name = Text::from_slice(alloc, name)?;
    Ok(ObligationFault::QubitsDiffer { name, has })
}

fn unknown_claim(alloc: Global, name: &[u8]) -> Result<ObligationFault, AllocError>
    ensures { IfOk result (λ f. f ≡ faults.UnknownClaim name.now) }
{
    let name = Text::from_slice(alloc, name)?;
    Ok(ObligationFault::UnknownClaim { name })
}

/// A condition of the claim with this name, with its bit looked up. BitUnknown: the program has no such bit.
fn guard_of(
    alloc: Global,
    program: &Program,
    name: &[u8],
    cond: &Cond,
) -> Result<Guard, ObligationFault>
    requires { AreShort program.now.registers }
    ensures { Gives (λ g. g) result (bound_cond program.now name.now cond.now) }
{
    match bit_named(
        program.registers.as_slice(),
        cond.bit.as_slice(),
        cond.index,
    ) {
        Some(bit) => Ok(Guard {
            bit,
            value: cond.value,
        }),
        None => Err(bit_unknown(alloc, name, cond.bit.as_slice())?),
    }
}

fn guards_of(
    alloc: Global,
    program: &Program,
    name: &[u8],
    conds: &[Cond],
) -> Result<Items<Guard>, ObligationFault>
    requires { AreShort program.now.registers }
    ensures { Gives (λ gs. gs) result (all_checked (bound_cond program.now name.now) conds.now) }
{
    let mut guards = Items::new(alloc);
    for cond in conds {
        let guard = guard_of(alloc, program, name, cond)?;
        guards.push(guard)?;
    }
    Ok(guards)
}

/// The number of qubits at a position, or 0 where there is none.
fn qubits_at(qubits: &[u32], expr: u32) -> u32
    ensures { result ≡ at_position 0 qubits.now expr }
{
    match qubits.get(expr as usize) {
        Some(number) => *number,
        None => 0,
    }
}

/// A case of the claim with this name, from the numbers of qubits of all expressions. QubitsDiffer: it is on another
/// number of qubits than the program. Then BitUnknown, condition by condition.
#[tactic(auto, unfolding(crate::specs::Asking::bound_case))]
fn case_of(
    alloc: Global,
    program: &Program,
    sets: &Sets,
    qubits: &[u32],
    name: &[u8],
    case: &Case,
) -> Result<BoundCase, ObligationFault>
    requires short { AreShort program.now.registers }
    requires qubits { AreQubits sets.now.exprs qubits.now }
    ensures { Gives (λ c. c) result (bound_case program.now sets.now name.now case.now) }
{
    let has = qubits_at(qubits, case.set);
    if has != program.qubits {
        return Err(qubits_differ(alloc, name, has)?);
    }
    let when = guards_of(alloc, program, name, case.when.as_slice())?;
    Ok(BoundCase {
        set: case.set,
        when,
    })
}

fn cases_of(
    alloc: Global,
    program: &Program,
    sets: &Sets,
    qubits: &[u32],
    claim: &NamedClaim,
) -> Result<Items<BoundCase>, ObligationFault>
    requires short { AreShort program.now.registers }
    requires qubits { AreQubits sets.now.exprs qubits.now }
    ensures { Gives (λ cs. cs) result (bound_claim program.now sets.now claim.now) }
{
    let mut cases = Items::new(alloc);
    for case in claim.cases.as_slice() {
        let bound = case_of(alloc, program, sets, qubits, claim.name.as_slice(), case)?;
        cases.push(bound)?;
    }
    Ok(cases)
}

fn find_claim<'a>(claims: &'a [NamedClaim], name: &[u8]) -> Option<&'a NamedClaim>
    ensures { option_copied result ≡ find (λ c. bytes_eq c.name name.now) claims.now }
{
    for claim in claims {
        if claim.name.is(name) {
            return Some(claim);
        }
    }
    None
}

/// The claim with this name. UnknownClaim: there is none.
fn claim_named<'a>(
    alloc: Global,
    sets: &'a Sets,
    name: &[u8],
) -> Result<&'a NamedClaim, ObligationFault>
    ensures { Gives (λ c. c.now) result (claim_named sets.now name.now) }
{
    match find_claim(sets.claims.as_slice(), name) {
        Some(claim) => Ok(claim),
        None => Err(unknown_claim(alloc, name)?),
    }
}

/// The claims with these names. UnknownClaim: there is none with one of them.
fn claims_named<'a>(
    alloc: Global,
    sets: &'a Sets,
    names: &[Text],
) -> Result<Vec<&'a NamedClaim>, ObligationFault>
    ensures { Gives (λ list. map (λ c. c.now) list.items) result (all_checked (claim_named sets.now) names.now) }
{
    let mut claims = Vec::new(alloc);
    for name in names {
        let claim = claim_named(alloc, sets, name.as_slice())?;
        claims.push(claim)?;
    }
    Ok(claims)
}

/// The cases of each claim.
fn cases_of_all(
    alloc: Global,
    program: &Program,
    sets: &Sets,
    qubits: &[u32],
    claims: &[&NamedClaim],
) -> Result<Items<Items<BoundCase>>, ObligationFault>
    requires short { AreShort program.now.registers }
    requires qubits { AreQubits sets.now.exprs qubits.now }
    ensures { Gives (λ list. list) result
        (all_checked (bound_claim program.now sets.now) (map (λ c. c.now) claims.now)) }
{
    let mut list = Items::new(alloc);
    for claim in claims {
        let cases = cases_of(alloc, program, sets, qubits, claim)?;
        list.push(cases)?;
    }
    Ok(list)
}

/// The cases of the precondition, of the postcondition and of the other claims.
fn bind(
    alloc: Global,
    program: &Program,
    sets: &Sets,
    first: &NamedClaim,
    second: &NamedClaim,
    others: &[&NamedClaim],
) -> Result<AskedClaims, ObligationFault>
    requires short { AreShort program.now.registers }
    requires sets { IsValidSets sets.now }
    ensures { Gives (λ a. a) result (bound_claims program.now sets.now first.now second.now
        (map (λ c. c.now) others.now)) }
{
    let qubits = qubits_of_all(alloc, sets)?;
    let before = cases_of(alloc, program, sets, qubits.as_slice(), first)?;
    let after = cases_of(alloc, program, sets, qubits.as_slice(), second)?;
    let claims = cases_of_all(alloc, program, sets, qubits.as_slice(), others)?;
    Ok(AskedClaims {
        before,
        after,
        claims,
    })
}

/// The claims, looked up, as the definitions say.
#[tactic(auto, unfolding(crate::specs::Asking::asked))]
fn look_up(
    alloc: Global,
    program: &Program,
    sets: &Sets,
    pre: &[u8],
    post: &[u8],
) -> Result<AskedClaims, ObligationFault>
    requires short { AreShort program.now.registers }
    requires sets { IsValidSets sets.now }
    ensures { Gives (λ a. a) result (asked program.now sets.now pre.now post.now) }
{
    let first = claim_named(alloc, sets, pre)?;
    let second = claim_named(alloc, sets, post)?;
    let others = claims_named(alloc, sets, program.claims.as_slice())?;
    bind(alloc, program, sets, first, second, others.as_slice())
}

/// The cases of the claims named `pre` and `post` and of those that the program names, with their bits looked up in
/// the program. Each is on the program's qubits, and asks for bits of the program. Errors, the first that applies:
/// - UnknownClaim: no claim is named `pre`, or else none is named `post`, or else none has a name that the program
///   names, in its order.
/// - QubitsDiffer, BitUnknown: claim by claim in the same order and case by case, a case is on another number of
///   qubits than the program, or, if not, one of its conditions names no bit of it.
/// - Memory: memory ran out.
pub fn ask(
    alloc: Global,
    program: &Program,
    sets: &Sets,
    pre: &[u8],
    post: &[u8],
) -> Result<AskedClaims, ObligationFault>
    requires program { IsValidProgram program.now }
    requires sets { IsValidSets sets.now }
    ensures asked { Gives (λ a. a) result (asked program.now sets.now pre.now post.now) }
    ensures bound { IfOk result (AreBound program.now sets.now) }
{
    look_up(alloc, program, sets, pre, post)
}
