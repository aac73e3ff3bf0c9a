//! What a gate's name and angle mean.
ghost use Rattle.std.specs.Prelude.{◌≡◌, Some};
ghost use Rattle.aq_elab.specs.Calls.{
  one_of_table,
  recipe_named,
  wants_angle,
  is_unknown,
  is_angle_missed,
  recipe_at,
  spots_of,
  recipe_of,
};

use crate::angle::eighths_of;
use crate::fault::ElabFault;
use aq_parse::{Angle, Word};
use aq_prog::{Rows, gate_named};

/// What a gate's name means: a gate of the table, or one that is made of such gates.
#[derive(Clone, Copy, Debug, PartialEq, Eq)]
pub(crate) enum Recipe {
    One(Rows),
    Swap,
    ControlledSwap,
}

const SWAP: &[u8] = b"swap";

const CONTROLLED_SWAP: &[u8] = b"cswap";

const PHASE: &[u8] = b"p";

const CONTROLLED_PHASE: &[u8] = b"cp";

const ROTATION_X: &[u8] = b"rx";

const ROTATION_Y: &[u8] = b"ry";

const ROTATION_Z: &[u8] = b"rz";

fn one_of_table(rows: Option<Rows>) -> Option<Recipe>
    ensures { result ≡ one_of_table rows }
{
    rows.map(Recipe::One)
}

/// The gate with this name, at an angle of `eighths * pi/4`.
#[tactic(auto, unfolding(crate::specs::Calls::recipe_named))]
fn recipe_named(name: &[u8], eighths: i64) -> Option<Recipe>
    ensures { result ≡ recipe_named name.now eighths }
{
    if name == SWAP {
        return Some(Recipe::Swap);
    }
    if name == CONTROLLED_SWAP {
        return Some(Recipe::ControlledSwap);
    }
    one_of_table(gate_named(name, eighths))
}

/// Whether the gate with this name is one of an angle.
#[tactic(auto, unfolding(crate::specs::Calls::angled_gates))]
fn wants_angle(name: &[u8]) -> bool
    ensures { result ≡ wants_angle name.now }
{
    name == PHASE
        || name == CONTROLLED_PHASE
        || name == ROTATION_X
        || name == ROTATION_Y
        || name == ROTATION_Z
}

fn is_unknown(name: &[u8]) -> bool
    ensures { result ≡ is_unknown name.now }
{
    recipe_named(name, 0).is_none()
}

fn is_angle_missed(name: &Word, angle: Option<Angle>) -> bool
    ensures { result ≡ is_angle_missed name.now angle }
{
    match angle {
        None => wants_angle(name.text.as_slice()),
        Some(_) => !wants_angle(name.text.as_slice()),
    }
}

fn recipe_turned(name: &Word, angle: Angle) -> Result<Recipe, ElabFault>
    ensures { result ≡ recipe_at name.now (Some angle) }
{
    let fault = ElabFault::AngleForm { at: angle.at };
    let Some(eighths) = eighths_of(&angle) else {
        return Err(fault);
    };
    recipe_named(name.text.as_slice(), eighths).ok_or(fault)
}

/// The gate at this angle, which is to have its form, and at which the gate is to be known.
fn recipe_at(name: &Word, angle: Option<Angle>) -> Result<Recipe, ElabFault>
    ensures { result ≡ recipe_at name.now angle }
{
    match angle {
        None => recipe_named(name.text.as_slice(), 0).ok_or(ElabFault::UnknownGate { at: name.at }),
        Some(angle) => recipe_turned(name, angle),
    }
}

/// The number of spots that a gate has.
fn spots_of(recipe: &Recipe) -> u64
    ensures { result ≡ spots_of recipe.now }
{
    match recipe {
        Recipe::One(rows) => u64::from(rows.controls) + 1,
        Recipe::Swap => 2,
        Recipe::ControlledSwap => 3,
    }
}

/// What a call of a gate on so many spots means. Errors, the first that applies:
/// - UnknownGate at the name: there is no gate with the name.
/// - AngleForm at the name: an angle where none is wanted, or none where one is.
/// - AngleForm at the angle: the angle isn't written in the form that is taken, or the gate isn't known at it.
/// - OperandCount at the name: the gate has another number of spots.
#[tactic(auto, unfolding(crate::specs::Calls::recipe_of))]
pub(crate) fn recipe_of(
    name: &Word,
    angle: Option<Angle>,
    count: usize,
) -> Result<Recipe, ElabFault>
    ensures { result ≡ recipe_of name.now angle count }
{
    if is_unknown(name.text.as_slice()) {
        return Err(ElabFault::UnknownGate { at: name.at });
    }
    if is_angle_missed(name, angle) {
        return Err(ElabFault::AngleForm { at: name.at });
    }
    let recipe = recipe_at(name, angle)?;
    if count as u64 == spots_of(&recipe) {
        Ok(recipe)
    } else {
        Err(ElabFault::OperandCount { at: name.at })
    }
}
