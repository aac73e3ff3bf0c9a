//! Tensor products of vectors and of lists of vectors.
ghost use Rattle.std.specs.Prelude.{◌≡◌, ◌≤◌, ◌++◌, map};
ghost use Rattle.std.specs.List.{flat_map};
ghost use Rattle.aq_ring.specs.Amplitudes.{product};
ghost use Rattle.aq_sets.specs.Vectors.{tensor, tensors, pairs, all_pairs, listed, power};
ghost use Rattle.aq_plain.specs.Listing.{Takes};

use crate::rows::Row;
use crate::stop::VectorStop;
use aq_ring::Amp;
use std::alloc::Global;

/// Appends the amplitude times each of the right ones. `Wide`: the operands of a product that doesn't fit.
fn push_products(amps: &mut Vec<Amp>, left: Amp, right: &[Amp]) -> Result<(), VectorStop>
    ensures { Takes (map (λ b. (left, b)) right.now) (λ _. amps.new.items ≡ amps.old.items ++ map
        (product left) right.now) result }
{
    for amp in right {
        let Some(product) = left.product(*amp) else {
            return Err(VectorStop::Wide { left, right: *amp });
        };
        amps.push(product)?;
    }
    Ok(())
}

/// The tensor product of two vectors.
fn tensor_row(alloc: Global, left: &[Amp], right: &[Amp]) -> Result<Row, VectorStop>
    ensures { Takes (pairs left.now right.now) (λ row. row ≡ tensor left.now right.now) result }
{
    let mut amps = Vec::new(alloc);
    for amp in left {
        push_products(&mut amps, *amp, right)?;
    }
    Ok(Row::from_vec(amps))
}

/// Appends the tensor products of the vector and each of the right ones.
fn push_tensors(
    alloc: Global,
    rows: &mut Vec<Row>,
    left: &[Amp],
    right: &[Row],
) -> Result<(), VectorStop>
    ensures { Takes (flat_map (pairs left.now) right.now) (λ _. rows.new.items ≡ rows.old.items ++ map
        (tensor left.now) right.now) result }
{
    for row in right {
        let product = tensor_row(alloc, left, row.amps())?;
        rows.push(product)?;
    }
    Ok(())
}

/// Each tensor product of a vector of the left and one of the right, the left one outermost.
pub(crate) fn tensor_rows(
    alloc: Global,
    left: &[Row],
    right: &[Row],
) -> Result<Vec<Row>, VectorStop>
    ensures { Takes (all_pairs left.now right.now) (λ rows. rows.items ≡ tensors left.now right.now) result }
{
    let mut rows = Vec::new(alloc);
    for row in left {
        push_tensors(alloc, &mut rows, row.amps(), right)?;
    }
    Ok(rows)
}

/// The tensor product of so many times the base, from the left to the right.
pub(crate) fn power_rows(alloc: Global, base: &[Row], times: u32) -> Result<Vec<Row>, VectorStop>
    requires { 2 ≤ times }
    ensures { Takes (power times (listed base.now)).products (λ rows. rows.items ≡ (power times
        (listed base.now)).vectors) result }
{
    let mut rows = tensor_rows(alloc, base, base)?;
    for i in 2..times {
        rows = tensor_rows(alloc, rows.as_slice(), base)?;
    }
    Ok(rows)
}
