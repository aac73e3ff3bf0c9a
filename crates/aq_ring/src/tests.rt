//! Worked facts about amplitudes, calculated by hand.
use crate::Amp;
use std::test::Fail;

/// The greatest coefficient, `2^127 - 1`.
const GREATEST: i128 = i128::MAX;

/// `2^126`.
const QUARTER: i128 = 0x4000_0000_0000_0000_0000_0000_0000_0000;

/// `2^62`, the least number that isn't multiplied in 64 bits.
const WIDE: i128 = 0x4000_0000_0000_0000;

fn made(coefs: [i128; 4], power: u32) -> Result<Amp, Fail> {
    Ok(Amp::from_parts(coefs, power).ok_or("out of range")?)
}

fn product(left: Amp, right: Amp) -> Result<Amp, Fail> {
    Ok(left.product(right).ok_or("product")?)
}

fn sum(left: Amp, right: Amp) -> Result<Amp, Fail> {
    Ok(left.sum(right).ok_or("sum")?)
}

#[test]
fn lowest_forms(rt: HostRuntime) -> Result<(), Fail> {
    assert_eq!(rt; made([2, 0, 0, 0], 2)?, Amp::one());
    assert_eq!(rt; made([0, 0, 0, 0], u32::MAX)?, Amp::zero());
    let root = made([2, 0, 0, 0], 1)?;
    assert_eq!(rt; root.coefs(), [0, 1, 0, -1]);
    assert_eq!(rt; root.power(), 0);
    assert_eq!(rt; made([1, 0, 0, 0], 1)?.power(), 1);
    assert!(rt; Amp::zero().is_zero());
    assert!(rt; !root.is_zero());
    Ok(())
}

#[test]
fn sums_of_halves_and_roots(rt: HostRuntime) -> Result<(), Fail> {
    let root = made([1, 0, 0, 0], 1)?;
    let twice = sum(root, root)?;
    assert_eq!(rt; twice.coefs(), [0, 1, 0, -1]);
    assert_eq!(rt; twice.power(), 0);
    let half = product(root, root)?;
    assert_eq!(rt; half.coefs(), [1, 0, 0, 0]);
    assert_eq!(rt; half.power(), 2);
    assert_eq!(rt; sum(half, half)?, Amp::one());
    assert_eq!(rt; sum(root, half)?, made([1, 1, 0, -1], 2)?);
    assert_eq!(rt; Amp::one().over_root().ok_or("quotient")?, root);
    assert_eq!(rt;
        made([2, 0, 0, 0], 0)?.over_root().ok_or("quotient")?,
        twice
    );
    Ok(())
}

#[test]
fn turns_go_round(rt: HostRuntime) -> Result<(), Fail> {
    let number = made([1, 2, 3, 5], 1)?;
    assert_eq!(rt; number.turn(1), made([-5, 1, 2, 3], 1)?);
    assert_eq!(rt; number.turn(3).turn(5), number);
    assert_eq!(rt; sum(number, number.turn(4))?, Amp::zero());
    let mut turned = number;
    for _i in 0..8 {
        turned = turned.turn(1);
    }
    assert_eq!(rt; turned, number);
    let w = Amp::one().turn(1);
    assert_eq!(rt; product(w, made([0, 0, 0, -1], 0)?)?, Amp::one());
    Ok(())
}

#[test]
fn edges_of_the_range(rt: HostRuntime) -> Result<(), Fail> {
    let large = made([GREATEST, -GREATEST, 0, 0], u32::MAX)?;
    assert_eq!(rt; large.coefs(), [GREATEST, -GREATEST, 0, 0]);
    assert_eq!(rt; large.power(), u32::MAX);
    assert_eq!(rt; product(large, Amp::one())?, large);
    assert_eq!(rt; sum(large, Amp::zero())?, large);
    assert_eq!(rt; sum(Amp::zero(), large)?, large);
    assert!(rt; Amp::from_parts([i128::MIN, 0, 0, 0], 0).is_none());
    assert!(rt; Amp::from_parts([0, 0, 0, i128::MIN], 0).is_none());
    let wide = product(made([WIDE, 1, 0, 0], 0)?, made([WIDE - 1, 0, 0, 0], 0)?)?;
    assert_eq!(rt;
        wide.coefs(),
        [0xfff_ffff_ffff_ffff_c000_0000_0000_0000, WIDE - 1, 0, 0]
    );
    Ok(())
}

#[test]
fn products_that_do_not_fit(rt: HostRuntime) -> Result<(), Fail> {
    let large = made([GREATEST, 0, 0, 0], 0)?;
    assert!(rt; large.product(large).is_none(), "a product of coefficients");
    let left = made([QUARTER, QUARTER, 1, 0], 0)?;
    let right = made([1, 0, 1, -1], 0)?;
    assert!(rt; left.product(right).is_none(), "a sum on the way");
    let fits = product(right, left)?;
    assert_eq!(rt;
        fits.coefs(),
        [GREATEST, QUARTER + 1, QUARTER + 1, 0],
        "the other order"
    );
    let deep = made([1, 0, 0, 0], 0x8000_0000)?;
    assert!(rt; deep.product(deep).is_none(), "a power");
    let less = made([1, 0, 0, 0], 0x7fff_ffff)?;
    assert_eq!(rt; product(deep, less)?.power(), u32::MAX);
    Ok(())
}

#[test]
fn sums_and_quotients_that_do_not_fit(rt: HostRuntime) -> Result<(), Fail> {
    let large = made([GREATEST, 0, 0, 0], 0)?;
    assert!(rt; large.sum(large).is_none(), "a sum of coefficients");
    let root = made([1, 0, 0, 0], 1)?;
    assert_eq!(rt; sum(large, root)?, made([1, GREATEST, 0, -GREATEST], 1)?);
    let both = made([GREATEST, 0, GREATEST, 0], 0)?;
    assert!(rt;
        both.sum(root).is_none(),
        "an operand over the greater power"
    );
    let deep = made([1, 0, 0, 0], u32::MAX)?;
    assert!(rt;
        deep.sum(Amp::one()).is_none(),
        "an operand over a far greater power"
    );
    assert!(rt; deep.over_root().is_none(), "the power of a quotient");
    Ok(())
}
