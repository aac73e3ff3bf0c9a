//! Angles in eighths of a turn.
ghost use Rattle.std.specs.Prelude.{◌≡◌};
ghost use Rattle.aq_elab.specs.Angles.{is_eighths, signed, eighths_of};

use aq_base::MOST_ANGLE_FACTOR;
use aq_parse::Angle;

fn is_eighths(angle: &Angle) -> bool
    ensures { result ≡ is_eighths angle.now }
{
    angle.times <= MOST_ANGLE_FACTOR && (angle.over == 1 || angle.over == 2 || angle.over == 4)
}

fn signed(minus: bool, number: u32) -> i64
    ensures { result ≡ signed minus number }
{
    let number = i64::from(number);
    if minus { -number } else { number }
}

/// The number e of an angle of `e * pi/4`. None where the angle isn't written in the form that is taken.
pub(crate) fn eighths_of(angle: &Angle) -> Option<i64>
    ensures { result ≡ eighths_of angle.now }
{
    if angle.pi {
        if is_eighths(angle) {
            return Some(signed(angle.minus, 4 * angle.times / angle.over));
        }
        return None;
    }
    if angle.times == 0 { Some(0) } else { None }
}
