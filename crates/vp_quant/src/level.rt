//! Quantisation of a coefficient.

ghost use Rattle.std.specs.Prelude.{◌≡◌, ◌+◌, ◌*◌, ◌<◌, ◌≤◌, pos, ◌-ℤ◌, ◌*ℤ◌, unsigned_abs};
ghost use Rattle.vp_quant.specs.Level.{quantised};

/// Quantises a coefficient: divides it by the factor, to the nearest level. Halves are rounded away from 0; the result
/// is clamped to -2,047 to 2,047.
pub fn quantise(coefficient: i64, factor: u16) -> i16
    requires { 1 ≤ factor }
    ensures value { result ≡ quantised coefficient factor }
    ensures within { unsigned_abs result ≤ 2047 }
    // It is the nearest level, if that is at most 2047.
    ensures nearest { unsigned_abs coefficient ≤ 2047 * factor
        → 2 * unsigned_abs (coefficient -ℤ result *ℤ pos factor) ≤ factor }
{
    let size = (coefficient.unsigned_abs() + u64::from(factor / 2)) / u64::from(factor);
    let level = size.min(2047) as i16;
    if coefficient < 0 { -level } else { level }
}
