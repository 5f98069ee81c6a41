// The quotient of two patterns, rounded once: one division of the significands, and the remainder as sticky bit.
#![tactic(auto)]

ghost use Rattle.std.specs.Prelude.{◌≡◌, ◌*◌, ◌^◌};
ghost use Rattle.posit.specs.Pattern.{unsigned, size};
ghost use Rattle.posit.specs.Exact.{ratio};
ghost use Rattle.posit.specs.Rounding.{round, signed};
ghost use Rattle.posit.specs.Operation.{quotient};
ghost use Rattle.rounding.specs.Packed.{packed_unit};
ghost use Rattle.unpacking.specs.Scaled.{scaled_unit, Real};

use rounding::pack;
use unpacking::scaled::scaled_of;
use unpacking::{NAR, either_nar};

pub fn div(p: u32, q: u32) -> u32
    ensures { result ≡ quotient 2 31 p q }
{
    if either_nar(p, q) {
        return NAR;
    }
    if q == 0 {
        return NAR;
    }
    if p == 0 {
        return 0;
    }
    div_sizes((p > NAR) != (q > NAR), p, q)
}

// A type of patterns that are neither zero nor NaR would have to be public to serve this crate and `exact_terms`, and no public type asks anything of its callers.
//
// The quotient of two sizes, rounded, with its sign. The significands' quotient has its leading one at bit 31 or 32, which `pack` does not read, and the
// remainder is the sticky bit. Sizes of one scale have the scale 1024 of `pack`, or one less where the quotient is below 1.
fn div_sizes(negative: bool, a: u32, b: u32) -> u32
    requires { Real a × Real b }
    ensures { result ≡ signed 31 negative (round 2 31 packed_unit (ratio (size 2 31 scaled_unit (unsigned 31 a) * 2 ^ packed_unit) (size 2 31 scaled_unit (unsigned 31 b)))) }
{
    let x = scaled_of(a);
    let y = scaled_of(b);
    let n = x.significand << 32;
    let d = y.significand;
    let q = n / d;
    let high = (q >> 32) as u32;
    pack(
        negative,
        1023 + high + x.scale - y.scale,
        q << (30 - high),
        0 < n % d,
    )
}
