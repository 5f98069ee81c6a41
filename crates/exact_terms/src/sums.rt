// The sum of two exact terms, rounded once: align, add or subtract, normalise.
ghost use Rattle.std.specs.Prelude.{◌≡◌, true, ◌+◌, ◌-◌, ◌/◌, ◌%◌, ◌^◌, ◌≤◌, ◌<◌, ltb, ◌+ℤ◌};
ghost use Rattle.posit.specs.Exact.{Exact, Sound};
ghost use Rattle.posit.specs.Rounding.{round, rounded, signed};
ghost use Rattle.posit.proofs.Compare.{Counts};
ghost use Rattle.rounding.specs.Packed.{packed_unit};
ghost use mir.Val.{bool_byte};
ghost use Rattle.rounding.proofs.Terms.{magnitude, term, combine};

use super::terms::Term;
use rounding::pack;
use std::hint::select_unpredictable;

// What stays of a significand that is moved down, and whether anything was lost.
#[derive(Clone, Copy)]
struct Aligned {
    kept: u64,
    lost: bool,
}

impl Term {
    // To choose the terms, and not what to call, leaves no branch.
    pub(crate) fn rounded_sum(self, other: Term) -> u32
        ensures { result ≡ rounded 2 31 packed_unit (term self.negative self.scale self.significand +ℤ term other.negative other.scale other.significand) }
    {
        let b = self.is_smaller(other);
        let high = select_unpredictable(b, other, self);
        high.rounded_sum_ordered(select_unpredictable(b, self, other))
    }

    // Whether it is the smaller of the two without their signs.
    fn is_smaller(self, other: Term) -> bool
        ensures { result ≡ ltb (magnitude self.scale self.significand) (magnitude other.scale other.significand) }
    {
        (self.scale, self.significand) < (other.scale, other.significand)
    }

    // With a term that is no greater: the sum has the sign of the greater. The digits of low that fall below its last one are lost to the sticky bit.
    fn rounded_sum_ordered(self, low: Term) -> u32
        requires { magnitude low.scale low.significand ≤ magnitude self.scale self.significand }
        ensures { result ≡ rounded 2 31 packed_unit (term self.negative self.scale self.significand +ℤ term low.negative low.scale low.significand) }
    {
        let a = low.aligned(self.scale - low.scale);
        let n = self.combined(self.negative == low.negative, a);
        if n == 0 {
            return 0;
        }
        pack_wide(self.negative, self.scale, n, a.lost)
    }

    // The significand moved down by d digits. From 63 on nothing stays.
    fn aligned(self, d: u32) -> Aligned
        ensures { (result.kept ≡ self.significand / 2 ^ d) × (result.lost ≡ ltb 0 (self.significand % 2 ^ d)) }
    {
        let s = d.min(63);
        Aligned {
            kept: self.significand >> s,
            lost: 0 < self.significand % (1 << s),
        }
    }

    // What is lost of a number that is taken makes the difference one less, and something above it.
    fn combined(self, same: bool, low: Aligned) -> u64
        requires { low.kept + bool_byte low.lost ≤ self.significand }
        ensures { result ≡ combine same self.significand low.kept low.lost }
    {
        if same {
            self.significand + low.kept
        } else {
            self.significand - low.kept - low.lost as u64
        }
    }
}

// n·2^scale, or more where the sticky bit says so, but less than (n + 1)·2^scale: rounded, with its sign. The leading one of n is moved to bit 61. Four arguments,
// as `pack` has.
fn pack_wide(negative: bool, scale: u32, n: u64, sticky: bool) -> u32
    requires { (0 < n) × (sticky ≡ true → 2 ^ 61 ≤ n) × (64 ≤ scale) × (scale < 2000) }
    ensures { (x : Exact) → Sound x → Counts x n (2 ^ scale) sticky → result ≡ signed 31 negative (round 2 31 packed_unit x) }
{
    let z = n.leading_zeros();
    let m = n << z;
    pack(negative, scale + 1 - z, m >> 2, 0 < m % 4 + sticky as u64)
}
