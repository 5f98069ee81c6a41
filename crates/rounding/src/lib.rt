// The one rounding: a size told by a scale, a fraction and a sticky bit becomes a pattern.
#![tactic(auto)]

ghost use Rattle.std.specs.Prelude.{◌≡◌, suc, ◌-◌, ◌*◌, ◌/◌, ◌^◌, ◌<◌, ◌≤◌, leb};
ghost use Rattle.posit.specs.Exact.{whole};
ghost use Rattle.posit.specs.Rounding.{round, signed};
ghost use Rattle.posit.proofs.Built.{built};
ghost use Rattle.posit.proofs.LongPattern.{half_even};
ghost use Rattle.posit.proofs.Packing.{from_digits};
ghost use Rattle.rounding.specs.Packed.{packed_unit, packed_size};

// The size 2^(scale - 1024)·(1 + f), rounded, with its sign. The fraction f is the lowest 61 bits of `fraction`, and half a unit of the last one
// more where the sticky bit is set. Four arguments and no struct of them: each caller makes them in the call, and they are taken apart at once.
pub fn pack(negative: bool, scale: u32, fraction: u64, sticky: bool) -> u32
    ensures { result ≡ signed 31 negative (round 2 31 packed_unit (whole (packed_size scale fraction sticky))) }
{
    let p = pack_size(scale, fraction, sticky);
    if negative { 0u32.wrapping_sub(p) } else { p }
}

// The same without the sign. Beyond 2^120 and below 2^-120 there is one pattern each; between, the regime k is from -30 to 29.
fn pack_size(scale: u32, fraction: u64, sticky: bool) -> u32
    ensures { result ≡ round 2 31 packed_unit (whole (packed_size scale fraction sticky)) }
{
    if scale < 904 {
        return 1;
    }
    if 1144 <= scale {
        return 0x7FFF_FFFF;
    }
    let t = ((scale % 4) as u64) * 0x2000_0000_0000_0000 + fraction % 0x2000_0000_0000_0000;
    Run::of(scale).followed_by(t, sticky)
}

// The run of a regime, of ones or of zeros, and its end: as long as leaves room for a digit behind it.
#[derive(Clone, Copy)]
struct Run {
    ones: bool,
    // one less than its length
    less: u32,
    ghost short: { less ≤ 29 },
}

impl Run {
    // By the scale. The length is chosen apart from the digits, since then both runs are packed by the same code, without a branch.
    fn of(scale: u32) -> Run
        requires { (904 ≤ scale) × (scale < 1144) }
        ensures { (result.ones ≡ leb 1024 scale) × (scale < 1024 → result.less ≡ 255 - scale / 4) × (1024 ≤ scale → result.less ≡ scale / 4 - 256) }
    {
        Run {
            ones: 1024 <= scale,
            less: if scale < 1024 {
                255 - scale / 4
            } else {
                scale / 4 - 256
            },
        }
    }

    // The run, its end, and 63 digits t behind it, of which those that fit stay and one more decides with the rest.
    fn followed_by(self, t: u64, sticky: bool) -> u32
        requires { t < 2 ^ 63 }
        ensures { result ≡ from_digits self.ones self.less t sticky }
    {
        let s = 33 + self.less;
        let h = self.at_top() + ((t >> s) as u32);
        half_even(h, 0 < t % (1 << s) + sticky as u64)
    }

    // The run and its end at the top of a word of 32 digits: one more than fit.
    fn at_top(self) -> u32
        ensures { result ≡ built self.ones (suc self.less) 0 0 * 2 ^ (30 - self.less) }
    {
        if self.ones {
            0xFFFF_FFFF - ((1 << (31 - self.less)) - 1)
        } else {
            1 << (30 - self.less)
        }
    }
}

// Round half to even: h has one digit too many, and `more` says whether anything follows it.
fn half_even(h: u32, more: bool) -> u32
    ensures { result ≡ half_even h more }
{
    let r = h / 2;
    if more {
        r + h % 2
    } else {
        r + (h % 2 + r % 2) / 2
    }
}
