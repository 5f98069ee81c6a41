// A pattern without its sign: the run of its regime, and what stands behind it.
ghost use Rattle.std.specs.Prelude.{◌≡◌, ◌+◌, ◌*◌};
ghost use Rattle.posit.specs.Pattern.{unsigned, Positive, first, run, regime, exponent, raised, least};
ghost use Rattle.posit.proofs.Word.{behind};
ghost use Rattle.unpacking.specs.Parts.{significand, is_real};
ghost use Rattle.unpacking.specs.Scaled.{Real};
ghost use Rattle.unpacking.specs.Unpacked.{meaning};

use super::scaled::Scaled;
use super::{NAR, Unpacked};

// A pattern above 0: that of a posit with its sign off.
#[derive(Clone, Copy)]
pub(crate) struct Unsigned {
    bits: u32,
    ghost positive: { Positive 31 bits },
}

// The length of a run, and what follows the run and the digit that ends it, at the top of a word; digits that are missing are 0.
#[derive(Drop)]
struct Digits {
    run: u32,
    behind: u32,
}

impl Unsigned {
    // The sign is taken off.
    pub(crate) fn of(p: u32) -> Unsigned
        requires { Real p }
        ensures { result.bits ≡ unsigned 31 p }
    {
        Unsigned {
            bits: if p > NAR { 0u32.wrapping_sub(p) } else { p },
        }
    }

    // Taken apart, with a sign. The scale is 120 + 4k + e.
    pub(crate) fn with_sign(self, sign: bool) -> Unpacked
        ensures { meaning result ≡ is_real sign (regime 31 self.bits) (exponent 2 31 self.bits) (significand 2 31 self.bits) }
    {
        let x = self.scaled();
        Unpacked::Real {
            sign,
            k: (x.scale / 4) as i32 - 30,
            e: x.scale % 4,
            significand: x.significand as u32,
        }
    }

    // The scale is 120 + 4k + e.
    pub(crate) fn scaled(self) -> Scaled
        ensures { (result.scale ≡ raised 2 (least 2 31) (regime 31 self.bits) + exponent 2 31 self.bits) × (result.significand ≡ significand 2 31 self.bits) }
    {
        let s = self.split();
        Scaled {
            scale: 4 * self.base(s.run) + (s.behind >> 30),
            significand: (0x4000_0000 + s.behind % 0x4000_0000) as u64,
        }
    }

    // 30 + k, by the length m of the run.
    fn base(self, m: u32) -> u32
        requires { m ≡ run (first 31 self.bits) 31 self.bits }
        ensures { 4 * result ≡ raised 2 (least 2 31) (regime 31 self.bits) }
    {
        if self.bits < 0x4000_0000 {
            30 - m
        } else {
            29 + m
        }
    }

    // The sign, the run and its end are shifted out. A run of all 31 digits has no end, and leaves 0.
    fn split(self) -> Digits
        ensures { (result.run ≡ run (first 31 self.bits) 31 self.bits) × (result.behind ≡ behind 2 31 self.bits) }
    {
        let m = self.run();
        Digits {
            run: m,
            behind: (self.bits << m) << 2,
        }
    }

    // How many digits, from the top one below the sign, are equal to that one.
    fn run(self) -> u32
        ensures { result ≡ run (first 31 self.bits) 31 self.bits }
    {
        let x = self.bits << 1;
        let y = if self.bits < 0x4000_0000 { x } else { !x };
        y.leading_zeros()
    }
}
