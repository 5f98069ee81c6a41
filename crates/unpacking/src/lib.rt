// A pattern of 32 bits taken apart: into a significand at a scale, or into its sign, regime, exponent and significand.
#![tactic(auto)]

pub mod scaled; // scaled.rt: a size as a significand at a scale
mod unsigned; // unsigned.rt: a pattern without its sign, and its run

ghost use Rattle.std.specs.Prelude.{◌≡◌, ◌||◌, ◌==◌};
ghost use Rattle.posit.specs.Pattern.{nar};
ghost use Rattle.unpacking.specs.Parts.{parts};
ghost use Rattle.unpacking.specs.Unpacked.{meaning};

use unsigned::Unsigned;

// The pattern of NaR. The contract of `either_nar` ties it to the definition.
pub const NAR: u32 = 0x8000_0000;

// What a pattern is: zero, NaR, or the sign (true below 0), the regime k, the exponent e, and the significand with its leading one at bit 30.
#[derive(Clone, Copy, PartialEq, Eq)]
pub enum Unpacked {
    Zero,
    NaR,
    Real {
        sign: bool,
        k: i32,
        e: u32,
        significand: u32,
    },
}

pub fn unpack(p: u32) -> Unpacked
    ensures { meaning result ≡ parts 2 31 p }
{
    match p {
        0 => Unpacked::Zero,
        NAR => Unpacked::NaR,
        _ => Unsigned::of(p).with_sign(p > NAR),
    }
}

// Whether one of two patterns is NaR.
pub fn either_nar(p: u32, q: u32) -> bool
    ensures { result ≡ (p == nar 31 || q == nar 31) }
{
    p == NAR || q == NAR
}
